// Paths: segments separated by dots.
ghost use Rattle.std.specs.Prelude.{◌≡◌, true, ◌+◌, ◌≤◌, length};
ghost use Rattle.reference.specs.Path.{split, is_digits, is_ordinal, is_count};
ghost use Rattle.walk.specs.Dots.{is_more, Ends, DotlessAt, DotlessStart};

use text::is_digit;
use text::order::same_bytes;

// Whether eight bytes have no dot. `&` leaves none of them out, so that the compiler compares them at once.
fn is_dotless_8(path: &[u8], i: usize) -> bool
    requires { i + 8 ≤ length path.now }
    ensures { result ≡ true → DotlessAt path.now i 8 }
{
    (path[i] != b'.')
        & (path[i + 1] != b'.')
        & (path[i + 2] != b'.')
        & (path[i + 3] != b'.')
        & (path[i + 4] != b'.')
        & (path[i + 5] != b'.')
        & (path[i + 6] != b'.')
        & (path[i + 7] != b'.')
}

// Whether 32 bytes have no dot. Here too `&` leaves no call out: the compiler compares sixteen bytes at once.
fn is_dotless_32(path: &[u8], i: usize) -> bool
    requires { i + 32 ≤ length path.now }
    ensures { result ≡ true → DotlessAt path.now i 32 }
{
    is_dotless_8(path, i)
        & is_dotless_8(path, i + 8)
        & is_dotless_8(path, i + 16)
        & is_dotless_8(path, i + 24)
}

// How many bytes at the start are passed over by pieces of 32 bytes that have no dot. With two callers it stays a call, and the
// search of a short path is built into the callers of `first_end`.
fn dotless_start_32(path: &[u8]) -> usize
    ensures { DotlessStart path.now result }
{
    let mut i = 0;
    while 32 <= path.len() - i {
        if is_dotless_32(path, i) {
            i += 32;
        } else {
            return i;
        }
    }
    i
}

// How many bytes at the start have no dot, where that is known of the first ones and those after them are passed over by eights.
fn dotless_start(path: &[u8], known: usize) -> usize
    requires { DotlessStart path.now known }
    ensures { DotlessStart path.now result }
{
    let mut i = known;
    while 8 <= path.len() - i {
        if is_dotless_8(path, i) {
            i += 8;
        } else {
            return i;
        }
    }
    i
}

// Where the first segment of a path ends, whose first bytes are known to have no dot.
fn end_after(path: &[u8], known: usize) -> usize
    requires { DotlessStart path.now known }
    ensures { Ends path.now result }
{
    for i in dotless_start(path, known)..path.len() {
        if path[i] == b'.' {
            return i;
        }
    }
    path.len()
}

// Where the first segment of a path ends.
pub fn first_end(path: &[u8]) -> usize
    ensures { Ends path.now result }
{
    let mut known = 0;
    if 32 <= path.len() {
        known = dotless_start_32(path);
    }
    end_after(path, known)
}

// Whether a path has a dot, and so more than one segment.
pub fn has_dot(path: &[u8]) -> bool
    ensures { result ≡ is_more (split path.now).others }
{
    end_after(path, dotless_start_32(path)) < path.len()
}

fn is_digits(segment: &[u8]) -> bool
    ensures { result ≡ is_digits segment.now }
{
    for &b in segment {
        if !is_digit(b) {
            return false;
        }
    }
    true
}

// `0`, or digits without a leading zero.
pub fn is_ordinal(segment: &[u8]) -> bool
    ensures { result ≡ is_ordinal segment.now }
{
    if segment.len() == 0 {
        return false;
    }
    if segment[0] == b'0' {
        return segment.len() == 1;
    }
    is_digits(segment)
}

pub fn is_count(segment: &[u8]) -> bool
    ensures { result ≡ is_count segment.now }
{
    same_bytes(segment, b"count")
}
