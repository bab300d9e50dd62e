// A string (RFC 8259, section 7).
ghost use Rattle.std.specs.Prelude.{true, ◌≡◌, ◌+◌, ◌≤◌, length};
ghost use Rattle.json_text.specs.StringAt.{PlainByte, PlainAt, PlainTo, StringIs};

use crate::escape::{char, size_of};

// Whether a byte is a char that stands for itself. `&` leaves no test out, so that the compiler makes those of many bytes at once.
fn is_plain(b: u8) -> bool
    ensures { result ≡ true → PlainByte b }
{
    (0x20 <= b) & (b <= 0x7F) & (b != b'"') & (b != b'\\')
}

fn is_plain_8(s: &[u8], i: usize) -> bool
    requires { i + 8 ≤ length s.now }
    ensures { result ≡ true → PlainAt s.now i 8 }
{
    is_plain(s[i])
        & is_plain(s[i + 1])
        & is_plain(s[i + 2])
        & is_plain(s[i + 3])
        & is_plain(s[i + 4])
        & is_plain(s[i + 5])
        & is_plain(s[i + 6])
        & is_plain(s[i + 7])
}

fn is_plain_32(s: &[u8], i: usize) -> bool
    requires { i + 32 ≤ length s.now }
    ensures { result ≡ true → PlainAt s.now i 32 }
{
    is_plain_8(s, i) & is_plain_8(s, i + 8) & is_plain_8(s, i + 16) & is_plain_8(s, i + 24)
}

// Up to where pieces of 32 bytes are plain.
fn after_plain_32(s: &[u8], at: usize) -> usize
    requires { at ≤ length s.now }
    ensures { PlainTo s.now at result }
{
    let mut i = at;
    while 32 <= s.len() - i {
        if is_plain_32(s, i) {
            i += 32;
        } else {
            return i;
        }
    }
    i
}

// Up to where pieces of eight bytes are plain.
fn after_plain_8(s: &[u8], at: usize) -> usize
    requires { at ≤ length s.now }
    ensures { PlainTo s.now at result }
{
    let mut i = after_plain_32(s, at);
    while 8 <= s.len() - i {
        if is_plain_8(s, i) {
            i += 8;
        } else {
            return i;
        }
    }
    i
}

// Where the chars that stand for themselves end.
pub fn plain_end(s: &[u8], at: usize) -> usize
    requires { at ≤ length s.now }
    ensures { PlainTo s.now at result }
{
    for i in after_plain_8(s, at)..s.len() {
        if !is_plain(s[i]) {
            return i;
        }
    }
    s.len()
}

// A string, from behind its first quotation mark on. How long the text is, and the place after the closing one.
pub fn read_string(s: &[u8], at: usize) -> Option<(usize, usize)>
    requires { at ≤ length s.now }
    ensures { StringIs s.now at result }
{
    let mut i = plain_end(s, at);
    let mut len = i - at;
    while i < s.len() {
        if s[i] == b'"' {
            return Some((len, i + 1));
        }
        let (c, next) = char(s, i)?;
        let end = plain_end(s, next);
        len = len + size_of(c) + (end - next);
        i = end;
    }
    None
}
