// The order of texts by their bytes.
ghost use Rattle.std.specs.Prelude.{◌≡◌, true, ◌+◌, ◌≤◌, min, length};
ghost use Rattle.text.specs.Order.{same_bytes};
ghost use Rattle.text.specs.Compares.{Compares, SameAt, SameStart};

use std::cmp::Ordering;

fn shorter(a: &[u8], b: &[u8]) -> usize
    ensures { result ≡ min (length a.now) (length b.now) }
{
    if a.len() < b.len() { a.len() } else { b.len() }
}

fn is_same_8(a: &[u8], b: &[u8], i: usize) -> bool
    requires { (i + 8 ≤ length a.now) × (i + 8 ≤ length b.now) }
    ensures { result ≡ true → SameAt a.now b.now i 8 }
{
    crate::eight_at(a, i) == crate::eight_at(b, i)
}

// How many bytes at the start are the same, as far as eights go: one comparison passes over eight bytes.
fn same_start(a: &[u8], b: &[u8]) -> usize
    ensures { SameStart a.now b.now result }
{
    let n = shorter(a, b);
    let mut i = 0;
    while 8 <= n - i {
        if is_same_8(a, b, i) {
            i += 8;
        } else {
            return i;
        }
    }
    i
}

// How two texts compare that start with the same `from` bytes: byte by byte, then by their lengths.
fn compare_from(a: &[u8], b: &[u8], from: usize) -> Ordering
    requires { SameStart a.now b.now from }
    ensures { Compares a.now b.now result }
{
    let n = shorter(a, b);
    for i in from..n {
        if a[i] != b[i] {
            return a[i].cmp(&b[i]);
        }
    }
    a.len().cmp(&b.len())
}

// Four bytes as one number decide more often than one byte does, so that fewer branches are guessed wrong.
pub fn compare(a: &[u8], b: &[u8]) -> Ordering
    ensures { Compares a.now b.now result }
{
    let n = shorter(a, b);
    let mut i = same_start(a, b);
    while 4 <= n - i {
        let first = crate::four_big_endian(a, i);
        let second = crate::four_big_endian(b, i);
        if first < second {
            return Ordering::Less;
        }
        if second < first {
            return Ordering::Greater;
        }
        i += 4;
    }
    compare_from(a, b, i)
}

pub fn same_bytes(a: &[u8], b: &[u8]) -> bool
    ensures { result ≡ same_bytes a.now b.now }
{
    if a.len() != b.len() {
        return false;
    }
    for i in same_start(a, b)..a.len() {
        if a[i] != b[i] {
            return false;
        }
    }
    true
}
