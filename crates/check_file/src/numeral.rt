// Numerals of any length: decimal, without leading zeros. A number above the longest file's length is read to its end, where text's reader
// gives it up, and answered as `TOO_LARGE`, so that nothing wraps.
ghost use Rattle.std.specs.Prelude.{◌≡◌, min, ◌≤◌, length};
ghost use Rattle.text.specs.Numeral.{decimal};
ghost use Rattle.check_file.specs.File.{field};
ghost use Rattle.check_file.specs.Places.{too_large, digits_behind, CappedIs};

use definition::limits::MAX_FILE_BYTES;
use text::{is_digit, wide};

const TOO_LARGE: u32 = MAX_FILE_BYTES as u32 + 1;

fn capped(n: u32) -> u32
    ensures { result ≡ min n too_large }
{
    if n < TOO_LARGE { n } else { TOO_LARGE }
}

// The digits from `at` on, after the one whose value is `first`: the number, and the place after it.
fn digits(s: &[u8], at: usize, first: u32) -> Option<(u32, usize)>
    requires { (at ≤ length s.now) × (first ≤ 9) }
    ensures { CappedIs (digits_behind first) s.now at result }
{
    let mut value = first;
    for i in at..s.len() {
        let b = s[i];
        if !is_digit(b) {
            return Some((value, i));
        }
        value = capped(value * 10 + (wide(b) - 48));
    }
    Some((value, s.len()))
}

// A numeral whose first digit is at `at`: the number, and the place after it.
fn numeral(s: &[u8], at: usize) -> Option<(u32, usize)>
    ensures { CappedIs decimal s.now at result }
{
    if s.len() <= at {
        return None;
    }
    let b = s[at];
    if b == b'0' {
        return Some((0, at + 1));
    }
    if is_digit(b) {
        return digits(s, at + 1, wide(b) - 48);
    }
    None
}

// A numeral and the comma after it: the number, and the place after the comma.
pub fn field(s: &[u8], at: usize) -> Option<(u32, usize)>
    ensures { CappedIs field s.now at result }
{
    let (value, next) = numeral(s, at)?;
    if s.len() <= next {
        return None;
    }
    if s[next] == b',' {
        return Some((value, next + 1));
    }
    None
}
