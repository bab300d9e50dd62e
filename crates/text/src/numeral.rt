// Numerals: decimal, without leading zeros.
ghost use Rattle.std.specs.Prelude.{◌≡◌, ◌^◌, ◌≤◌, ◌<◌, length};
ghost use Rattle.text.specs.Numeral.{numeral};
ghost use Rattle.text.specs.ReadAt.{NumeralIs, DigitsAre, DecimalIs};

use crate::is_digit;

// A number of 32 bits as a place or a count.
pub fn to_size(n: u32) -> usize
    ensures { result ≡ n }
{
    n as usize
}

// The digits from `at` on, after those whose value is `first`. A value only grows, so one above `high` is given up before it could wrap. The number, and
// the place after it.
fn digits(s: &[u8], at: usize, first: usize, high: usize) -> Option<(usize, usize)>
    requires { (at ≤ length s.now) × (high < 2 ^ 63) }
    ensures { DigitsAre first high s.now at result }
{
    let most = high / 10;
    let mut value = first;
    for i in at..s.len() {
        let b = s[i];
        if !is_digit(b) {
            return Some((value, i));
        }
        if most < value {
            return None;
        }
        value = value * 10 + (b as usize - 48);
    }
    Some((value, s.len()))
}

// A numeral of which the first digit is at `at`; one above `high` may be given up. The number, and the place after it.
pub fn decimal(s: &[u8], at: usize, high: usize) -> Option<(usize, usize)>
    requires { high < 2 ^ 63 }
    ensures { DecimalIs high s.now at result }
{
    if s.len() <= at {
        return None;
    }
    let b = s[at];
    if b == b'0' {
        return Some((0, at + 1));
    }
    if is_digit(b) {
        return digits(s, at + 1, b as usize - 48, high);
    }
    None
}

// A numeral from `low` to `high`, of which the first digit is at `at`. The number, and the place after it.
pub fn numeral(s: &[u8], at: usize, low: u32, high: u32) -> Option<(usize, usize)>
    ensures { NumeralIs (numeral low high) low high s.now at result }
{
    let most = to_size(high);
    let (n, next) = decimal(s, at, most)?;
    if n < to_size(low) {
        return None;
    }
    if most < n {
        return None;
    }
    Some((n, next))
}
