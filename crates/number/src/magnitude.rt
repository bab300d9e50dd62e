// Decides whether a number's magnitude is below 2^1024 - 2^970, from the place of its first nonzero digit. Digits are compared only where that is the bound's.
ghost use Rattle.std.specs.Prelude.{◌≡◌, map, ◌++◌, ◌+◌, ◌<◌, ◌≤◌, ◌^◌, min, get_or};
ghost use Rattle.number.specs.Bound.{bound};
ghost use Rattle.number.specs.Finite.{digit, value};
ghost use Rattle.number.specs.FirstDigit.{largest, zeros, order, level_of, is_less, matched};
ghost use Rattle.number.specs.Tests.{Tests, TestsNumber};

use crate::bound::BOUND;
use std::cmp::Ordering;

// What was found out about a number: whether its magnitude is below the bound, and how many of its digits were compared with the bound's.
#[derive(Clone, Copy)]
pub struct Tested {
    pub finite: bool,
    pub compared: usize,
}

// An exponent from here on counts as this one: no text is long enough for them to differ.
const LARGEST: usize = 10_000_000_000_000_000_000;

fn digit(b: u8) -> u8
    ensures { result ≡ digit b }
{
    if b < b'0' { 0 } else { b - b'0' }
}

// The number that `s` writes, or LARGEST where it is larger.
fn capped(s: &[u8]) -> usize
    ensures { result ≡ min (value s.now) largest }
{
    let mut v: usize = 0;
    for &b in s {
        if LARGEST / 10 <= v {
            return LARGEST;
        }
        let d = digit(b);
        v = v * 10 + d as usize;
    }
    v.min(LARGEST)
}

// How many zeros `s` begins with.
fn zeros(s: &[u8]) -> usize
    ensures { result ≡ zeros (map digit s.now) }
{
    for i in 0..s.len() {
        if digit(s[i]) != 0 {
            return i;
        }
    }
    s.len()
}

fn order(a: usize, b: usize) -> Ordering
    ensures { result ≡ order a b }
{
    a.cmp(&b)
}

// The place of the first nonzero digit against 10^308, the place of the bound's. That digit is the first of `places` before the point, or comes after the point and `zeros` zeros.
fn level_of(places: usize, zeros: usize, lowered: bool, exponent: usize) -> Ordering
    requires { (places + zeros < 2 ^ 63) × (exponent ≤ largest) }
    ensures { result ≡ level_of lowered places zeros exponent }
{
    if lowered {
        if places <= zeros {
            return Ordering::Less;
        }
        return order(places - zeros, 309 + exponent);
    }
    if 309 + zeros < exponent {
        return Ordering::Greater;
    }
    order(places + exponent, 309 + zeros)
}

// The digit at place i of `high` and, after that, `low`: 0 where both have ended.
fn digit_at(high: &[u8], low: &[u8], i: usize) -> u8
    ensures { result ≡ get_or (map digit (high.now ++ low.now)) i 0 }
{
    if i < high.len() {
        return digit(high[i]);
    }
    let j = i - high.len();
    if j < low.len() {
        return digit(low[j]);
    }
    0
}

// Whether the digits of `high` and `low` are less than the bound's: the first that differs decides, and is the last that is looked at.
fn compare(high: &[u8], low: &[u8]) -> Tested
    ensures { (result.finite ≡ is_less (map digit (high.now ++ low.now)) bound) × (result.compared ≡ matched (map digit (high.now ++ low.now)) bound) }
{
    for i in 0..BOUND.len() {
        let d = digit_at(high, low, i);
        let b = BOUND[i];
        if d != b {
            return Tested {
                finite: d < b,
                compared: i + 1,
            };
        }
    }
    Tested {
        finite: false,
        compared: BOUND.len(),
    }
}

fn by_level(l: Ordering, high: &[u8], low: &[u8]) -> Tested
    ensures { Tests l (map digit (high.now ++ low.now)) result }
{
    match l {
        Ordering::Less => Tested {
            finite: true,
            compared: 0,
        },
        Ordering::Equal => compare(high, low),
        Ordering::Greater => Tested {
            finite: false,
            compared: 0,
        },
    }
}

// The test of the number with these digits before and after the point, and this exponent.
pub fn test_parts(whole: &[u8], fraction: &[u8], lowered: bool, exponent: &[u8]) -> Tested
    ensures { TestsNumber (record { whole = whole.entry.now; fraction = fraction.now; lowered = lowered; exponent = exponent.now }) result }
{
    let e = capped(exponent);
    let w = zeros(whole);
    if w < whole.len() {
        let high = &whole[w..];
        return by_level(level_of(high.len(), 0, lowered, e), high, fraction);
    }
    let f = zeros(fraction);
    if f < fraction.len() {
        let low = &fraction[f..];
        return by_level(level_of(0, f, lowered, e), low, &fraction[..0]);
    }
    Tested {
        finite: true,
        compared: 0,
    }
}
