// Takes a number text apart, rule by rule of RFC 8259, section 6.
ghost use Rattle.std.specs.Prelude.{◌≡◌, ◌+◌, ◌≤◌, length, drop};
ghost use Rattle.number.specs.Grammar.{run, digits, int, frac, last, power, exp, unsigned, number};
ghost use Rattle.number.specs.Parts.{Ends, Spans, Raises, Splits};

use text::is_digit;

// The parts of a number text, as places in it. What is left out has no digits.
#[derive(Clone, Copy)]
pub struct Parts {
    pub whole: usize,
    pub point: usize,
    pub fraction: usize,
    pub end: usize,
    pub lowered: bool,
    pub exponent: usize,
}

fn run_end(s: &[u8], at: usize) -> usize
    ensures { result ≡ at + length (run (drop at s.now)) }
{
    for i in at..s.len() {
        if !is_digit(s[i]) {
            return i;
        }
    }
    at.max(s.len())
}

// Where a run of digits ends, if there is one.
fn digits(s: &[u8], at: usize) -> Option<usize>
    ensures { Ends (digits (drop at s.now)) s.now at result }
{
    let end = run_end(s, at);
    if at < end { Some(end) } else { None }
}

// Where the digits before the point end. No zero leads, unless it is the only digit.
fn int(s: &[u8], at: usize) -> Option<usize>
    ensures { Ends (int (drop at s.now)) s.now at result }
{
    let end = digits(s, at)?;
    if s[at] == b'0' {
        if at + 1 < end {
            return None;
        }
    }
    Some(end)
}

// Where the digits after the point begin and end: both at `at` where there is no point. A point has digits.
fn frac(s: &[u8], at: usize) -> Option<(usize, usize)>
    requires { at ≤ length s.now }
    ensures { Spans (frac (drop at s.now)) s.now result }
{
    if at < s.len() {
        if s[at] == b'.' {
            let end = digits(s, at + 1)?;
            return Some((at + 1, end));
        }
    }
    Some((at, at))
}

// Whether a minus precedes the exponent, and where its digits begin, which go to the end of the text.
fn last(s: &[u8], lowered: bool, at: usize) -> Option<(bool, usize)>
    ensures { Raises (last lowered (drop at s.now)) s.now result }
{
    let end = digits(s, at)?;
    if end < s.len() {
        None
    } else {
        Some((lowered, at))
    }
}

// The same, behind the letter.
fn power(s: &[u8], at: usize) -> Option<(bool, usize)>
    ensures { Raises (power (drop at s.now)) s.now result }
{
    if s.len() <= at {
        return None;
    }
    if s[at] == b'-' {
        return last(s, true, at + 1);
    }
    if s[at] == b'+' {
        return last(s, false, at + 1);
    }
    last(s, false, at)
}

// The same, from the letter on; without an exponent, the end of the text.
fn exp(s: &[u8], at: usize) -> Option<(bool, usize)>
    requires { at ≤ length s.now }
    ensures { Raises (exp (drop at s.now)) s.now result }
{
    if s.len() <= at {
        return Some((false, at));
    }
    if s[at] == b'e' {
        return power(s, at + 1);
    }
    if s[at] == b'E' {
        return power(s, at + 1);
    }
    None
}

// The parts of a number text behind its sign.
fn unsigned(s: &[u8], at: usize) -> Option<Parts>
    ensures { Splits (unsigned (drop at s.now)) s.now result }
{
    let point = int(s, at)?;
    let (fraction, end) = frac(s, point)?;
    let (lowered, exponent) = exp(s, end)?;
    Some(Parts {
        whole: at,
        point,
        fraction,
        end,
        lowered,
        exponent,
    })
}

// The parts of a number text.
pub fn split(s: &[u8]) -> Option<Parts>
    ensures { Splits (number s.now) s.now result }
{
    if s.len() == 0 {
        return None;
    }
    if s[0] == b'-' {
        return unsigned(s, 1);
    }
    unsigned(s, 0)
}
