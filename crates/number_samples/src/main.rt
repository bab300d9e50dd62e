// Judges samples, a line each, and writes how many there are of each verdict, with every one that the crate `number` judges otherwise.
// A line is its verdict, how many digits are compared, in three digits, a comma and the text: f017,1.7976931348623157e308. The verdict
// is n for not a number, f for a finite one, i for one that is not finite. A line that begins with # says where those after it are from.
#![tactic(auto)]

ghost use Rattle.std.specs.Prelude.{◌≤◌, length};

use byte_input::read_full;
use std::io;

// More than all samples have.
const BUFFER_BYTES: usize = 524288;

fn verdict(text: &[u8], finite: bool) -> u8 {
    if finite {
        return b'f';
    }
    if number::is_number(text) {
        return b'i';
    }
    b'n'
}

fn last_digit(n: usize) -> u8 {
    (n % 10) as u8 + b'0'
}

// Whether three digits write `n`, which has at most three.
fn writes(digits: &[u8], n: usize) -> bool {
    if digits.len() < 3 {
        return false;
    }
    if digits[0] == last_digit(n / 100) {
        if digits[1] == last_digit(n / 10) {
            return digits[2] == last_digit(n);
        }
    }
    false
}

// The end of the line that begins at `at`.
fn line_end(s: &[u8], at: usize) -> usize
    requires { at ≤ length s.now }
    ensures { (at ≤ result) × (result ≤ length s.now) }
{
    for i in at..s.len() {
        if s[i] == b'\n' {
            return i;
        }
    }
    s.len()
}

fn begins_with(line: &[u8], b: u8) -> bool {
    if line.len() == 0 {
        return false;
    }
    line[0] == b
}

// Whether a sample is judged as it says.
fn holds(line: &[u8]) -> bool {
    if line.len() < 5 {
        return false;
    }
    let text = &line[5..];
    let tested = number::test(text);
    if writes(&line[1..4], tested.compared) {
        line[0] == verdict(text, tested.finite)
    } else {
        false
    }
}

// Whether the line is not a sample, or judged as it says. Otherwise it is written.
fn is_as_said(rt: &impl Print, line: &[u8]) -> io::Result<bool> {
    if line.len() == 0 {
        return Ok(true);
    }
    if line[0] == b'#' {
        return Ok(true);
    }
    if holds(line) {
        return Ok(true);
    }
    rt.write_all(b"differs: ")?;
    rt.write_all(line)?;
    rt.write_all(b"\n")?;
    Ok(false)
}

// How many lines begin with `b`.
fn count(s: &[u8], b: u8) -> usize {
    let mut n: usize = 0;
    let mut i: usize = 0;
    while i < s.len() {
        let end = line_end(s, i);
        if begins_with(&s[i..end], b) {
            n += 1;
        }
        i = end + 1;
    }
    n
}

fn count_differing(rt: &impl Print, s: &[u8]) -> io::Result<usize> {
    let mut n: usize = 0;
    let mut i: usize = 0;
    while i < s.len() {
        let end = line_end(s, i);
        if !is_as_said(rt, &s[i..end])? {
            n += 1;
        }
        i = end + 1;
    }
    Ok(n)
}

fn report(rt: &impl Print, name: &str, n: usize) -> io::Result<()> {
    println!(rt; "{name}: {n}")
}

// Room for all samples, of zeros.
fn empty_buffer() -> [u8; BUFFER_BYTES] {
    [0; BUFFER_BYTES]
}

fn main(rt: HostRuntime) -> io::Result<()> {
    let mut buffer = empty_buffer();
    let n = read_full(&mut rt.reader(), &mut buffer)?;
    let s = &buffer[..n];
    report(&rt, "no number", count(s, b'n'))?;
    report(&rt, "finite", count(s, b'f'))?;
    report(&rt, "not finite", count(s, b'i'))?;
    report(&rt, "differ", count_differing(&rt, s)?)
}
