// Replays a list of files and the lines that `rulecheck` prints for them, and writes how many came out as expected, with the number of
// each that did not. A case is a line with two byte counts separated by a comma, then a file, then what is printed for it. Lines that
// begin with # may come before the first case.
#![tactic(auto)]

ghost use Rattle.std.specs.Prelude.{◌<◌, ◌≤◌, ◌≡◌, IfOk, OnErr, cond, false, length};
ghost use Rattle.vectors.specs.Found.{Within, FoundIn, Tells, ReplayedIn, StepIn};

use byte_input::read_full;
use printed_answer::{LINE_BYTES, output};
use std::io;
use std::io::Read;
use text::is_digit;
use text::part::Part;

// The list is read in pieces of this size.
const BUFFER_BYTES: usize = 262144;

// More than any case has.
const CASE_BYTES: usize = 131072;

// More than any list has.
const MAX_CASES: u64 = 65536;

// Larger numbers are read as this one.
const TOO_LARGE: usize = 1000000;

#[derive(Clone, Copy)]
struct Numeral {
    value: usize,
    // The place after the byte that ends it.
    next: usize,
}

#[derive(Clone, Copy)]
struct Case {
    file: usize,
    expected: usize,
    end: usize,
}

// Neither case is a failure, so this is no Result.
#[derive(Clone, Copy)]
enum Step {
    // Whether a case came out as expected, and what is left after it.
    Replayed(bool, Part),
    // No case is there any more; whether that is the list's end.
    Last(bool),
}

// The place after the lines that begin with #.
fn head(s: &[u8]) -> usize
    ensures { result ≤ length s.now }
{
    let mut in_comment = false;
    for at in 0..s.len() {
        if s[at] == b'#' {
            in_comment = true;
        }
        if !in_comment {
            return at;
        }
        if s[at] == b'\n' {
            in_comment = false;
        }
    }
    s.len()
}

// A number with one more digit; `TOO_LARGE` where the byte is not a digit.
fn grown(value: usize, b: u8) -> usize
    requires { value ≤ 1000000 }
    ensures { result ≤ 1000000 }
{
    if is_digit(b) {
        let next = value * 10 + (b as usize - 48);
        if next < TOO_LARGE {
            return next;
        }
    }
    TOO_LARGE
}

// The number from `at` on up to the byte `stop`.
fn count(s: &[u8], at: usize, stop: u8) -> Numeral
    requires { at ≤ length s.now }
    ensures { (result.value ≤ 1000000) × (result.next ≤ length s.now) }
{
    let mut value = 0;
    for i in at..s.len() {
        let b = s[i];
        if b == stop {
            return Numeral { value, next: i + 1 };
        }
        value = grown(value, b);
    }
    Numeral {
        value: TOO_LARGE,
        next: s.len(),
    }
}

// The case at the start of `s`, if all of it is there.
fn find(s: &[u8]) -> Option<Case>
    ensures { FoundIn s.now result }
{
    let given = count(s, 0, b',');
    let told = count(s, given.next, b'\n');
    let file = told.next;
    let expected = file + given.value;
    let end = expected + told.value;
    if end <= s.len() {
        return Some(Case {
            file,
            expected,
            end,
        });
    }
    None
}

fn is_as_expected(file: &[u8], expected: &[u8]) -> bool
    ensures { Tells result file.now expected.now }
{
    let mut line = [0u8; LINE_BYTES];
    let n = output(file, &mut line);
    check::same(&line[0..n], expected)
}

// Whether the case at the start of `s` came out as expected, and the place after it.
fn replay(s: &[u8]) -> Option<(bool, usize)>
    ensures { ReplayedIn s.now result }
{
    let c = find(s)?;
    let file = c.file;
    let expected = c.expected;
    let end = c.end;
    let agrees = is_as_expected(&s[file..expected], &s[expected..end]);
    Some((agrees, end))
}

// Moves the bytes from `start` up to `end` to the front.
fn shift(buffer: &mut [u8], start: usize, end: usize)
    requires { (start ≤ end) × (end ≤ length buffer.old) }
{
    buffer.copy_within(start..end, 0);
}

// Reads on where less than a case may be left. `w` is what is read and not yet replayed.
fn refill<R: Read>(reader: &mut R, buffer: &mut [u8], w: Part) -> io::Result<Part>
    requires { Within buffer.old w }
    ensures ok { IfOk result (λ p. Within buffer.new p) }
    ensures err { OnErr result ((w.len < CASE_BYTES) × (length buffer.new ≡ length buffer.old)) }
{
    let start = w.start;
    let left = w.len;
    if CASE_BYTES <= left {
        return Ok(w);
    }
    shift(buffer, start, start + left);
    let more = read_full(reader, &mut buffer[left..])?;
    Ok(Part {
        start: 0,
        len: left + more,
    })
}

fn say(rt: &impl Print, number: u64, words: &str) -> io::Result<()> {
    print!(rt; "{number}{words}")
}

fn say_case(rt: &impl Print, number: u64, words: &str) -> io::Result<()> {
    print!(rt; "case ")?;
    say(rt, number, words)
}

// 1 for a case that agrees; another is named.
fn tallied(rt: &impl Print, agrees: bool, number: u64) -> io::Result<u64>
    ensures ok { IfOk result (λ n. n ≡ cond agrees 1 0) }
    ensures err { OnErr result (agrees ≡ false) }
{
    if agrees {
        return Ok(1);
    }
    say_case(rt, number, " differs\n")?;
    Ok(0)
}

fn report(rt: &impl Print, cases: u64, agreed: u64, all_read: bool) -> io::Result<()>
    requires { cases ≤ 65536 }
{
    if !all_read {
        say_case(rt, cases + 1, " cannot be read\n")?;
    }
    say(rt, cases, " cases, ")?;
    say(rt, agreed, " as expected\n")
}

fn advance<R: Read>(reader: &mut R, buffer: &mut [u8], w: Part) -> io::Result<Step>
    requires { Within buffer.old w }
    ensures ok { IfOk result (λ s. StepIn buffer.new s) }
    ensures err { OnErr result ((w.len < CASE_BYTES) × (length buffer.new ≡ length buffer.old)) }
{
    let f = refill(reader, buffer, w)?;
    let start = f.start;
    let left = f.len;
    let end = start + left;
    let Some((agrees, n)) = replay(&buffer[start..end]) else {
        return Ok(Step::Last(left == 0));
    };
    Ok(Step::Replayed(
        agrees,
        Part {
            start: start + n,
            len: left - n,
        },
    ))
}

fn run<R: Read>(rt: &impl Print, reader: &mut R, buffer: &mut [u8], from: Part) -> io::Result<()>
    requires { Within buffer.old from }
{
    let mut w = from;
    let mut agreed: u64 = 0;
    for cases in 0..MAX_CASES {
        let s = advance(reader, buffer, w)?;
        match s {
            Step::Replayed(agrees, left) => {
                agreed += tallied(rt, agrees, cases + 1)?;
                w = left;
            }
            Step::Last(all_read) => {
                return report(rt, cases, agreed, all_read);
            }
        }
    }
    report(rt, MAX_CASES, agreed, false)
}

// Room for a piece of the list, of zeros.
fn empty_buffer() -> [u8; BUFFER_BYTES] {
    [0; BUFFER_BYTES]
}

fn main(rt: HostRuntime) -> io::Result<()> {
    let mut buffer = empty_buffer();
    let mut reader = rt.reader();
    let end = read_full(&mut reader, &mut buffer)?;
    let start = head(&buffer[..end]);
    run(
        &rt,
        &mut reader,
        &mut buffer,
        Part {
            start,
            len: end - start,
        },
    )
}
