// Reads sheets, good and damaged, and writes which are accepted: + or - for each, 64 to a line, then how many.
// Before each sheet come eight bytes: S for a schema sheet or R for a rule sheet, its length in six digits, and 0A.
#![tactic(auto)]

ghost use Rattle.std.specs.Prelude.{◌+◌, ◌≤◌, length};

use byte_input::read_full;
use definition::limits::SCRATCH_WORDS;
use std::io;

const HEAD_BYTES: usize = 8;

// More than all samples have.
const BUFFER_BYTES: usize = 524288;

// The digit at a place; what is not a digit counts as 0.
fn digit(s: &[u8], at: usize) -> usize
    ensures { result ≤ 9 }
{
    if s.len() <= at {
        return 0;
    }
    match s[at] {
        b'1' => 1,
        b'2' => 2,
        b'3' => 3,
        b'4' => 4,
        b'5' => 5,
        b'6' => 6,
        b'7' => 7,
        b'8' => 8,
        b'9' => 9,
        _ => 0,
    }
}

// Three digits.
fn three(s: &[u8], at: usize) -> usize
    requires { at ≤ length s.now + 8 }
    ensures { result ≤ 999 }
{
    digit(s, at) * 100 + digit(s, at + 1) * 10 + digit(s, at + 2)
}

fn accepts_schema(sheet: &[u8]) -> bool {
    let mut scratch = [0u32; SCRATCH_WORDS];
    schema::read::read_schema(sheet, &mut scratch).is_some()
}

fn accepts_rule(sheet: &[u8]) -> bool {
    let mut scratch = [0u32; SCRATCH_WORDS];
    rule::read_rule(sheet, &mut scratch).is_some()
}

fn accepts(letter: u8, sheet: &[u8]) -> bool {
    if letter == b'S' {
        accepts_schema(sheet)
    } else {
        accepts_rule(sheet)
    }
}

// One sheet's verdict, and a line's end after every 64th.
fn write_verdict(rt: &impl Print, accepted: bool, count: u64) -> io::Result<()> {
    if accepted {
        print!(rt; "+")?;
    } else {
        print!(rt; "-")?;
    }
    if count % 64 == 63 {
        println!(rt; "")?;
    }
    Ok(())
}

fn run(rt: &impl Print, s: &[u8]) -> io::Result<()> {
    let mut at: usize = 0;
    let mut count: u64 = 0;
    let mut good: u64 = 0;
    while at < s.len() {
        let start = at + HEAD_BYTES;
        let end = start + three(s, at + 1) * 1000 + three(s, at + 4);
        if s.len() < end {
            return Ok(());
        }
        let accepted = accepts(s[at], &s[start..end]);
        write_verdict(rt, accepted, count)?;
        if accepted {
            good += 1;
        }
        count += 1;
        at = end;
    }
    println!(rt; "\naccepted {good} of {count}")
}

// Room for all samples, of zeros.
fn empty_buffer() -> [u8; BUFFER_BYTES] {
    [0; BUFFER_BYTES]
}

fn main(rt: HostRuntime) -> io::Result<()> {
    let mut buffer = empty_buffer();
    let n = read_full(&mut rt.reader(), &mut buffer)?;
    run(&rt, &buffer[..n])
}
