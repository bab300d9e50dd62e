// Runs published samples of UTF-8, blank text and instants, a line each, and writes how many came out as their line says, with every
// one that did not. Then two counts over every case: the White_Space code points, and the code points of three bytes.
#![tactic(auto)]

ghost use Rattle.std.specs.Prelude.{◌≤◌, length};

use byte_input::read_full;
use std::io;

// The longest list, in bytes.
const LIST_BYTES: usize = 65536;

// The longest sample in hexadecimal, in bytes.
const SAMPLE_BYTES: usize = 128;

// The digits before an instant that is read: its seven fields.
const FIELD_DIGITS: usize = 23;

fn hex_value(b: u8) -> u8
    ensures { result ≤ 15 }
{
    match b {
        b'0'..=b'9' => b - b'0',
        b'A'..=b'F' => b - b'A' + 10,
        _ => 0,
    }
}

// The bytes that pairs of hexadecimal digits stand for, and their number.
fn bytes_of(hex: &[u8], out: &mut [u8]) -> usize
    ensures { result ≤ length out.new }
{
    let mut n = 0;
    let mut at = 0;
    while at + 1 < hex.len() {
        if n >= out.len() {
            return n;
        }
        out[n] = hex_value(hex[at]) * 16 + hex_value(hex[at + 1]);
        n += 1;
        at += 2;
    }
    n
}

// Whether the digits write that number.
fn writes(digits: &[u8], n: u32) -> bool {
    let mut left = n;
    for &digit in digits.iter().rev() {
        if digit != b'0' + (left % 10) as u8 {
            return false;
        }
        left /= 10;
    }
    left == 0
}

// Whether a sample's digits are the fields: four of the year, two each of month, day, hour, minute and second, nine of the nanoseconds.
fn are_fields(sample: &[u8], fields: timestamp::Fields) -> bool {
    if sample.len() < FIELD_DIGITS {
        return false;
    }
    if !writes(&sample[0..4], fields.year) {
        return false;
    }
    if !writes(&sample[4..6], fields.month) {
        return false;
    }
    if !writes(&sample[6..8], fields.day) {
        return false;
    }
    if !writes(&sample[8..10], fields.hour) {
        return false;
    }
    if !writes(&sample[10..12], fields.minute) {
        return false;
    }
    if !writes(&sample[12..14], fields.second) {
        return false;
    }
    writes(&sample[14..23], fields.nanoseconds)
}

// Whether a text is read as the instant that the digits before it say.
fn is_read(sample: &[u8]) -> bool {
    if sample.len() < FIELD_DIGITS {
        return false;
    }
    match timestamp::parse(&sample[FIELD_DIGITS..]) {
        Some(fields) => are_fields(sample, fields),
        None => false,
    }
}

fn is_unreadable(s: &[u8]) -> bool {
    timestamp::parse(s).is_none()
}

fn passes(list: u8, sample: &[u8]) -> bool {
    let mut bytes = [0u8; SAMPLE_BYTES];
    let n = bytes_of(sample, &mut bytes);
    if list == b'u' {
        text::is_utf8(&bytes[..n])
    } else {
        text::is_blank(&bytes[..n])
    }
}

// Whether a sample of a list comes out as it should: read or passed where `said`, else not.
fn is_right(list: u8, said: bool, sample: &[u8]) -> bool {
    if list == b'i' {
        if said {
            return is_read(sample);
        }
        return is_unreadable(sample);
    }
    passes(list, sample) == said
}

// Whether a sample comes out as its line says. Otherwise the line is written.
fn is_as_said(rt: &impl Print, line: &[u8]) -> io::Result<bool> {
    if line.len() < 2 {
        return Ok(false);
    }
    if is_right(line[0], line[1] == b'+', &line[2..]) {
        return Ok(true);
    }
    rt.write_all(b"differs: ")?;
    rt.write_all(line)?;
    rt.write_all(b"\n")?;
    Ok(false)
}

// The end of the line that begins at an offset.
fn line_end(s: &[u8], at: usize) -> usize
    requires { at ≤ length s.now }
    ensures { (at ≤ result) × (result ≤ length s.now) }
{
    for end in at..s.len() {
        if s[end] == b'\n' {
            return end;
        }
    }
    s.len()
}

// Whether a line is one of a list's, and, where only is set, comes out as it says.
fn counts(rt: &impl Print, line: &[u8], list: u8, only: bool) -> io::Result<bool> {
    if line.len() == 0 {
        return Ok(false);
    }
    if line[0] == list {
        if only {
            return is_as_said(rt, line);
        }
        return Ok(true);
    }
    Ok(false)
}

// How many lines count.
fn count(rt: &impl Print, s: &[u8], list: u8, only: bool) -> io::Result<u64> {
    let mut n: u64 = 0;
    let mut at = 0;
    while at < s.len() {
        let end = line_end(s, at);
        if counts(rt, &s[at..end], list, only)? {
            n += 1;
        }
        at = end + 1;
    }
    Ok(n)
}

fn report(rt: &impl Print, name: &str, s: &[u8], list: u8) -> io::Result<()> {
    print!(rt; "{name}: ")?;
    let passed = count(rt, s, list, true)?;
    print!(rt; "{passed} of ")?;
    let all = count(rt, s, list, false)?;
    println!(rt; "{all}")
}

// How many code points are White_Space: 25 in Unicode's PropList.txt.
fn white_space_count() -> u64 {
    let mut n: u64 = 0;
    for c in 0..0x110000u32 {
        if text::is_white_space(c) {
            n += 1;
        }
    }
    n
}

// How many texts of three bytes that begin with E0 to EF are UTF-8: one for each code point from U+0800 to U+FFFF but the 2,048
// surrogates, which makes 61,440.
fn three_byte_count() -> u64 {
    let mut n: u64 = 0;
    for i in 0xE00000..0xF00000u32 {
        let s = [(i / 65536) as u8, (i / 256 % 256) as u8, (i % 256) as u8];
        if text::is_utf8(&s) {
            n += 1;
        }
    }
    n
}

fn main(rt: HostRuntime) -> io::Result<()> {
    let mut buffer = [0u8; LIST_BYTES];
    let n = read_full(&mut rt.reader(), &mut buffer)?;
    let s = &buffer[..n];
    report(&rt, "utf8", s, b'u')?;
    report(&rt, "blank", s, b'b')?;
    report(&rt, "instants", s, b'i')?;
    let white_space = white_space_count();
    println!(rt; "white space: {white_space} code points")?;
    let three_bytes = three_byte_count();
    println!(rt; "three bytes: {three_bytes} code points")
}
