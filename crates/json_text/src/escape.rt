// One char of a string, as the code point that it stands for (RFC 8259, section 7).
ghost use Rattle.std.specs.Prelude.{◌≡◌, ◌≤◌, ◌<◌, length};
ghost use Rattle.json_text.specs.Encode.{utf8_of};
ghost use Rattle.json_text.specs.Strings.{hex4, paired, unicode, escape, is_unescaped, char};
ghost use Rattle.json_text.specs.Places.{HexIs, DigitIs, ShortIs, PointIs};

use text::{decode_one, starts_with};

// The value of a hexadecimal digit, or 16 where it is none.
fn hex_value(b: u8) -> u32
    ensures { HexIs b result }
{
    if b < b'0' {
        return 16;
    }
    if b <= b'9' {
        return b as u32 - 48;
    }
    if b < b'A' {
        return 16;
    }
    if b <= b'F' {
        return b as u32 - 55;
    }
    if b < b'a' {
        return 16;
    }
    if b <= b'f' {
        return b as u32 - 87;
    }
    16
}

// The value of the digit at a place, or 16 where there is none.
fn hex_digit(s: &[u8], at: usize) -> u32
    ensures { DigitIs s.now at result }
{
    if s.len() <= at {
        return 16;
    }
    hex_value(s[at])
}

// Four hexadecimal digits: their number, and the place after them.
fn hex4(s: &[u8], at: usize) -> Option<(u32, usize)>
    ensures { PointIs hex4 65535 s.now at result }
{
    let a = hex_digit(s, at);
    if 16 <= a {
        return None;
    }
    let b = hex_digit(s, at + 1);
    if 16 <= b {
        return None;
    }
    let c = hex_digit(s, at + 2);
    if 16 <= c {
        return None;
    }
    let d = hex_digit(s, at + 3);
    if 16 <= d {
        return None;
    }
    Some((a * 4096 + b * 256 + c * 16 + d, at + 4))
}

// A low surrogate, written after its high one.
fn low_of(s: &[u8], at: usize, high: u32) -> Option<(u32, usize)>
    requires { (0xD800 ≤ high) × (high ≤ 0xDBFF) }
    ensures { PointIs (paired high) 0x10FFFF s.now at result }
{
    if starts_with(s, at, b'\\') {
        if starts_with(s, at + 1, b'u') {
            let (low, next) = hex4(s, at + 2)?;
            if low < 0xDC00 {
                return None;
            }
            if 0xDFFF < low {
                return None;
            }
            return Some((0x10000 + (high - 0xD800) * 1024 + (low - 0xDC00), next));
        }
        return None;
    }
    None
}

// After the backslash and the `u`.
fn unicode(s: &[u8], at: usize) -> Option<(u32, usize)>
    ensures { PointIs unicode 0x10FFFF s.now at result }
{
    let (n, next) = hex4(s, at)?;
    if n < 0xD800 {
        return Some((n, next));
    }
    if 0xDFFF < n {
        return Some((n, next));
    }
    if 0xDBFF < n {
        return None;
    }
    match low_of(s, next, n) {
        Some((c, end)) => Some((c, end)),
        None => None,
    }
}

// What a letter after a backslash stands for, or 0 where it is none of them.
fn short_escape(b: u8) -> u32
    ensures { ShortIs b result }
{
    if b == b'"' {
        return 0x22;
    }
    if b == b'\\' {
        return 0x5C;
    }
    if b == b'/' {
        return 0x2F;
    }
    if b == b'b' {
        return 0x8;
    }
    if b == b'f' {
        return 0xC;
    }
    if b == b'n' {
        return 0xA;
    }
    if b == b'r' {
        return 0xD;
    }
    if b == b't' {
        return 0x9;
    }
    0
}

// After the backslash.
fn escape(s: &[u8], at: usize) -> Option<(u32, usize)>
    ensures { PointIs escape 0x10FFFF s.now at result }
{
    if s.len() <= at {
        return None;
    }
    let b = s[at];
    if b == b'u' {
        return match unicode(s, at + 1) {
            Some((c, next)) => Some((c, next)),
            None => None,
        };
    }
    let c = short_escape(b);
    if c == 0 {
        return None;
    }
    Some((c, at + 1))
}

fn is_unescaped(c: u32) -> bool
    ensures { result ≡ is_unescaped c }
{
    if c < 0x20 {
        return false;
    }
    if c == 0x22 {
        return false;
    }
    c != 0x5C
}

// One code point of a string, written as it is or as an escape, and the place after what stands for it.
pub fn char(s: &[u8], at: usize) -> Option<(u32, usize)>
    ensures { PointIs char 0x1FFFFF s.now at result }
{
    if starts_with(s, at, b'\\') {
        return match escape(s, at + 1) {
            Some((c, next)) => Some((c, next)),
            None => None,
        };
    }
    let (c, next) = decode_one(s, at)?;
    if is_unescaped(c) {
        return Some((c, next));
    }
    None
}

// How many bytes the UTF-8 of a code point has.
pub fn size_of(c: u32) -> usize
    ensures { result ≡ length (utf8_of c) }
{
    if c <= 0x7F {
        return 1;
    }
    if c <= 0x7FF {
        return 2;
    }
    if c <= 0xFFFF {
        return 3;
    }
    4
}
