// Text as bytes: UTF-8, digits, White_Space, blank text, text trimmed at both ends; numerals, parts and the order of texts. Every function takes any bytes.
#![tactic(auto)]

pub mod numeral; // numeral.rt: numerals
pub mod part; // part.rt: texts as places in others
pub mod order; // order.rt: the order of texts by their bytes

ghost use Rattle.std.specs.Prelude.{◌≡◌, true, ◌+◌, ◌*◌, ◌≤◌, ◌<◌, length, get_or, take, drop};
ghost use Rattle.text.specs.Utf8.{between, is_tail, is_utf8-2, is_second_of3, is_utf8-3, is_second_of4, is_utf8-4, is_utf8};
ghost use Rattle.text.specs.Utf8.{code_of2, code_of3, code_of4};
ghost use Rattle.text.specs.WhiteSpace.{is_white_space};
ghost use Rattle.text.specs.Blank.{is_blank, trim};
ghost use Rattle.text.specs.Decodes.{Decodes, AsciiAt, PassedTo, BehindPoint, StartsAt, EndsAt};
ghost use Rattle.text.specs.Digits.{Digits, BigEndian};
ghost use Rattle.text.specs.Decimal.{is_digit};
ghost use Rattle.text.specs.ReadAt.{StartsWith};

fn is_between(low: u8, high: u8, b: u8) -> bool
    ensures { result ≡ between low high b }
{
    low <= b && b <= high
}

pub fn is_digit(b: u8) -> bool
    ensures { result ≡ is_digit b }
{
    is_between(b'0', b'9', b)
}

pub fn starts_with(s: &[u8], at: usize, b: u8) -> bool
    ensures { StartsWith b s.now at result }
{
    if at < s.len() { s[at] == b } else { false }
}

fn is_tail(b: u8) -> bool
    ensures { result ≡ is_tail b }
{
    is_between(0x80, 0xBF, b)
}

fn is_utf8_2(a: u8, b: u8) -> bool
    ensures { result ≡ is_utf8-2 a b }
{
    is_between(0xC2, 0xDF, a) && is_tail(b)
}

// Whether b may follow a, the first of three bytes.
fn is_second_of_3(a: u8, b: u8) -> bool
    ensures { result ≡ is_second_of3 a b }
{
    match a {
        0xE0 => is_between(0xA0, 0xBF, b),
        0xED => is_between(0x80, 0x9F, b),
        0xE1..=0xEC | 0xEE..=0xEF => is_tail(b),
        _ => false,
    }
}

fn is_utf8_3(a: u8, b: u8, c: u8) -> bool
    ensures { result ≡ is_utf8-3 a b c }
{
    is_second_of_3(a, b) && is_tail(c)
}

// Whether b may follow a, the first of four bytes.
fn is_second_of_4(a: u8, b: u8) -> bool
    ensures { result ≡ is_second_of4 a b }
{
    match a {
        0xF0 => is_between(0x90, 0xBF, b),
        0xF4 => is_between(0x80, 0x8F, b),
        0xF1..=0xF3 => is_tail(b),
        _ => false,
    }
}

fn is_utf8_4(a: u8, b: u8, c: u8, d: u8) -> bool
    ensures { result ≡ is_utf8-4 a b c d }
{
    if is_second_of_4(a, b) {
        is_tail(c) && is_tail(d)
    } else {
        false
    }
}

// A byte as a number of 32 bits.
pub fn wide(b: u8) -> u32
    ensures { (result ≡ b) × (result < 256) }
{
    b as u32
}

fn code_of_2(a: u8, b: u8) -> u32
    ensures { result ≡ code_of2 a b }
{
    (a as u32) % 32 * 64 + (b as u32) % 64
}

fn code_of_3(a: u8, b: u8, c: u8) -> u32
    ensures { result ≡ code_of3 a b c }
{
    (a as u32) % 16 * 4096 + (b as u32) % 64 * 64 + (c as u32) % 64
}

fn code_of_4(a: u8, b: u8, c: u8, d: u8) -> u32
    ensures { result ≡ code_of4 a b c d }
{
    (a as u32) % 8 * 262144 + (b as u32) % 64 * 4096 + (c as u32) % 64 * 64 + (d as u32) % 64
}

// Four bytes as one number, the first its lowest digit.
fn four(a: u8, b: u8, c: u8, d: u8) -> u32
    ensures { result ≡ a + b * 256 + c * 65536 + d * 16777216 }
{
    (a as u32) + (b as u32) * 256 + (c as u32) * 65536 + (d as u32) * 16777216
}

fn four_at(s: &[u8], at: usize) -> u32
    requires { at + 4 ≤ length s.now }
    ensures { Digits 4 s.now at result }
{
    four(s[at], s[at + 1], s[at + 2], s[at + 3])
}

// Four bytes as one number, the first its highest digit, so that such numbers are in the order of the bytes.
pub fn four_big_endian(s: &[u8], at: usize) -> u32
    requires { at + 4 ≤ length s.now }
    ensures { BigEndian 4 s.now at result }
{
    four(s[at + 3], s[at + 2], s[at + 1], s[at])
}

fn wider(n: u32) -> u64
    ensures { result ≡ n }
{
    n as u64
}

// Eight bytes as one number. The compiler reads them all at once.
pub fn eight_at(s: &[u8], at: usize) -> u64
    requires { at + 8 ≤ length s.now }
    ensures { Digits 8 s.now at result }
{
    wider(four_at(s, at)) + wider(four_at(s, at + 4)) * 4294967296
}

// The code point whose bytes begin at an offset, and the offset after them.
pub fn decode_one(s: &[u8], at: usize) -> Option<(u32, usize)>
    ensures { Decodes s.now at result }
{
    if s.len() <= at {
        return None;
    }
    let left = s.len() - at;
    let a = s[at];
    if a <= 0x7F {
        return Some((wide(a), at + 1));
    }
    if left < 2 {
        return None;
    }
    let b = s[at + 1];
    if is_utf8_2(a, b) {
        return Some((code_of_2(a, b), at + 2));
    }
    if left < 3 {
        return None;
    }
    let c = s[at + 2];
    if is_utf8_3(a, b, c) {
        return Some((code_of_3(a, b, c), at + 3));
    }
    if left < 4 {
        return None;
    }
    let d = s[at + 3];
    if is_utf8_4(a, b, c, d) {
        return Some((code_of_4(a, b, c, d), at + 4));
    }
    None
}

// Whether a code point is White_Space.
pub fn is_white_space(c: u32) -> bool
    ensures { result ≡ is_white_space c }
{
    match c {
        0x9..=0xD
        | 0x20
        | 0x85
        | 0xA0
        | 0x1680
        | 0x2000..=0x200A
        | 0x2028..=0x2029
        | 0x202F
        | 0x205F
        | 0x3000 => true,
        _ => false,
    }
}

// Whether eight bytes are ASCII: none of them has its highest bit set.
fn is_ascii_8(s: &[u8], at: usize) -> bool
    requires { at + 8 ≤ length s.now }
    ensures { result ≡ true → AsciiAt s.now at 8 }
{
    eight_at(s, at) & 0x8080808080808080 == 0
}

fn is_ascii_32(s: &[u8], at: usize) -> bool
    requires { at + 32 ≤ length s.now }
    ensures { result ≡ true → AsciiAt s.now at 32 }
{
    if is_ascii_8(s, at) {
        if is_ascii_8(s, at + 8) {
            if is_ascii_8(s, at + 16) {
                return is_ascii_8(s, at + 24);
            }
        }
    }
    false
}

// Whether a text of at most 16 bytes inside others is seen to be ASCII, and so UTF-8, by reading eight bytes once or twice: of a shorter text those
// after it too, which are seldom anything else. False says nothing.
pub fn is_short_ascii(s: &[u8], at: usize, len: usize) -> bool
    requires { at + len ≤ length s.now }
    ensures { result ≡ true → is_utf8 (take len (drop at s.now)) ≡ true }
{
    if s.len() - at < 8 {
        return false;
    }
    if len <= 8 {
        return is_ascii_8(s, at);
    }
    if len <= 16 {
        if is_ascii_8(s, at) {
            return is_ascii_8(s, at + len - 8);
        }
    }
    false
}

// The offset after the pieces of 32 ASCII bytes at the start.
fn behind_ascii_32(s: &[u8]) -> usize
    ensures { PassedTo s.now 0 result }
{
    let mut at = 0;
    while 32 <= s.len() - at {
        if is_ascii_32(s, at) {
            at += 32;
        } else {
            return at;
        }
    }
    at
}

// The offset after the eights of ASCII bytes that begin at an offset.
fn behind_ascii(s: &[u8], from: usize) -> usize
    requires { from ≤ length s.now }
    ensures { PassedTo s.now from result }
{
    let mut at = from;
    while 8 <= s.len() - at {
        if is_ascii_8(s, at) {
            at += 8;
        } else {
            return at;
        }
    }
    at
}

// The offset after the code point that begins at an offset and is not ASCII, or that offset where none begins.
fn behind_point(s: &[u8], at: usize) -> usize
    requires { (at < length s.now) × (0x7F < get_or s.now at 0) }
    ensures { BehindPoint s.now at result }
{
    let left = s.len() - at;
    if left < 2 {
        return at;
    }
    let a = s[at];
    let b = s[at + 1];
    if is_utf8_2(a, b) {
        return at + 2;
    }
    if left < 3 {
        return at;
    }
    let c = s[at + 2];
    if is_utf8_3(a, b, c) {
        return at + 3;
    }
    if left < 4 {
        return at;
    }
    if is_utf8_4(a, b, c, s[at + 3]) {
        return at + 4;
    }
    at
}

// Whether a text is UTF-8. Eights are looked for at the start and after each code point that is not ASCII, and not at every byte: most
// texts are short.
pub fn is_utf8(s: &[u8]) -> bool
    ensures { result ≡ is_utf8 s.now }
{
    let mut at = behind_ascii(s, behind_ascii_32(s));
    // A while: the next place depends on the code point that is passed.
    while at < s.len() {
        if s[at] <= 0x7F {
            at += 1;
            continue;
        }
        let next = behind_point(s, at);
        if next == at {
            return false;
        }
        at = behind_ascii(s, next);
    }
    true
}

// Whether a text is empty or all White_Space.
pub fn is_blank(s: &[u8]) -> bool
    ensures { result ≡ is_blank s.now }
{
    let mut at = 0;
    while at < s.len() {
        let Some((c, next)) = decode_one(s, at) else {
            return false;
        };
        if is_white_space(c) {
            at = next;
        } else {
            return false;
        }
    }
    true
}

// Where the White_Space at the start of a text ends.
fn start_of(s: &[u8]) -> usize
    ensures { StartsAt s.now result }
{
    let mut at = 0;
    while at < s.len() {
        let Some((c, behind)) = decode_one(s, at) else {
            return at;
        };
        if is_white_space(c) {
            at = behind;
        } else {
            return at;
        }
    }
    at
}

// Where the White_Space at the end of a text begins: after the last code point, or byte of no code point, that is not White_Space.
fn end_of(s: &[u8]) -> usize
    ensures { EndsAt s.now result }
{
    let mut at = 0;
    let mut end = 0;
    // A while: the next place depends on the code point that is passed.
    while at < s.len() {
        match decode_one(s, at) {
            Some((c, next)) => {
                at = next;
                if is_white_space(c) {
                    continue;
                }
            }
            None => {
                at += 1;
            }
        }
        end = at;
    }
    end
}

// The text without the White_Space at both its ends.
pub fn trim(s: &[u8]) -> &[u8]
    ensures { result.now ≡ trim s.now }
{
    let start = start_of(s);
    let rest = &s[start..];
    let end = end_of(rest);
    &rest[..end]
}
