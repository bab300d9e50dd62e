// What entries are made of: single bytes, fields after a comma, and texts.
ghost use Rattle.std.specs.Prelude.{◌≤◌, length};
ghost use Rattle.text.specs.ReadAt.{NumeralIs};
ghost use Rattle.sheet.specs.Entries.{item};
ghost use Rattle.sheet.specs.Pieces.{first};
ghost use Rattle.sheet.specs.Places.{MarkIs, IsDashed, TextIs, LastTextIs, LengthIs, OptionalIs};

use text::part::Part;
use text::{numeral, starts_with};

// No text is longer than this.
pub const MAX_TEXT: u32 = 512;

// No entry announces more others than this.
pub const MAX_COUNT: u32 = 2048;

// The next field: a comma, and a numeral. Its number, and the place after it.
pub fn item(s: &[u8], at: usize, low: u32, high: u32) -> Option<(usize, usize)>
    ensures { NumeralIs (item low high) low high s.now at result }
{
    if starts_with(s, at, b',') {
        return numeral::numeral(s, at + 1, low, high);
    }
    None
}

// An entry's letter and its first field: the number, and the place after it.
pub fn first(s: &[u8], at: usize, letter: u8, low: u32, high: u32) -> Option<(usize, usize)>
    ensures { NumeralIs (first letter low high) low high s.now at result }
{
    if starts_with(s, at, letter) {
        return item(s, at + 1, low, high);
    }
    None
}

// The next field, where it is 0 or 1: whether it is 1, and the place after it.
pub fn mark(s: &[u8], at: usize) -> Option<(bool, usize)>
    ensures { MarkIs s.now at result }
{
    let (n, next) = item(s, at, 0, 1)?;
    Some((n == 1, next))
}

// A field that is `-`.
pub fn is_dashed(s: &[u8], at: usize) -> bool
    ensures { IsDashed s.now at result }
{
    if starts_with(s, at, b',') {
        return starts_with(s, at + 1, b'-');
    }
    false
}

pub fn is_text(s: &[u8], at: usize, len: usize) -> bool
    requires { at ≤ length s.now }
    ensures { TextIs len s.now at result }
{
    // Most entries of a rule end in an empty text.
    if len == 0 {
        return true;
    }
    if len <= s.len() - at {
        if text::is_short_ascii(s, at, len) {
            return true;
        }
        let end = at + len;
        return text::is_utf8(&s[at..end]);
    }
    false
}

// An entry's last field and its end: a comma, `len` bytes of text, and the end of the line.
pub fn is_last_text(s: &[u8], at: usize, len: usize) -> bool
    ensures { LastTextIs len s.now at result }
{
    if starts_with(s, at, b',') {
        if is_text(s, at + 1, len) {
            return starts_with(s, at + 1 + len, b'\n');
        }
    }
    false
}

// The next field, where it is the length of a text that may be absent: that length, and the place after it.
pub fn text_length(s: &[u8], at: usize) -> Option<(Option<usize>, usize)>
    ensures { LengthIs s.now at result }
{
    if is_dashed(s, at) {
        return Some((None, at + 2));
    }
    let (n, next) = item(s, at, 0, MAX_TEXT)?;
    Some((Some(n), next))
}

// A text that may be absent, by its length, and the place after it.
pub fn optional_text(s: &[u8], at: usize, len: Option<usize>) -> Option<(Option<Part>, usize)>
    requires { at ≤ length s.now }
    ensures { OptionalIs len s.now at result }
{
    let Some(n) = len else {
        return Some((None, at));
    };
    if is_text(s, at, n) {
        return Some((Some(Part { start: at, len: n }), at + n));
    }
    None
}
