// What an entry is, and where its text is, read off its first bytes: the rest has been read when the index was made.
ghost use Rattle.std.specs.Prelude.{◌≡◌, ◌+◌, get_or};
ghost use Rattle.rule.specs.Kinds.{OperatorAt, TypeAt, HasType, TextAt};

use sheet::entry::{MAX_TEXT, item};
use text::part::Part;

// The type's digits that the checks tell apart (docs/FORMAT.md, "The rule sheet").
pub const NUMBER: u8 = b'0' + sheet::rule_heads::NUMBER as u8;

pub const STRING: u8 = b'0' + sheet::rule_heads::STRING as u8;

// The byte `n` places after place `at`, 0 where there is none.
fn byte_after(s: &[u8], at: usize, n: usize) -> u8
    ensures { result ≡ get_or s.now (at + n) 0 }
{
    if s.len() <= n {
        return 0;
    }
    if s.len() - n <= at {
        return 0;
    }
    s[at + n]
}

// The operator of the condition whose entry begins at `at`: a number of one or two digits, and a comma after it. Of another entry's bytes any number.
pub fn operator_at(rule: &[u8], at: usize) -> usize
    ensures { OperatorAt rule.now at result }
{
    let first = byte_after(rule, at, 2) as usize % 16;
    let second = byte_after(rule, at, 3);
    if second == b',' {
        return first;
    }
    10 * first + second as usize % 16
}

// The digit of the type of the value whose entry begins at `at`. Of another entry's bytes any byte.
pub fn type_at(rule: &[u8], at: usize) -> u8
    ensures { TypeAt rule.now at result }
{
    byte_after(rule, at, 2)
}

// Whether the entry that begins at `at`, of a value or of a key, is that of a value with that type's digit.
pub fn has_type(rule: &[u8], at: usize, digit: u8) -> bool
    ensures { HasType rule.now at digit result }
{
    if byte_after(rule, at, 0) == b'V' {
        return byte_after(rule, at, 2) == digit;
    }
    false
}

// Where the text of the string or the number is whose entry begins at `at`. Of another entry's bytes any place.
pub fn text_at(rule: &[u8], at: usize) -> Part
    ensures { TextAt rule.now at result }
{
    if rule.len() <= at {
        return Part { start: 0, len: 0 };
    }
    let Some((len, end)) = item(rule, at + 3, 0, MAX_TEXT) else {
        return Part { start: 0, len: 0 };
    };
    Part {
        start: end + 1,
        len,
    }
}
