// A value of a rule's index as compact JSON, laid into a lent buffer.
#![tactic(auto)]

pub mod operator; // operator.rt: operators by number

ghost use Rattle.std.specs.Prelude.{◌≤◌};
ghost use Rattle.buffer.specs.Laid.{Laid};
ghost use Rattle.json_text.specs.Quoted.{escapes_of};
ghost use Rattle.json_laying.specs.Lays.{comma_before, LaysConstant, LaysKey, LaysHeld, LaysWithin, LaysValue};

use buffer::lay::{lay, lay_byte};
use json_text::quote::{Escapes, lay_quoted};
use rule::index::{end_of, start_of};
use rule::node::behind;
use sheet::rule_heads::{ValueHead, key_head, value_head};
use text::part::bytes_of;

// A constant by its type: 1 null, 2 false, 3 true.
fn lay_constant(out: &mut [u8], at: usize, kind: usize) -> usize
    ensures { LaysConstant kind out.old out.new at result }
{
    if kind == 1 {
        return lay(out, at, b"null");
    }
    if kind == 3 {
        return lay(out, at, b"true");
    }
    lay(out, at, b"false")
}

// In front of a value at which word `i` begins: its key with a colon, where it has one. `keys` is 1 for members, 0 for elements.
fn lay_key(
    rule: &[u8],
    words: &[u32],
    keys: usize,
    i: usize,
    out: &mut [u8],
    at: usize,
    how: Escapes,
) -> usize
    ensures { LaysKey (escapes_of how) rule.now words.now keys i out.old out.new at result }
{
    if keys == 0 {
        return at;
    }
    let Some((key, _)) = key_head(rule, start_of(words, i)) else {
        return at;
    };
    let colon = lay_quoted(out, at, bytes_of(rule, key), how);
    lay_byte(out, colon, b':')
}

// Behind a value after which word `i` comes: a comma, where others follow up to word `end`.
pub fn lay_comma(out: &mut [u8], at: usize, i: usize, end: usize) -> usize
    ensures { Laid out.old out.new at (comma_before i end) result }
{
    if i < end {
        return lay_byte(out, at, b',');
    }
    at
}

// The elements or members from word `i` up to word `end`, and the closing bracket.
#[cycle(lay_held_lay_within)]
fn lay_held(
    rule: &[u8],
    words: &[u32],
    keys: usize,
    i: usize,
    end: usize,
    out: &mut [u8],
    at: usize,
    how: Escapes,
) -> usize
    requires { keys ≤ 1 }
    ensures { LaysHeld (escapes_of how) rule.now words.now keys i end out.old out.new at result }
{
    let mut j = i;
    let mut o = at;
    while j < end {
        let next = behind(words, j, end);
        let inner = lay_key(rule, words, keys, j, out, o, how);
        let outer = lay_within(rule, words, j + keys, next, out, inner, how);
        o = lay_comma(out, outer, next, end);
        j = next;
    }
    if keys == 0 {
        return lay_byte(out, o, b']');
    }
    lay_byte(out, o, b'}')
}

// The value from word `i` up to word `end`.
#[cycle(lay_held_lay_within)]
fn lay_within(
    rule: &[u8],
    words: &[u32],
    i: usize,
    end: usize,
    out: &mut [u8],
    at: usize,
    how: Escapes,
) -> usize
    ensures { LaysWithin (escapes_of how) rule.now words.now i end out.old out.new at result }
{
    if end <= i {
        return at;
    }
    let Some((head, _)) = value_head(rule, start_of(words, i)) else {
        return at;
    };
    match head {
        ValueHead::Constant(kind) => lay_constant(out, at, kind),
        ValueHead::Number(digits) => lay(out, at, bytes_of(rule, digits)),
        ValueHead::Text(text) => lay_quoted(out, at, bytes_of(rule, text), how),
        ValueHead::Array(_) => {
            let inside = lay_byte(out, at, b'[');
            lay_held(rule, words, 0, i + 1, end, out, inside, how)
        }
        ValueHead::Object(_) => {
            let inside = lay_byte(out, at, b'{');
            lay_held(rule, words, 1, i + 1, end, out, inside, how)
        }
    }
}

// The value at word `i`.
pub fn lay_value(
    rule: &[u8],
    words: &[u32],
    i: usize,
    out: &mut [u8],
    at: usize,
    how: Escapes,
) -> usize
    ensures { LaysValue (escapes_of how) rule.now words.now i out.old out.new at result }
{
    lay_within(rule, words, i, end_of(words, i), out, at, how)
}
