// What is said of a check that no schema answers.
ghost use Rattle.std.specs.Prelude.{cond, ◌++◌, ◌≡◌, eqb, drop, ◌-◌};
ghost use Rattle.text.specs.Ascii.{ascii};
ghost use Rattle.message.specs.Words.{in_quotes};
ghost use Rattle.buffer.specs.Laid.{Laid};
ghost use Rattle.message.specs.Message.{instant_forms, empty_sentence, names_value};
ghost use Rattle.defect_message.specs.Settled.{ValueLaid, UnescapedLaid, InstantLaid, ValuedLaid, BindLaid, HeadedLaid, DepthLaid, SettledLaid};

use crate::operator::lay_operator;
use crate::words::lay_quoted;
use buffer::lay::{lay, lay_byte, lay_decimal};
use condition_checks::body::bind_of;
use condition_checks::depth::condition_depth;
use definition::limits::{MAX_CONDITION_NESTING, WORD_ENTRIES};
use json_value::lay_value;
use rule::index::{end_of, start_of};
use rule::kind::operator_at;
use text::part::bytes_of;
use value_checks::operand::{Form, form_of};

// The value of word `i`, and words after it.
fn lay_value_and(
    out: &mut [u8],
    o: usize,
    rule: &[u8],
    words: &[u32],
    i: usize,
    behind: &[u8],
) -> usize
    ensures { ValueLaid rule.now words.now i behind.now out.old out.new o result }
{
    let next = lay_value(rule, words, i, out, o);
    lay(out, next, behind)
}

fn lay_instant_forms(out: &mut [u8], o: usize) -> usize
    ensures { Laid out.old out.new o instant_forms result }
{
    let next = lay(
        out,
        o,
        b", so the comparison would be unobservable at every evaluation; an operand of 'before'/'after' is either a '$' reference or a literal instant written ",
    );
    lay(
        out,
        next,
        b"`YYYY-MM-DD` or `YYYY-MM-DDTHH:MM:SS[.fff][Z]`, where a space may stand in for the `T` and an explicit offset is not read",
    )
}

// A text without its first byte, in quotes.
fn lay_behind_first(out: &mut [u8], o: usize, text: &[u8]) -> usize
    ensures { Laid out.old out.new o (in_quotes (drop 1 text.now)) result }
{
    if text.len() == 0 {
        return lay_quoted(out, o, text);
    }
    lay_quoted(out, o, &text[1..])
}

// What the string of word `i` stands for, in quotes.
fn lay_unescaped(out: &mut [u8], o: usize, rule: &[u8], words: &[u32], i: usize) -> usize
    ensures { UnescapedLaid rule.now words.now i out.old out.new o result }
{
    match form_of(rule, words, i) {
        Form::Text(part) => lay_behind_first(out, o, bytes_of(rule, part)),
        Form::Holder => lay_quoted(out, o, b""),
        Form::Other => lay_quoted(out, o, b""),
    }
}

fn lay_instant(out: &mut [u8], o: usize, rule: &[u8], words: &[u32], detail: u32, i: usize) -> usize
    ensures { InstantLaid rule.now words.now detail i out.old out.new o result }
{
    if detail == 1 {
        let a = lay_value_and(out, o, rule, words, i, b" escapes to the literal ");
        let b = lay_unescaped(out, a, rule, words, i);
        let c = lay(out, b, b", which is not an instant this kernel reads");
        return lay_instant_forms(out, c);
    }
    let a = lay_value_and(
        out,
        o,
        rule,
        words,
        i,
        b" is not an instant this kernel reads",
    );
    lay_instant_forms(out, a)
}

// 14, 19 and 20: the value of word `i`, and why it is refused.
fn lay_valued(
    out: &mut [u8],
    o: usize,
    rule: &[u8],
    words: &[u32],
    number: u32,
    detail: u32,
    i: usize,
) -> usize
    ensures { ValuedLaid rule.now words.now number detail i out.old out.new o result }
{
    if number == 14 {
        return lay_value_and(
            out,
            o,
            rule,
            words,
            i,
            b" is outside the source observation domain, so the comparison would be unevaluable at every evaluation",
        );
    }
    if number == 19 {
        return lay_value_and(
            out,
            o,
            rule,
            words,
            i,
            b" is not a string, so the rule would be false at every evaluation; quote it if it is meant as text",
        );
    }
    lay_instant(out, o, rule, words, detail, i)
}

fn lay_bind(out: &mut [u8], o: usize, rule: &[u8], words: &[u32], i: usize) -> usize
    ensures { BindLaid rule.now words.now i out.old out.new o result }
{
    let Some(name) = bind_of(rule, words, i) else {
        return o;
    };
    lay(out, o, bytes_of(rule, name))
}

fn lay_empty(out: &mut [u8], o: usize, op: usize) -> usize
    ensures { Laid out.old out.new o (empty_sentence op) result }
{
    let a = lay_byte(out, o, b'\'');
    let b = lay_operator(out, a, op);
    lay(out, b, b"' must contain at least one condition")
}

// 15, 16 and 21: the operator or the bind of the condition at word `i`.
fn lay_headed(out: &mut [u8], o: usize, rule: &[u8], words: &[u32], number: u32, i: usize) -> usize
    ensures { HeadedLaid rule.now words.now number i out.old out.new o result }
{
    let op = operator_at(rule, start_of(words, i));
    if number == 15 {
        return lay_operator(out, o, op);
    }
    if number == 16 {
        return lay_empty(out, o, op);
    }
    lay_bind(out, o, rule, words, i)
}

// How deep the rule's condition nests.
fn lay_depth(out: &mut [u8], o: usize, rule: &[u8], words: &[u32]) -> usize
    ensures { DepthLaid rule.now words.now out.old out.new o result }
{
    let end = end_of(words, 0);
    if end <= 1 {
        return o;
    }
    if WORD_ENTRIES < end {
        return o;
    }
    lay_decimal(
        out,
        o,
        condition_depth(rule, words, 1, end, MAX_CONDITION_NESTING + 1),
    )
}

// 17: which side of a comparison.
fn lay_side(out: &mut [u8], o: usize, detail: u32) -> usize
    ensures { Laid out.old out.new o (cond (eqb detail 1) (ascii "left") (ascii "right")) result }
{
    if detail == 1 {
        return lay(out, o, b"left");
    }
    lay(out, o, b"right")
}

fn names_value(number: u32) -> bool
    ensures { result ≡ names_value number }
{
    if number == 14 {
        return true;
    }
    if number == 19 {
        return true;
    }
    number == 20
}

// The word of an entry.
pub fn word_of(place: u32) -> usize
    ensures { result ≡ place - 1 }
{
    if place == 0 {
        return 0;
    }
    place as usize - 1
}

pub fn lay_settled(
    out: &mut [u8],
    o: usize,
    rule: &[u8],
    words: &[u32],
    number: u32,
    detail: u32,
    place: u32,
) -> usize
    ensures { SettledLaid rule.now words.now number detail place out.old out.new o result }
{
    if number == 11 {
        return lay(out, o, b"rule name cannot be empty");
    }
    if number == 12 {
        return lay(out, o, b"rule message cannot be empty");
    }
    if number == 13 {
        return lay_depth(out, o, rule, words);
    }
    if number == 17 {
        return lay_side(out, o, detail);
    }
    if names_value(number) {
        return lay_valued(out, o, rule, words, number, detail, word_of(place));
    }
    lay_headed(out, o, rule, words, number, word_of(place))
}
