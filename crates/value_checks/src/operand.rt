// Operands: what a value is asked besides its references.
ghost use Rattle.std.specs.Prelude.{◌*◌, ◌-◌, ◌<◌, ◌≤◌};
ghost use Rattle.definition.specs.Limits.{word_entries};
ghost use Rattle.definition.specs.Tree.{Value};
ghost use Rattle.rule.specs.Index.{ValueAt};
ghost use Rattle.validation.specs.Check.{instant_text, instant_form};
ghost use Rattle.validation.specs.Constant.{literal_text, literal_instant};
ghost use Rattle.value_checks.specs.Verdicts.{going, HasRoom};
ghost use Rattle.value_checks.specs.Frames.{frame, FormIs, ReadAs, ValueJudged, instant_check, affix_check, asked_before, asked_after, OperandJudged, OperandsJudged};

use crate::references::{is_reference, validate_references};
use crate::verdict::{Fault, InstantFault, Progress, Side, fail, going, pass, require};
use rule::index::start_of;
use rule::kind::{STRING, text_at, type_at};
use rule::node::behind;
use scope::binder::Scope;
use scope::collections::begins_with_dollar;
use sheet::operators::{COMPARE, is_affix, is_instant_test};
use text::part::{Part, bytes_of};
use timestamp::Fields;

#[derive(Clone, Copy)]
pub enum Form {
    Text(Part),
    // An array or an object.
    Holder,
    Other,
}

// The value of word `i`, by its type.
pub fn form_of(rule: &[u8], words: &[u32], i: usize) -> Form
    ensures { (v : Value) → ValueAt rule.now words.now i v → FormIs rule.now result v }
{
    let at = start_of(words, i);
    let digit = type_at(rule, at);
    if digit < STRING {
        return Form::Other;
    }
    if STRING < digit {
        return Form::Holder;
    }
    Form::Text(text_at(rule, at))
}

// A reference may be an instant, which is not known here; text that begins with `$$` is none.
fn instant_text(text: &[u8]) -> Result<Option<Fields>, InstantFault>
    ensures { ReadAs (instant_text text.now) (literal_text text.now) result }
{
    if is_reference(text) {
        return Ok(None);
    }
    if begins_with_dollar(text) {
        return Err(InstantFault::Escaped);
    }
    let Some(fields) = timestamp::parse(text) else {
        return Err(InstantFault::Unreadable);
    };
    Ok(Some(fields))
}

// The value of word `i`, as an operand of `before` or `after`: the instant of a literal, or none of a reference.
pub fn instant_form(rule: &[u8], words: &[u32], i: usize) -> Result<Option<Fields>, InstantFault>
    ensures { (v : Value) → ValueAt rule.now words.now i v → ReadAs (instant_form v) (literal_instant v) result }
{
    match form_of(rule, words, i) {
        Form::Text(part) => instant_text(bytes_of(rule, part)),
        Form::Holder => Err(InstantFault::Unreadable),
        Form::Other => Err(InstantFault::Unreadable),
    }
}

// The value of word `i` as an operand of `before` or `after`.
fn validate_instant(
    passed: usize,
    rule: &[u8],
    words: &[u32],
    over: Option<usize>,
    i: usize,
) -> Progress
    requires { HasRoom (going passed) 1 × (i < word_entries) }
    ensures { ValueJudged rule.now words.now over instant_check i (going passed) result }
{
    match instant_form(rule, words, i) {
        Ok(_) => pass(passed),
        Err(fault) => fail(passed, Fault::Instant(fault), i + 1, over),
    }
}

// The value of word `i` as an operand of `starts_with` or `ends_with`.
fn validate_affix(
    passed: usize,
    rule: &[u8],
    words: &[u32],
    over: Option<usize>,
    i: usize,
) -> Progress
    requires { HasRoom (going passed) 1 × (i < word_entries) }
    ensures { ValueJudged rule.now words.now over affix_check i (going passed) result }
{
    if type_at(rule, start_of(words, i)) == STRING {
        return pass(passed);
    }
    fail(passed, Fault::Affix, i + 1, over)
}

// The checks of an operand before its references: a side of a comparison is neither an array nor an object.
fn validate_side(
    passed: usize,
    rule: &[u8],
    words: &[u32],
    over: Option<usize>,
    op: usize,
    which: Side,
    i: usize,
) -> Progress
    requires { HasRoom (going passed) 1 × (i < word_entries) }
    ensures { ValueJudged rule.now words.now over (asked_before op which) i (going passed) result }
{
    if op == COMPARE {
        let holds = STRING < type_at(rule, start_of(words, i));
        return require(passed, holds, Fault::Operand(which), i + 1, over);
    }
    going(passed)
}

// What an operand is asked after its references, by the operator.
fn validate_form(
    passed: usize,
    rule: &[u8],
    words: &[u32],
    over: Option<usize>,
    op: usize,
    i: usize,
) -> Progress
    requires { HasRoom (going passed) 1 × (i < word_entries) }
    ensures { ValueJudged rule.now words.now over (asked_after op) i (going passed) result }
{
    if is_instant_test(op) {
        return validate_instant(passed, rule, words, over, i);
    }
    if is_affix(op) {
        return validate_affix(passed, rule, words, over, i);
    }
    going(passed)
}

// The operand from word `start` up to word `end`. Its one caller is a loop, so that the compiler builds all of this into one function, which copies
// the scope once for each condition.
fn validate_operand(
    passed: usize,
    schema: &[u8],
    rule: &[u8],
    words: &[u32],
    scope: Scope,
    over: Option<usize>,
    op: usize,
    which: Side,
    start: usize,
    end: usize,
) -> Progress
    requires { HasRoom (going passed) (3 * (end - start)) × (start < end) × (end ≤ word_entries) }
    ensures { OperandJudged (frame schema.now rule.now words.now scope over) op which start end (going passed) result }
{
    let a = validate_side(passed, rule, words, over, op, which, start);
    let before = a.verdict;
    let Ok(()) = before else {
        return a;
    };
    let r = validate_references(a.passed, schema, rule, words, scope, over, start, end);
    let verdict = r.verdict;
    let Ok(()) = verdict else {
        return r;
    };
    validate_form(r.passed, rule, words, over, op, start)
}

// The operands of a condition from word `start` up to word `end`, by its operator.
pub fn validate_operands(
    passed: usize,
    schema: &[u8],
    rule: &[u8],
    words: &[u32],
    scope: Scope,
    over: Option<usize>,
    op: usize,
    start: usize,
    end: usize,
) -> Progress
    requires { HasRoom (going passed) (3 * (end - start)) × (end ≤ word_entries) }
    ensures { OperandsJudged (frame schema.now rule.now words.now scope over) op start end (going passed) result }
{
    let mut so_far = passed;
    let mut i = start;
    let mut which = Side::Left;
    while i < end {
        let next = behind(words, i, end);
        let r = validate_operand(so_far, schema, rule, words, scope, over, op, which, i, next);
        let verdict = r.verdict;
        let Ok(()) = verdict else {
            return r;
        };
        so_far = r.passed;
        i = next;
        which = Side::Right;
    }
    going(so_far)
}
