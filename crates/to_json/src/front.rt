// A condition as JSON, up to the conditions that it holds.
ghost use Rattle.std.specs.Prelude.{◌<◌, ◌++◌};
ghost use Rattle.text.specs.Ascii.{ascii};
ghost use Rattle.buffer.specs.Laid.{Laid, most_place};
ghost use Rattle.json_text.specs.Json.{truth};
ghost use Rattle.json_text.specs.Escaped.{plain, written};
ghost use Rattle.json_rule.specs.AsJson.{comparison_name};
ghost use Rattle.to_json.specs.Parts.{opened};
ghost use Rattle.to_json.specs.Lays.{LaysOne, LaysTwo, LaysCompared, LaysScope, LaysFront};

use buffer::lay::{lay, lay_byte};
use json_laying::lay_value;
use json_laying::operator::lay_operator;
use json_text::quote::{Escapes, lay_quoted};
use rule::index::{end_of, start_of};
use sheet::operators::{COMPARE, NOT};
use sheet::rule_heads::{ConditionHead, condition_head};
use text::part::bytes_of;

fn lay_truth(out: &mut [u8], at: usize, holds: bool) -> usize
    ensures { Laid out.old out.new at (written plain (truth holds)) result }
{
    if holds {
        return lay(out, at, b"true");
    }
    lay(out, at, b"false")
}

// An object with that operator, up to its operand.
fn lay_opened(out: &mut [u8], at: usize, op: usize) -> usize
    ensures { Laid out.old out.new at (opened op) result }
{
    let a = lay(out, at, b"{\"");
    let b = lay_operator(out, a, op);
    lay(out, b, b"\":")
}

// `all` and `any` hold an array of conditions.
fn lay_many(out: &mut [u8], at: usize, op: usize) -> usize
    ensures { Laid out.old out.new at (opened op ++ ascii "[") result }
{
    let a = lay_opened(out, at, op);
    lay_byte(out, a, b'[')
}

fn lay_one(rule: &[u8], words: &[u32], op: usize, i: usize, out: &mut [u8], at: usize) -> usize
    requires { i < most_place }
    ensures { LaysOne rule.now words.now i out.old out.new at result op }
{
    let a = lay_opened(out, at, op);
    let b = lay_value(rule, words, i + 1, out, a, Escapes::Plain);
    lay_byte(out, b, b'}')
}

fn lay_two(rule: &[u8], words: &[u32], op: usize, i: usize, out: &mut [u8], at: usize) -> usize
    requires { i < most_place }
    ensures { LaysTwo rule.now words.now i out.old out.new at result op }
{
    let a = lay_many(out, at, op);
    let b = lay_value(rule, words, i + 1, out, a, Escapes::Plain);
    let c = lay_byte(out, b, b',');
    let d = lay_value(rule, words, end_of(words, i + 1), out, c, Escapes::Plain);
    lay(out, d, b"]}")
}

// What `compare` compares by; there are six.
fn lay_comparison(out: &mut [u8], at: usize, which: usize) -> usize
    ensures { Laid out.old out.new at (comparison_name which) result }
{
    if which <= 1 {
        return lay(out, at, b"eq");
    }
    if which <= 2 {
        return lay(out, at, b"ne");
    }
    if which <= 3 {
        return lay(out, at, b"lt");
    }
    if which <= 4 {
        return lay(out, at, b"lte");
    }
    if which <= 5 {
        return lay(out, at, b"gt");
    }
    if which <= 6 {
        return lay(out, at, b"gte");
    }
    at
}

fn lay_compared(
    rule: &[u8],
    words: &[u32],
    which: usize,
    i: usize,
    out: &mut [u8],
    at: usize,
) -> usize
    requires { i < most_place }
    ensures { LaysCompared rule.now words.now i out.old out.new at result which }
{
    let a = lay_opened(out, at, COMPARE);
    let b = lay(out, a, b"{\"left\":");
    let c = lay_value(rule, words, i + 1, out, b, Escapes::Plain);
    let d = lay(out, c, b",\"op\":\"");
    let e = lay_comparison(out, d, which);
    let f = lay(out, e, b"\",\"right\":");
    let g = lay_value(rule, words, end_of(words, i + 1), out, f, Escapes::Plain);
    lay(out, g, b"}}")
}

// A quantifier, up to its body.
fn lay_scope(
    rule: &[u8],
    words: &[u32],
    op: usize,
    name: &[u8],
    i: usize,
    out: &mut [u8],
    at: usize,
) -> usize
    requires { i < most_place }
    ensures { LaysScope rule.now words.now i out.old out.new at result op name.now }
{
    let a = lay_opened(out, at, op);
    let b = lay(out, a, b"{\"in\":");
    let c = lay_value(rule, words, i + 1, out, b, Escapes::Plain);
    let d = lay(out, c, b",\"as\":");
    let e = lay_quoted(out, d, name, Escapes::Plain);
    lay(out, e, b",\"that\":")
}

// The condition of word `i`.
pub fn lay_front(rule: &[u8], words: &[u32], i: usize, out: &mut [u8], at: usize) -> usize
    requires { i < most_place }
    ensures { LaysFront rule.now words.now i out.old out.new at result }
{
    let Some((head, _)) = condition_head(rule, start_of(words, i)) else {
        return at;
    };
    match head {
        ConditionHead::Literal(holds) => lay_truth(out, at, holds),
        ConditionHead::Many(op, _) => lay_many(out, at, op),
        ConditionHead::Negation => lay_opened(out, at, NOT),
        ConditionHead::One(op) => lay_one(rule, words, op, i, out, at),
        ConditionHead::Two(op) => lay_two(rule, words, op, i, out, at),
        ConditionHead::Comparison(which) => lay_compared(rule, words, which, i, out, at),
        ConditionHead::Quantifier(op, name) => {
            lay_scope(rule, words, op, bytes_of(rule, name), i, out, at)
        }
    }
}
