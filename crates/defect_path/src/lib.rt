// The path of a defect, from the label to its entry: a descent over the index of the rule sheet.
#![tactic(auto)]

mod defect; // defect.rt: numbers of defects
mod bracket; // bracket.rt: indexes in brackets
mod operator; // operator.rt: the operators' names
mod word; // word.rt: siblings
mod value; // value.rt: down through values
mod condition; // condition.rt: down through conditions

ghost use Rattle.std.specs.Prelude.{◌<◌};
ghost use Rattle.defect_path.specs.Descent.{AssertWritten, RuleWritten};
ghost use Rattle.defect_path.specs.Path.{place_bound, PathWritten};

use crate::condition::put_condition;
use crate::defect::MESSAGE;
use crate::value::put_value;
use buffer::put;
use rule::index::start_of;
use sheet::rule_heads::{RuleHead, rule_head};
use text::numeral::to_size;

// Writes the way from a rule's root: none for the defects that have the label's own path.
fn put_assert(
    rule: &[u8],
    words: &[u32],
    number: u32,
    target: usize,
    at: usize,
    path: &mut [u8],
) -> usize
    requires { target < place_bound }
    ensures { AssertWritten rule.now words.now number target path.old path.new at result }
{
    if number <= MESSAGE {
        return at;
    }
    let next = put(path, at, b".assert");
    put_condition(rule, words, number, target, 1, next, path)
}

// Writes the way from the root of a rule or template to the entry `place`.
fn put_rule(
    rule: &[u8],
    words: &[u32],
    number: u32,
    place: u32,
    at: usize,
    path: &mut [u8],
) -> usize
    ensures { RuleWritten rule.now words.now number place path.old path.new at result }
{
    let Some((head, _)) = rule_head(rule, start_of(words, 0)) else {
        return at;
    };
    if place == 0 {
        return at;
    }
    let target = to_size(place - 1);
    match head {
        RuleHead::Rule(_, _) => put_assert(rule, words, number, target, at, path),
        RuleHead::Template => put_value(rule, words, target, 1, at, path),
    }
}

// Writes the path of defect `number` at entry `place`; its length is returned. `words` is the index of the sheet `rule`.
pub fn write_path(
    label: &[u8],
    rule: &[u8],
    words: &[u32],
    number: u32,
    place: u32,
    path: &mut [u8],
) -> usize
    ensures { PathWritten label.now rule.now words.now number place path.old path.new result }
{
    let at = put(path, 0, label);
    put_rule(rule, words, number, place, at, path)
}
