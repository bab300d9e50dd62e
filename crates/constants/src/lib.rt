// The mark pass: which conditions of a rule are constant, and whether they hold (docs/FORMAT.md, "Constant marks").
#![tactic(auto)]

ghost use Rattle.std.specs.Prelude.{◌≡◌, ◌+◌, ◌<◌, ◌≤◌};
ghost use Rattle.definition.specs.Limits.{word_entries};
ghost use Rattle.validation.specs.Constant.{truth_of, mark_of};
ghost use Rattle.constants.specs.Marks.{truth_by, LiteralAt, PairIs, ConstantAt, MarkedOn, Plain, Unmarked, ConditionsMarked, RuleMarked};

use buffer::put_u32;
use rule::index::{end_of, start_of};
use rule::kind::operator_at;
use rule::node::{behind, children_from};
use sheet::operators::{AFTER, BEFORE, EXISTS, LITERAL, TRUTHY, is_instant_test};
use sheet::rule_heads::{RuleHead, rule_head};
use timestamp::{Fields, is_earlier};
use value_checks::operand::instant_form;

// The instant that the value of word `i` is by itself.
fn literal_at(rule: &[u8], words: &[u32], i: usize) -> Option<Fields>
    ensures { LiteralAt rule.now words.now i result }
{
    match instant_form(rule, words, i) {
        Ok(fields) => fields,
        Err(_) => None,
    }
}

// Whether a condition on two instants is constant, and then its truth.
fn truth_of(op: usize, left: Fields, right: Fields) -> Option<bool>
    ensures { truth_of op left right ≡ truth_by result }
{
    if op == BEFORE {
        return Some(is_earlier(left, right));
    }
    if op == AFTER {
        return Some(is_earlier(right, left));
    }
    None
}

// A condition with two operands, the first at word `start`. A literal instant is one entry.
fn constant_pair(rule: &[u8], words: &[u32], op: usize, start: usize) -> Option<bool>
    requires { start < word_entries }
    ensures { PairIs rule.now words.now op start result }
{
    let left = literal_at(rule, words, start)?;
    let right = literal_at(rule, words, start + 1)?;
    truth_of(op, left, right)
}

// The condition of word `i`, by its operator.
fn constant_at(rule: &[u8], words: &[u32], op: usize, i: usize) -> Option<bool>
    requires { i + 1 < word_entries }
    ensures { ConstantAt rule.now words.now op i result }
{
    if is_instant_test(op) {
        return constant_pair(rule, words, op, i + 1);
    }
    None
}

fn mark_of(entry: usize, truth: bool) -> u32
    requires { entry ≤ word_entries }
    ensures { result ≡ mark_of entry truth }
{
    let twice = 2 * entry as u32;
    if truth { twice + 1 } else { twice }
}

// Writes the mark of an entry after `count` others, if its condition is constant; how many there are then.
fn mark(count: usize, entry: usize, constant: Option<bool>, marks: &mut [u8]) -> usize
    requires { (count ≤ word_entries) × (entry ≤ word_entries) }
    ensures { MarkedOn count entry constant marks.old marks.new result }
{
    let Some(truth) = constant else {
        return count;
    };
    put_u32(marks, 4 * count, mark_of(entry, truth));
    count + 1
}

// Whether a condition with that operator holds no condition and is neither `before` nor `after`.
fn is_plain(op: usize) -> bool
    ensures { Plain op result }
{
    if op <= LITERAL {
        return true;
    }
    if op <= AFTER {
        return op == EXISTS;
    }
    op <= TRUTHY
}

// Passes over conditions from word `start` on that have no mark, without reading them.
fn behind_plain(rule: &[u8], words: &[u32], start: usize, end: usize) -> usize
    ensures { Unmarked rule.now words.now start end result }
{
    let mut i = start;
    while i < end {
        if is_plain(operator_at(rule, start_of(words, i))) {
            i = behind(words, i, end);
        } else {
            return i;
        }
    }
    i
}

// The conditions from word `start` up to word `end`, and all that these hold, in the order of the sheet.
fn mark_conditions(rule: &[u8], words: &[u32], start: usize, end: usize, marks: &mut [u8]) -> usize
    requires { end < word_entries }
    ensures { ConditionsMarked rule.now words.now start end marks.old marks.new result }
{
    let mut count = 0;
    let mut i = behind_plain(rule, words, start, end);
    while i < end {
        let op = operator_at(rule, start_of(words, i));
        count = mark(count, i + 1, constant_at(rule, words, op, i), marks);
        let next = children_from(words, op, i, behind(words, i, end));
        i = behind_plain(rule, words, next, end);
    }
    count
}

// Writes the marks of a rule, by its index, to the start of `marks`, four bytes for each, least significant first; how many there are. A template
// has none.
pub fn mark_constants(rule: &[u8], words: &[u32], marks: &mut [u8]) -> usize
    ensures { RuleMarked rule.now words.now marks.old marks.new result }
{
    let Some((head, _)) = rule_head(rule, start_of(words, 0)) else {
        return 0;
    };
    let RuleHead::Rule(_, _) = head else {
        return 0;
    };
    mark_conditions(rule, words, 1, end_of(words, 0), marks)
}
