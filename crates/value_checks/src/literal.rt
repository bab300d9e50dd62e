// The literal pass: whether the numbers that a condition compares are finite.
ghost use Rattle.std.specs.Prelude.{◌-◌, ◌<◌, ◌≤◌};
ghost use Rattle.definition.specs.Limits.{word_entries};
ghost use Rattle.value_checks.specs.Verdicts.{going, HasRoom};
ghost use Rattle.value_checks.specs.Literals.{LiteralsJudged, ObservedJudged, ConditionLiterals};

use crate::verdict::{Fault, Progress, going, require};
use rule::index::start_of;
use rule::kind::{NUMBER, has_type, operator_at, text_at};
use rule::node::{behind, children_from};
use sheet::operators::is_observed;
use text::part::bytes_of;

// The entry of word `i`, if it is a number.
fn validate_literal(passed: usize, rule: &[u8], words: &[u32], i: usize) -> Progress
    requires { HasRoom (going passed) 1 × (i < word_entries) }
    ensures { LiteralsJudged rule.now words.now i 1 (going passed) result }
{
    let at = start_of(words, i);
    if has_type(rule, at, NUMBER) {
        let finite = number::is_finite(bytes_of(rule, text_at(rule, at)));
        return require(passed, !finite, Fault::Literal, i + 1, None);
    }
    going(passed)
}

// The numbers from word `start` up to word `end`.
fn validate_literals(
    passed: usize,
    rule: &[u8],
    words: &[u32],
    start: usize,
    end: usize,
) -> Progress
    requires { HasRoom (going passed) (end - start) × (end ≤ word_entries) }
    ensures { LiteralsJudged rule.now words.now start (end - start) (going passed) result }
{
    let mut so_far = passed;
    for i in start..end {
        let r = validate_literal(so_far, rule, words, i);
        let verdict = r.verdict;
        let Ok(()) = verdict else {
            return r;
        };
        so_far = r.passed;
    }
    going(so_far)
}

// The numbers from word `start` up to word `end`, where they are the values of a condition that the pass looks into.
fn validate_observed(
    passed: usize,
    rule: &[u8],
    words: &[u32],
    op: usize,
    start: usize,
    end: usize,
) -> Progress
    requires { HasRoom (going passed) (end - start) × (end ≤ word_entries) }
    ensures { ObservedJudged rule.now words.now op start end (going passed) result }
{
    if is_observed(op) {
        return validate_literals(passed, rule, words, start, end);
    }
    going(passed)
}

// The numbers of the conditions from word `start` up to word `end`, and of all that these hold, in the order of the sheet. The value that a
// quantifier walks is passed over.
pub fn unobservable_condition_literals(
    passed: usize,
    rule: &[u8],
    words: &[u32],
    start: usize,
    end: usize,
) -> Progress
    requires { HasRoom (going passed) (end - start) × (end ≤ word_entries) }
    ensures { ConditionLiterals rule.now words.now start end (going passed) result }
{
    let mut so_far = passed;
    let mut i = start;
    while i < end {
        let op = operator_at(rule, start_of(words, i));
        let next = children_from(words, op, i, behind(words, i, end));
        let r = validate_observed(so_far, rule, words, op, i + 1, next);
        let verdict = r.verdict;
        let Ok(()) = verdict else {
            return r;
        };
        so_far = r.passed;
        i = next;
    }
    going(so_far)
}
