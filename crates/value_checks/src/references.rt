// The references of a value: its strings that begin with `$`, but not with `$$`.
ghost use Rattle.std.specs.Prelude.{◌-◌, ◌<◌, ◌≤◌};
ghost use Rattle.definition.specs.Limits.{word_entries};
ghost use Rattle.value_checks.specs.Verdicts.{going, HasRoom};
ghost use Rattle.value_checks.specs.Frames.{frame, IsReference, ReferencesIn};

use crate::verdict::{Fault, Progress, fail, going, pass};
use rule::index::start_of;
use rule::kind::{STRING, has_type, text_at};
use scope::binder::Scope;
use scope::collections::begins_with_dollar;
use scope::references::validate_reference;
use text::part::bytes_of;

pub fn is_reference(text: &[u8]) -> bool
    ensures { IsReference text.now result }
{
    if begins_with_dollar(text) {
        return !begins_with_dollar(&text[1..]);
    }
    false
}

// The entry of word `i`, if it is a reference.
fn validate_value_reference(
    passed: usize,
    schema: &[u8],
    rule: &[u8],
    words: &[u32],
    scope: Scope,
    over: Option<usize>,
    i: usize,
) -> Progress
    requires { HasRoom (going passed) 1 × (i < word_entries) }
    ensures { ReferencesIn (frame schema.now rule.now words.now scope over) i 1 (going passed) result }
{
    let at = start_of(words, i);
    if has_type(rule, at, STRING) {
        let text = bytes_of(rule, text_at(rule, at));
        if is_reference(text) {
            let found = validate_reference(schema, rule, words, scope, &text[1..]);
            let Err((fault, at)) = found else {
                return pass(passed);
            };
            return fail(passed, Fault::Reference(fault, at), i + 1, over);
        }
        return going(passed);
    }
    going(passed)
}

// The references from word `start` up to word `end`, in the order of the sheet.
pub fn validate_references(
    passed: usize,
    schema: &[u8],
    rule: &[u8],
    words: &[u32],
    scope: Scope,
    over: Option<usize>,
    start: usize,
    end: usize,
) -> Progress
    requires { HasRoom (going passed) (end - start) × (end ≤ word_entries) }
    ensures { ReferencesIn (frame schema.now rule.now words.now scope over) start (end - start) (going passed) result }
{
    let mut so_far = passed;
    for i in start..end {
        let r = validate_value_reference(so_far, schema, rule, words, scope, over, i);
        let verdict = r.verdict;
        let Ok(()) = verdict else {
            return r;
        };
        so_far = r.passed;
    }
    going(so_far)
}
