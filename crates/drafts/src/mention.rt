// Whether a rule or template mentions a field of the record, by its index: a reference, or a quantifier's `in`, that has the field's name after the first dot past its
// first byte.
ghost use Rattle.std.specs.Prelude.{◌≡◌, ◌-◌, ◌≤◌};
ghost use Rattle.definition.specs.Limits.{word_entries};
ghost use Rattle.field_changes.specs.Mention.{is_named};
ghost use Rattle.drafts.specs.Mentions.{StringAt, NamedIn, OverNamed, ConditionsNamed, RuleNamed};

use rule::index::start_of;
use rule::kind::{STRING, has_type, operator_at, text_at};
use rule::node::{behind, children_from};
use sheet::operators::TRUTHY;
use text::order::same_bytes;
use text::part::{Part, bytes_of};
use value_checks::references::is_reference;
use walk::path::first_end;

fn is_named(text: &[u8], name: &[u8]) -> bool
    ensures { result ≡ is_named name.now text.now }
{
    if text.len() == 0 {
        return false;
    }
    let rest = &text[1..];
    let end = first_end(rest);
    if rest.len() <= end {
        return false;
    }
    let path = &rest[end + 1..];
    let segment = first_end(path);
    same_bytes(name, &path[0..segment])
}

// The text of the entry of word `i`, if it is a string; else no bytes, which name nothing.
fn string_at<'a>(rule: &'a [u8], words: &[u32], i: usize) -> &'a [u8]
    ensures { StringAt rule.now words.now i result.now }
{
    let at = start_of(words, i);
    if has_type(rule, at, STRING) {
        return bytes_of(rule, text_at(rule, at));
    }
    bytes_of(rule, Part { start: 0, len: 0 })
}

// The entry of word `i`, if it is a reference.
fn is_named_at(rule: &[u8], words: &[u32], i: usize, name: &[u8]) -> bool
    ensures { NamedIn name.now rule.now words.now i 1 result }
{
    let text = string_at(rule, words, i);
    if is_reference(text) {
        return is_named(text, name);
    }
    false
}

// The references from word `start` up to word `end`.
fn is_any_named(rule: &[u8], words: &[u32], start: usize, end: usize, name: &[u8]) -> bool
    ensures { NamedIn name.now rule.now words.now start (end - start) result }
{
    for i in start..end {
        if is_named_at(rule, words, i, name) {
            return true;
        }
    }
    false
}

// The value of word `i`, if a quantifier's operator says that it goes over it.
fn is_over_named(rule: &[u8], words: &[u32], op: usize, i: usize, name: &[u8]) -> bool
    ensures { OverNamed name.now rule.now words.now op i result }
{
    let text = string_at(rule, words, i);
    if op <= TRUTHY {
        return false;
    }
    is_named(text, name)
}

// The conditions from word `start` up to word `end`, and all that these hold.
fn is_condition_named(rule: &[u8], words: &[u32], start: usize, end: usize, name: &[u8]) -> bool
    requires { end ≤ word_entries }
    ensures { ConditionsNamed name.now rule.now words.now start end result }
{
    let mut i = start;
    while i < end {
        let op = operator_at(rule, start_of(words, i));
        let next = children_from(words, op, i, behind(words, i, end));
        if is_over_named(rule, words, op, i + 1, name) {
            return true;
        }
        if is_any_named(rule, words, i + 1, next, name) {
            return true;
        }
        i = next;
    }
    false
}

// A rule or template of so many entries, whose index is in the words.
pub fn mentions(rule: &[u8], words: &[u32], is_template: bool, entries: usize, name: &[u8]) -> bool
    requires { entries ≤ word_entries }
    ensures { RuleNamed name.now rule.now words.now is_template entries result }
{
    if is_template {
        return is_any_named(rule, words, 1, entries, name);
    }
    is_condition_named(rule, words, 1, entries, name)
}
