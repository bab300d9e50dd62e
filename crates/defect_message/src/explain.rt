// The whole message of a defect, from its number, detail and place.
ghost use Rattle.defect_message.specs.Explained.{ScopePlaced, SaidLaid, MessageLaid};

use crate::collections::lay_collection;
use crate::references::lay_reference;
use crate::settled::{lay_settled, word_of};
use defect_walk::standing::scope_below;
use rule::index::{end_of, start_of};
use scope::binder::Scope;
use sheet::rule_heads::{RuleHead, rule_head};
use text::part::bytes_of;
use value_checks::operand::{Form, form_of};

// The scope of an entry, from that of the whole sheet. A template has no binders.
fn scope_at(schema: &[u8], rule: &[u8], words: &[u32], scope: Scope, place: u32) -> Scope
    ensures { ScopePlaced schema.now rule.now words.now scope place result }
{
    let Some((head, _)) = rule_head(rule, start_of(words, 0)) else {
        return scope;
    };
    let RuleHead::Rule(_, _) = head else {
        return scope;
    };
    let end = end_of(words, 0);
    let target = word_of(place);
    if end <= 1 {
        return scope;
    }
    if end <= target {
        return scope;
    }
    scope_below(schema, rule, words, scope, 1, end, target)
}

// The string of word `i` is a reference, with its `$`.
fn lay_said(
    out: &mut [u8],
    o: usize,
    schema: &[u8],
    rule: &[u8],
    words: &[u32],
    scope: Scope,
    kind: u32,
    i: usize,
) -> usize
    ensures { SaidLaid schema.now rule.now words.now scope kind i out.old out.new o result }
{
    match form_of(rule, words, i) {
        Form::Text(part) => {
            lay_reference(
                out,
                o,
                schema,
                rule,
                words,
                scope,
                kind,
                bytes_of(rule, part),
            )
        }
        Form::Holder => o,
        Form::Other => o,
    }
}

pub fn lay_message(
    out: &mut [u8],
    o: usize,
    schema: &[u8],
    rule: &[u8],
    words: &[u32],
    scope: Scope,
    kind: u32,
    number: u32,
    detail: u32,
    place: u32,
) -> usize
    ensures { MessageLaid schema.now rule.now words.now scope kind number detail place out.old out.new o result }
{
    if number == 18 {
        let inner = scope_at(schema, rule, words, scope, place);
        return lay_said(out, o, schema, rule, words, inner, kind, word_of(place));
    }
    if number == 22 {
        let inner = scope_at(schema, rule, words, scope, place);
        return lay_collection(out, o, schema, rule, words, inner, place as usize);
    }
    lay_settled(out, o, rule, words, number, detail, place)
}
