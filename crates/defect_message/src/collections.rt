// What is said of an `in` value that names no collection.
ghost use Rattle.std.specs.Prelude.{◌++◌};
ghost use Rattle.text.specs.Ascii.{ascii};
ghost use Rattle.buffer.specs.Laid.{Laid};
ghost use Rattle.sheet.specs.FieldKinds.{kind_name};
ghost use Rattle.message.specs.Words.{in_quotes};
ghost use Rattle.message.specs.Tell.{memberless};
ghost use Rattle.defect_message.specs.Collections.{FieldLaid, CollectLaid, TextLaid, CollectionLaid};

use crate::words::{lay_kind, lay_quoted};
use buffer::lay::lay;
use defect_walk::collection_telling::{CollectionTelling, text_collecting};
use schema::index::indexed_field;
use scope::binder::Scope;
use scope::collections::behind_first;
use text::part::bytes_of;
use value_checks::operand::{Form, form_of};
use walk::answer::CollectionFault;
use walk::path::first_end;

// A text in quotes, with words before it.
fn lay_naming(out: &mut [u8], o: usize, words: &[u8], text: &[u8]) -> usize
    ensures { Laid out.old out.new o (words.now ++ in_quotes text.now) result }
{
    let next = lay(out, o, words);
    lay_quoted(out, next, text)
}

// A text in quotes, with words after it.
fn lay_named(out: &mut [u8], o: usize, text: &[u8], words: &[u8]) -> usize
    ensures { Laid out.old out.new o (in_quotes text.now ++ words.now) result }
{
    let next = lay_quoted(out, o, text);
    lay(out, next, words)
}

// A field's kind between words.
fn lay_between(out: &mut [u8], o: usize, before: &[u8], kind: usize, after: &[u8]) -> usize
    ensures { Laid out.old out.new o (before.now ++ (kind_name kind ++ after.now)) result }
{
    let a = lay(out, o, before);
    let b = lay_kind(out, a, kind);
    lay(out, b, after)
}

fn lay_memberless(out: &mut [u8], o: usize, kind: usize, segment: &[u8]) -> usize
    ensures { Laid out.old out.new o (memberless (kind_name kind) segment.now) result }
{
    let next = lay_between(out, o, b"a ", kind, b" field has no member ");
    lay_quoted(out, next, segment)
}

// Why the field of `slot` refuses the segment at `at`.
fn lay_field(
    out: &mut [u8],
    o: usize,
    schema: &[u8],
    words: &[u32],
    behind: &[u8],
    fault: CollectionFault,
    at: usize,
    slot: usize,
) -> usize
    ensures { FieldLaid schema.now words.now behind.now fault at slot out.old out.new o result }
{
    if behind.len() < at {
        return o;
    }
    let kind = indexed_field(schema, words, slot).kind;
    let path = &behind[at..];
    let end = first_end(path);
    match fault {
        CollectionFault::NotAString => lay_memberless(out, o, kind, &path[..end]),
        CollectionFault::UnknownProperty => {
            lay_naming(out, o, b"nothing declares a property ", &path[..end])
        }
        CollectionFault::NoMember => lay_memberless(out, o, kind, &path[..end]),
        CollectionFault::NotACollection => lay_memberless(out, o, kind, &path[..end]),
        CollectionFault::NoName => lay_memberless(out, o, kind, &path[..end]),
    }
}

fn lay_collecting(
    out: &mut [u8],
    o: usize,
    schema: &[u8],
    words: &[u32],
    text: &[u8],
    behind: &[u8],
    telling: CollectionTelling,
) -> usize
    ensures { CollectLaid schema.now words.now text.now behind.now telling out.old out.new o result }
{
    match telling {
        CollectionTelling::Nothing => o,
        CollectionTelling::NoName => lay_named(
            out,
            o,
            text,
            b" is not a reference to a collection",
        ),
        CollectionTelling::NotAvailable => lay_named(out, o, text, b" is not available here"),
        CollectionTelling::NotDeclared => lay_named(
            out,
            o,
            text,
            b" names nothing the schema declares",
        ),
        CollectionTelling::NoElements(slot) => lay_between(
            out,
            o,
            b"it is a ",
            indexed_field(schema, words, slot).kind,
            b" field, and a quantifier walks an array or a map",
        ),
        CollectionTelling::Refused(fault, at, slot) => {
            lay_field(out, o, schema, words, behind, fault, at, slot)
        }
    }
}

fn lay_collection_text(
    out: &mut [u8],
    o: usize,
    schema: &[u8],
    rule: &[u8],
    words: &[u32],
    scope: Scope,
    text: &[u8],
) -> usize
    ensures { TextLaid schema.now rule.now words.now scope text.now out.old out.new o result }
{
    let behind = behind_first(text);
    let telling = text_collecting(schema, rule, words, scope, text, behind);
    lay_collecting(out, o, schema, words, text, behind, telling)
}

// The value of word `i`, as the value of `in`.
pub fn lay_collection(
    out: &mut [u8],
    o: usize,
    schema: &[u8],
    rule: &[u8],
    words: &[u32],
    scope: Scope,
    i: usize,
) -> usize
    ensures { CollectionLaid schema.now rule.now words.now scope i out.old out.new o result }
{
    match form_of(rule, words, i) {
        Form::Text(part) => {
            lay_collection_text(out, o, schema, rule, words, scope, bytes_of(rule, part))
        }
        Form::Holder => lay(out, o, b"`in` is a reference to an array or map field"),
        Form::Other => lay(out, o, b"`in` is a reference to an array or map field"),
    }
}
