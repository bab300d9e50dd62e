// The collections that quantifiers walk.
ghost use Rattle.std.specs.Prelude.{◌≡◌};
ghost use Rattle.reference.specs.Reference.{behind_first, begins_with_dollar};
ghost use Rattle.scope.specs.Collections.{RootCollects, NameCollects, CollectionIs};

use crate::binder::{Scope, find_binder};
use crate::name::name_of;
use crate::root::{Root, root_of};
use schema::index::Holder;
use schema::lookup::lookup;
use walk::answer::{Collected, CollectionFault};
use walk::collection::{element_of, field_at};
use walk::path::first_end;

// The text after the first character, if that is one byte.
pub fn behind_first(text: &[u8]) -> &[u8]
    ensures { result.now ≡ behind_first text.now }
{
    if text.len() == 0 {
        return text;
    }
    if text[0] < 128 {
        return &text[1..];
    }
    &text[text.len()..]
}

pub fn begins_with_dollar(text: &[u8]) -> bool
    ensures { result ≡ begins_with_dollar text.now }
{
    if text.len() == 0 {
        return false;
    }
    text[0] == b'$'
}

// A path after the record or the arguments. A reference that lacks its member is refused before anyone asks for its element.
fn collection_root(
    schema: &[u8],
    words: &[u32],
    at: usize,
    holder: Holder,
    path: &[u8],
) -> Collected
    ensures { RootCollects schema.now words.now at holder path.now result }
{
    let end = first_end(path);
    let Some(slot) = lookup(schema, words, holder, &path[..end]) else {
        if holder.opened {
            return Ok(None);
        }
        return Err((CollectionFault::NoName, at));
    };
    if end == path.len() {
        return element_of(schema, words, Ok(Some(slot)));
    }
    element_of(
        schema,
        words,
        field_at(schema, words, slot, &path[end + 1..]),
    )
}

// A reference whose name, of `end` bytes, is not a binder's.
fn collection_name(schema: &[u8], words: &[u32], scope: Scope, text: &[u8], end: usize) -> Collected
    ensures { NameCollects schema.now words.now scope text.now end result }
{
    if text.len() <= end {
        return Err((CollectionFault::NoName, 0));
    }
    let Some(name) = name_of(&text[..end]) else {
        return Err((CollectionFault::NoName, 0));
    };
    let index = scope.schema;
    match root_of(index, name) {
        Root::Nothing => Err((CollectionFault::NoName, 0)),
        Root::Missing => Err((CollectionFault::NoName, 0)),
        Root::At(at, holder) => collection_root(schema, words, at, holder, &text[end + 1..]),
    }
}

// The element of the collection that the text of an `in` value names.
pub fn collection_element(
    schema: &[u8],
    rule: &[u8],
    words: &[u32],
    scope: Scope,
    text: &[u8],
) -> Collected
    ensures { CollectionIs schema.now rule.now words.now scope text.now result }
{
    let behind = behind_first(text);
    let end = first_end(behind);
    let Some(element) = find_binder(rule, scope, &behind[..end]) else {
        if begins_with_dollar(text) {
            return collection_name(schema, words, scope, behind, end);
        }
        return Err((CollectionFault::NoName, 0));
    };
    let Some(slot) = element else {
        return Ok(None);
    };
    if end == behind.len() {
        return Ok(None);
    }
    element_of(
        schema,
        words,
        field_at(schema, words, slot, &behind[end + 1..]),
    )
}
