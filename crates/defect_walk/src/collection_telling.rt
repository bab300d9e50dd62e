// What is to be said of an `in` value: the walks of `scope::collections` once more, now with the places in the text from which a message is made.
ghost use Rattle.std.specs.Prelude.{◌+◌, ◌≤◌, length};
ghost use Rattle.buffer.specs.Laid.{most_place};
ghost use Rattle.defect_walk.specs.CollectionTellings.{ElementTells, FieldTells, RootCollects, NameCollects, TextCollects};

use schema::index::{Holder, indexed_field};
use schema::lookup::lookup;
use scope::binder::{Scope, find_binder};
use scope::collections::begins_with_dollar;
use scope::name::name_of;
use scope::root::{Root, root_of};
use sheet::schema_heads::{ARRAY, MAP};
use walk::answer::CollectionFault;
use walk::collection::field_step;
use walk::path::first_end;

// Places are those in the text after its first character.
#[derive(Clone, Copy)]
pub enum CollectionTelling {
    Nothing,
    NoName,
    // These two never occur: the references of an `in` value are checked before it.
    NotAvailable,
    NotDeclared,
    // The slot of a field that has no elements.
    NoElements(usize),
    // Why a segment is refused, where it begins, and the slot of the field that refuses it.
    Refused(CollectionFault, usize, usize),
}

// `element_of`.
fn element_telling(schema: &[u8], words: &[u32], slot: usize) -> CollectionTelling
    ensures { ElementTells schema.now words.now slot result }
{
    let kind = indexed_field(schema, words, slot).kind;
    if kind == ARRAY {
        return CollectionTelling::Nothing;
    }
    if kind == MAP {
        return CollectionTelling::Nothing;
    }
    CollectionTelling::NoElements(slot)
}

// `field_at`, then `element_of`; `path` is the text from the place `at` on.
fn field_telling(
    schema: &[u8],
    words: &[u32],
    slot: usize,
    path: &[u8],
    at: usize,
) -> CollectionTelling
    requires { at + length path.now ≤ most_place }
    ensures { FieldTells schema.now words.now slot path.now at result }
{
    let field = indexed_field(schema, words, slot);
    let end = first_end(path);
    match field_step(schema, words, field, &path[..end]) {
        Err(fault) => CollectionTelling::Refused(fault, at, slot),
        Ok(None) => CollectionTelling::Nothing,
        Ok(Some(next)) => {
            if end == path.len() {
                return element_telling(schema, words, next);
            }
            field_telling(schema, words, next, &path[end + 1..], at + end + 1)
        }
    }
}

// A path after the record or the arguments.
fn root_collecting(
    schema: &[u8],
    words: &[u32],
    holder: Holder,
    path: &[u8],
    at: usize,
) -> CollectionTelling
    requires { at + length path.now ≤ most_place }
    ensures { RootCollects schema.now words.now holder path.now at result }
{
    let end = first_end(path);
    let Some(slot) = lookup(schema, words, holder, &path[..end]) else {
        if holder.opened {
            return CollectionTelling::Nothing;
        }
        return CollectionTelling::NotDeclared;
    };
    if end == path.len() {
        return element_telling(schema, words, slot);
    }
    field_telling(schema, words, slot, &path[end + 1..], at + end + 1)
}

// A reference whose name, of `end` bytes, is not a binder's.
fn name_collecting(
    schema: &[u8],
    words: &[u32],
    scope: Scope,
    text: &[u8],
    end: usize,
) -> CollectionTelling
    ensures { NameCollects schema.now words.now scope text.now end result }
{
    if text.len() <= end {
        return CollectionTelling::NoName;
    }
    let Some(name) = name_of(&text[..end]) else {
        return CollectionTelling::NoName;
    };
    let index = scope.schema;
    match root_of(index, name) {
        Root::Nothing => CollectionTelling::NoName,
        Root::Missing => CollectionTelling::NotAvailable,
        Root::At(_, holder) => root_collecting(schema, words, holder, &text[end + 1..], end + 1),
    }
}

// `collection_element`, of a text; `behind` is what follows its first character.
pub fn text_collecting(
    schema: &[u8],
    rule: &[u8],
    words: &[u32],
    scope: Scope,
    text: &[u8],
    behind: &[u8],
) -> CollectionTelling
    ensures { TextCollects schema.now rule.now words.now scope text.now behind.now result }
{
    let end = first_end(behind);
    let Some(element) = find_binder(rule, scope, &behind[..end]) else {
        if begins_with_dollar(text) {
            return name_collecting(schema, words, scope, behind, end);
        }
        return CollectionTelling::NoName;
    };
    let Some(slot) = element else {
        return CollectionTelling::Nothing;
    };
    if end == behind.len() {
        return CollectionTelling::Nothing;
    }
    field_telling(schema, words, slot, &behind[end + 1..], end + 1)
}
