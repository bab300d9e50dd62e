// The path of an `in` value, from a field on, and the element of what it leads to.
ghost use Rattle.walk.specs.Steps.{FieldSteps, LastField, FieldsAt, ElementOfField, ElementIs};

use crate::answer::{Collected, CollectionFault, FieldStep};
use crate::path::{first_end, is_ordinal};
use schema::index::{IndexedField, indexed_field};
use schema::lookup::lookup;
use sheet::schema_heads::{ARRAY, JSON, MAP, OBJECT, UNION};

pub fn field_step(schema: &[u8], words: &[u32], field: IndexedField, segment: &[u8]) -> FieldStep
    ensures { FieldSteps schema.now words.now field segment.now result }
{
    let kind = field.kind;
    if kind == JSON {
        return Ok(None);
    }
    if kind == UNION {
        return Ok(None);
    }
    if kind == OBJECT {
        let members = field.members;
        let Some(slot) = lookup(schema, words, members, segment) else {
            if members.opened {
                return Ok(None);
            }
            return Err(CollectionFault::UnknownProperty);
        };
        return Ok(Some(slot));
    }
    if kind == ARRAY {
        if is_ordinal(segment) {
            let element = field.element;
            let Some(slot) = element else {
                return Ok(None);
            };
            return Ok(Some(slot));
        }
    }
    Err(CollectionFault::NoMember)
}

// The last segment, of the field with that entry.
fn last_field(entry: usize, step: FieldStep) -> Collected
    ensures { LastField entry step result }
{
    match step {
        Err(fault) => Err((fault, entry)),
        Ok(None) => Ok(None),
        Ok(Some(slot)) => Ok(Some(slot)),
    }
}

// The field that a path leads to from the field of `slot`.
pub fn field_at(schema: &[u8], words: &[u32], slot: usize, path: &[u8]) -> Collected
    ensures { FieldsAt schema.now words.now slot path.now result }
{
    let field = indexed_field(schema, words, slot);
    let entry = field.entry;
    let end = first_end(path);
    let step = field_step(schema, words, field, &path[..end]);
    if end == path.len() {
        return last_field(entry, step);
    }
    match step {
        Err(fault) => Err((fault, entry)),
        Ok(None) => Ok(None),
        Ok(Some(next)) => field_at(schema, words, next, &path[end + 1..]),
    }
}

// Arrays and maps have elements.
fn element_of_field(schema: &[u8], words: &[u32], slot: usize) -> Collected
    ensures { ElementOfField schema.now words.now slot result }
{
    let field = indexed_field(schema, words, slot);
    let kind = field.kind;
    if kind == ARRAY {
        return Ok(field.element);
    }
    if kind == MAP {
        return Ok(field.element);
    }
    Err((CollectionFault::NotACollection, field.entry))
}

// The element of what was reached.
pub fn element_of(schema: &[u8], words: &[u32], collected: Collected) -> Collected
    ensures { ElementIs schema.now words.now collected result }
{
    match collected {
        Ok(Some(slot)) => element_of_field(schema, words, slot),
        Ok(None) => Ok(None),
        Err((fault, at)) => Err((fault, at)),
    }
}
