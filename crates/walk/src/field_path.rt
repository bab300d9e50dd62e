// A path from a field on.
ghost use Rattle.walk.specs.Answers.{reader_is};
ghost use Rattle.walk.specs.Steps.{LastStep, Walks};

use crate::answer::{Readable, Reader, WalkStep};
use crate::path::first_end;
use crate::step::walk_step;
use schema::index::indexed_field;

// The last segment, of the field with that entry.
fn last_step(entry: usize, step: WalkStep) -> Readable
    ensures { LastStep entry step result }
{
    match step {
        WalkStep::Refuse(fault) => Err((fault, entry)),
        WalkStep::Leaf(_) => Ok(()),
        WalkStep::Free => Ok(()),
        WalkStep::Into(_) => Ok(()),
    }
}

// Whether a path leads somewhere from the field of `slot`. Each step hands on the part of the path after its dot. Only parts of `path` are handed
// on: were it handed on itself, it would be copied whole before it is read.
pub fn walk_field_path(
    schema: &[u8],
    words: &[u32],
    slot: usize,
    path: &[u8],
    service: bool,
    reader: Reader,
) -> Readable
    ensures { Walks schema.now words.now slot path.now (reader_is reader) service result }
{
    let field = indexed_field(schema, words, slot);
    let entry = field.entry;
    let end = first_end(path);
    let step = walk_step(schema, words, field, &path[..end], service, reader);
    if end == path.len() {
        return last_step(entry, step);
    }
    match step {
        WalkStep::Refuse(fault) => Err((fault, entry)),
        WalkStep::Leaf(fault) => Err((fault, entry)),
        WalkStep::Free => Ok(()),
        WalkStep::Into(next) => {
            walk_field_path(schema, words, next, &path[end + 1..], service, reader)
        }
    }
}
