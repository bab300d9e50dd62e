// References.
ghost use Rattle.walk.specs.Answers.{reader_is};
ghost use Rattle.scope.specs.References.{RootWalks, RootReads, NameReads, ReferenceReads};

use crate::binder::{Scope, find_binder};
use crate::name::{Name, may_read, name_of};
use crate::root::{Root, root_of};
use schema::index::Holder;
use schema::lookup::lookup;
use walk::answer::{Readable, Reader, ReferenceFault};
use walk::field_path::walk_field_path;
use walk::path::first_end;

// A path after the record or the arguments.
pub fn validate_reference_path(
    schema: &[u8],
    words: &[u32],
    at: usize,
    holder: Holder,
    path: &[u8],
    service: bool,
    reader: Reader,
) -> Readable
    ensures { RootWalks schema.now words.now at holder path.now (reader_is reader) service result }
{
    let end = first_end(path);
    if end == 0 {
        return Err((ReferenceFault::EmptyPath, at));
    }
    let Some(slot) = lookup(schema, words, holder, &path[..end]) else {
        if holder.opened {
            return Ok(());
        }
        return Err((ReferenceFault::UnknownRoot, at));
    };
    if end == path.len() {
        return Ok(());
    }
    walk_field_path(schema, words, slot, &path[end + 1..], service, reader)
}

// A name with a path.
fn validate_root(schema: &[u8], words: &[u32], scope: Scope, name: Name, path: &[u8]) -> Readable
    ensures { RootReads schema.now words.now scope name path.now result }
{
    let index = scope.schema;
    match root_of(index, name) {
        Root::Nothing => Err((ReferenceFault::NoSuchReference, 0)),
        Root::Missing => Err((ReferenceFault::RootNotAvailable, 0)),
        Root::At(at, holder) => {
            let row = scope.row;
            if may_read(row, name) {
                let reader = scope.reader;
                return validate_reference_path(
                    schema,
                    words,
                    at,
                    holder,
                    path,
                    scope.service,
                    reader,
                );
            }
            Err((ReferenceFault::RootNotAvailable, 0))
        }
    }
}

// A reference whose name, of `end` bytes, is not a binder's.
fn validate_name(schema: &[u8], words: &[u32], scope: Scope, text: &[u8], end: usize) -> Readable
    ensures { NameReads schema.now words.now scope text.now end result }
{
    if text.len() < end {
        return Ok(());
    }
    let Some(name) = name_of(&text[..end]) else {
        return Err((ReferenceFault::NoSuchReference, 0));
    };
    if end < text.len() {
        return validate_root(schema, words, scope, name, &text[end + 1..]);
    }
    let row = scope.row;
    if may_read(row, name) {
        return Ok(());
    }
    Err((ReferenceFault::NoSuchReference, 0))
}

// Whether the reference of that text, after its `$`, can be read. A binder wins over all other names, and its walk is always the kernel's.
pub fn validate_reference(
    schema: &[u8],
    rule: &[u8],
    words: &[u32],
    scope: Scope,
    text: &[u8],
) -> Readable
    ensures { ReferenceReads schema.now rule.now words.now scope text.now result }
{
    let end = first_end(text);
    let Some(element) = find_binder(rule, scope, &text[..end]) else {
        return validate_name(schema, words, scope, text, end);
    };
    let Some(slot) = element else {
        return Ok(());
    };
    if end == text.len() {
        return Ok(());
    }
    walk_field_path(
        schema,
        words,
        slot,
        &text[end + 1..],
        scope.service,
        Reader::Kernel,
    )
}
