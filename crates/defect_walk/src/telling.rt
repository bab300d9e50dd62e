// What is to be said of a reference: the walks of `scope::references` once more, now with the places in the text from which a message is made.
ghost use Rattle.std.specs.Prelude.{◌+◌, ◌≤◌, ◌<◌, length};
ghost use Rattle.buffer.specs.Laid.{most_place};
ghost use Rattle.defect_walk.specs.Tellings.{WalkTells, RootTells, NamedTells, NameTells, ReferenceTells};

use schema::index::{Holder, indexed_field};
use schema::lookup::lookup;
use scope::binder::{Scope, find_binder};
use scope::name::{Name, may_read, name_of};
use scope::root::{Root, root_of};
use walk::answer::{Reader, ReferenceFault, WalkStep};
use walk::path::first_end;
use walk::step::walk_step;

#[derive(Clone, Copy)]
pub enum Telling {
    Nothing,
    NotAvailable,
    NoReference,
    EmptyPath,
    // The root, and where the segment begins that it does not have.
    UnknownRoot(Name, usize),
    // Why a segment is refused, where the walk and that segment begin, and the slot of the field that refuses it.
    Refused(ReferenceFault, usize, usize, usize),
}

// `walk_field_path`, of a walk that began at the place `from` of the text; `path` is what is left of it, from `at` on.
fn walk_telling(
    schema: &[u8],
    words: &[u32],
    slot: usize,
    path: &[u8],
    from: usize,
    at: usize,
    service: bool,
) -> Telling
    requires { at + length path.now ≤ most_place }
    ensures { WalkTells schema.now words.now slot path.now from at service result }
{
    let field = indexed_field(schema, words, slot);
    let end = first_end(path);
    match walk_step(schema, words, field, &path[..end], service, Reader::Kernel) {
        WalkStep::Refuse(fault) => Telling::Refused(fault, from, at, slot),
        WalkStep::Leaf(fault) => {
            if end == path.len() {
                return Telling::Nothing;
            }
            Telling::Refused(fault, from, at, slot)
        }
        WalkStep::Free => Telling::Nothing,
        WalkStep::Into(next) => {
            if end == path.len() {
                return Telling::Nothing;
            }
            walk_telling(
                schema,
                words,
                next,
                &path[end + 1..],
                from,
                at + end + 1,
                service,
            )
        }
    }
}

// `validate_reference_path`, of a path that is the text from `at` on.
fn root_telling(
    schema: &[u8],
    words: &[u32],
    name: Name,
    holder: Holder,
    path: &[u8],
    at: usize,
    service: bool,
) -> Telling
    requires { at + length path.now ≤ most_place }
    ensures { RootTells schema.now words.now name holder path.now at service result }
{
    let end = first_end(path);
    if end == 0 {
        return Telling::EmptyPath;
    }
    let Some(slot) = lookup(schema, words, holder, &path[..end]) else {
        if holder.opened {
            return Telling::Nothing;
        }
        return Telling::UnknownRoot(name, at);
    };
    if end == path.len() {
        return Telling::Nothing;
    }
    walk_telling(
        schema,
        words,
        slot,
        &path[end + 1..],
        at,
        at + end + 1,
        service,
    )
}

// A name with a path.
fn named_telling(
    schema: &[u8],
    words: &[u32],
    scope: Scope,
    name: Name,
    path: &[u8],
    at: usize,
) -> Telling
    requires { at + length path.now ≤ most_place }
    ensures { NamedTells schema.now words.now scope name path.now at result }
{
    let index = scope.schema;
    match root_of(index, name) {
        Root::Nothing => Telling::NoReference,
        Root::Missing => Telling::NotAvailable,
        Root::At(_, holder) => {
            let row = scope.row;
            if may_read(row, name) {
                return root_telling(schema, words, name, holder, path, at, scope.service);
            }
            Telling::NotAvailable
        }
    }
}

// A reference whose name, of `end` bytes, is not a binder's; `text` is what follows its `$`.
fn name_telling(schema: &[u8], words: &[u32], scope: Scope, text: &[u8], end: usize) -> Telling
    requires { 1 + length text.now ≤ most_place }
    ensures { NameTells schema.now words.now scope text.now end result }
{
    if text.len() < end {
        return Telling::Nothing;
    }
    let Some(name) = name_of(&text[..end]) else {
        return Telling::NoReference;
    };
    if end < text.len() {
        return named_telling(schema, words, scope, name, &text[end + 1..], end + 2);
    }
    let row = scope.row;
    if may_read(row, name) {
        return Telling::Nothing;
    }
    Telling::NoReference
}

// `validate_reference`, of the text after the `$`.
pub fn reference_telling(
    schema: &[u8],
    rule: &[u8],
    words: &[u32],
    scope: Scope,
    text: &[u8],
) -> Telling
    requires { 1 + length text.now ≤ most_place }
    ensures { ReferenceTells schema.now rule.now words.now scope text.now result }
{
    let end = first_end(text);
    let Some(element) = find_binder(rule, scope, &text[..end]) else {
        return name_telling(schema, words, scope, text, end);
    };
    let Some(slot) = element else {
        return Telling::Nothing;
    };
    if end == text.len() {
        return Telling::Nothing;
    }
    walk_telling(
        schema,
        words,
        slot,
        &text[end + 1..],
        0,
        end + 2,
        scope.service,
    )
}
