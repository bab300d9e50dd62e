// One path of `$fields`, given without `$fields.`: whether the kernel can read it, or a projection as its key (docs/FORMAT.md, "Keys").
#![tactic(auto)]

ghost use Rattle.std.specs.Prelude.{◌&&◌, ◌≡◌, leb, length};
ghost use Rattle.text.specs.Utf8.{between, is_utf8};
ghost use Rattle.walk.specs.Answers.{reader_is, reference_detail};
ghost use Rattle.validation.specs.Result.{defect, first_refusal, number_in, numbers_of};
ghost use Rattle.validation.specs.KeyPath.{reader_of, max_key_bytes, key_early, key_defect, MeetsKey};
ghost use Rattle.single_check.specs.Outcomes.{numbers_by};
ghost use Rattle.key_path.specs.Keys.{FieldsRead, KeyTold, key_run_of};

use definition::limits::{MAX_KEY_BYTES, SCRATCH_WORDS};
use schema::read::{Schema, read_schema};
use scope::binder::{Scope, unbound};
use scope::name::stock_row;
use scope::references::validate_reference_path;
use single_check::finding::reference_detail;
use single_check::outcome::{Outcome, accepted, refused};
use single_check::settings::{SEMANTICS, is_within};
use walk::answer::{Readable, Reader, ReferenceFault};

fn are_settings(semantics: u32, reader: u32) -> bool
    ensures { result ≡ (between 1 4 semantics && between 1 2 reader) }
{
    is_within(SEMANTICS, semantics) && is_within(2, reader)
}

fn is_key(path: &[u8]) -> bool
    ensures { result ≡ (leb (length path.now) max_key_bytes && is_utf8 path.now) }
{
    path.len() <= MAX_KEY_BYTES && text::is_utf8(path)
}

// The refusal that is due before the schema is read, or 0. `scratch` is how many elements the lent buffer has.
fn refused_key(semantics: u32, reader: u32, path: &[u8], scratch: usize) -> u32
    ensures { result ≡ number_in (first_refusal (key_early semantics reader path.now scratch)) }
{
    if !are_settings(semantics, reader) {
        return 1;
    }
    if !is_key(path) {
        return 2;
    }
    if SCRATCH_WORDS <= scratch { 0 } else { 3 }
}

fn reader_of(reader: u32) -> Reader
    ensures { reader_is result ≡ reader_of reader }
{
    if reader == 1 {
        return Reader::Kernel;
    }
    Reader::Projection
}

fn unreadable(fault: ReferenceFault) -> Outcome
    ensures { numbers_by result ≡ numbers_of (defect (key_defect (reference_detail fault))) }
{
    Outcome {
        number: 18,
        family: 0,
        detail: reference_detail(fault),
        place: 0,
        over_place: 0,
        passed: 0,
        path_length: 0,
    }
}

// One path of `$fields`, for the reader that the scope says.
fn read_fields(schema: &[u8], words: &[u32], scope: Scope, path: &[u8]) -> Readable
    ensures { FieldsRead schema.now words.now scope path.now result }
{
    let index = scope.schema;
    let fields = index.fields;
    let reader = scope.reader;
    validate_reference_path(schema, words, 1, fields, path, scope.service, reader)
}

// The answer about a path, where the schema is well formed. Its scope has no binders, and the row of an invariant, which may read `$fields`.
fn check_key(
    semantics: u32,
    reader: u32,
    path: &[u8],
    schema: &[u8],
    s: Schema,
    words: &[u32],
) -> Outcome
    ensures { KeyTold semantics reader path.now schema.now s words.now result }
{
    let scope = unbound(stock_row(1), semantics != 1, reader_of(reader), s);
    match read_fields(schema, words, scope, path) {
        Ok(()) => accepted(1),
        Err((fault, _)) => unreadable(fault),
    }
}

// Checks one path: settings, path and width first, then the schema, then the walk.
pub fn validate_path(
    semantics: u32,
    reader: u32,
    path: &[u8],
    schema: &[u8],
    scratch: &mut [u32],
) -> Outcome
    ensures { MeetsKey (key_run_of semantics reader path.now schema.now scratch.old result scratch.new) }
{
    let number = refused_key(semantics, reader, path, scratch.len());
    if number != 0 {
        return refused(number);
    }
    let Some(s) = read_schema(schema, scratch) else {
        return refused(4);
    };
    check_key(semantics, reader, path, schema, s, scratch)
}
