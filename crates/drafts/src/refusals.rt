// What is refused before a sheet is read.
ghost use Rattle.std.specs.Prelude.{◌&&◌, ◌≡◌, ◌*◌, leb, length};
ghost use Rattle.definition.specs.Limits.{max_sheet_bytes};
ghost use Rattle.call.specs.Call.{refused_by};
ghost use Rattle.validation.specs.Result.{path_bytes, scratch_words};
ghost use Rattle.drafts.specs.Lent.{rules_lent};
ghost use Rattle.drafts.specs.DraftCalls.{draft_numbers};
ghost use Rattle.drafts.specs.Reading.{sooner, settings_of, table_number, EarlyOf};

use crate::lent::{HEAD_BYTES, lent_at};
use definition::limits::{MAX_SHEET_BYTES, PATH_BYTES, SCRATCH_WORDS};
use single_check::settings::{refused_settings, settle};

pub const MAX_RULES: usize = 16;

pub const RECORD_BYTES: usize = 28;

// How many numbers a result has.
pub const DRAFT_NUMBERS: usize = 2;

pub fn refused(number: u32) -> [u32; DRAFT_NUMBERS]
    ensures { result ≡ draft_numbers (refused_by number) }
{
    [number, 0]
}

// Of two refusals, 0 being none, the one that comes first.
fn sooner_of(a: u32, b: u32) -> u32
    ensures { result ≡ sooner a b }
{
    if a == 0 {
        return b;
    }
    if b == 0 {
        return a;
    }
    if a < b { a } else { b }
}

// 1 where any rule has it, else 2 where any has it, else 0.
fn refused_rules(heads: &[u8], texts: &[u8]) -> u32
    ensures { result ≡ settings_of (rules_lent heads.now texts.now) }
{
    let count = heads.len() / HEAD_BYTES;
    let mut found: u32 = 0;
    let mut at: usize = 0;
    for i in 0..count {
        let l = lent_at(heads, texts, i, at);
        let middle = l.middle;
        let label = &texts[at..middle];
        let number = refused_settings(l.kind, l.semantics, label, PATH_BYTES, SCRATCH_WORDS);
        found = sooner_of(found, number);
        at = l.end;
    }
    found
}

fn has_room(count: usize, buffer: usize, records: usize, path: usize, scratch: usize) -> bool
    ensures { result ≡ ((leb path_bytes path && leb scratch_words scratch) && (leb (28 * count) records && leb max_sheet_bytes buffer)) }
{
    if path < PATH_BYTES {
        return false;
    }
    if scratch < SCRATCH_WORDS {
        return false;
    }
    if records / RECORD_BYTES < count {
        return false;
    }
    MAX_SHEET_BYTES <= buffer
}

fn refused_table(table: &[u8]) -> u32
    ensures { result ≡ table_number table.now }
{
    match settle(1, 1, table) {
        Err(number) => number,
        Ok(_) => 0,
    }
}

// The refusal that is due before a sheet is read, or 0. The last four are how many elements the lent buffers have.
pub fn refused_early(
    heads: &[u8],
    texts: &[u8],
    table: &[u8],
    buffer: usize,
    records: usize,
    path: usize,
    scratch: usize,
) -> u32
    ensures { EarlyOf heads.now texts.now table.now buffer records path scratch result }
{
    let number = refused_rules(heads, texts);
    if number != 0 {
        return number;
    }
    let count = heads.len() / HEAD_BYTES;
    if !has_room(count, buffer, records, path, scratch) {
        return 3;
    }
    if MAX_RULES < count {
        return 43;
    }
    refused_table(table)
}
