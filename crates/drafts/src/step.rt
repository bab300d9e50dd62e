// A field goes: the schema sheet is written anew, and the rules that mention the field are checked.
ghost use Rattle.drafts.specs.Lent.{going};
ghost use Rattle.drafts.specs.DraftCalls.{MeetsStep};
ghost use Rattle.drafts.specs.Drafting.{step_run_of};
ghost use Rattle.drafts.specs.Reading.{FieldRemoved};

use crate::refusals::{DRAFT_NUMBERS, MAX_RULES, refused, refused_early};
use crate::sheets::{check_sheets, read_sheets};
use buffer::put;
use schema_edits::edit::remove_field;
use schema_edits::place::place_of;
use text::part::{Part, bytes_of};

// Writes the sheet without the field from `at` to `end`, by a copy in the path buffer; its new length is returned.
fn remove_from(buffer: &mut [u8], size: usize, at: usize, end: usize, path: &mut [u8]) -> usize
    ensures { FieldRemoved buffer.old buffer.new size at end path.old path.new result }
{
    let copied = put(
        path,
        0,
        bytes_of(
            buffer,
            Part {
                start: 0,
                len: size,
            },
        ),
    );
    let copy = bytes_of(
        path,
        Part {
            start: 0,
            len: copied,
        },
    );
    remove_field(buffer, copy, at, end)
}

// Takes a field out of the schema.
pub fn draft_remove(
    heads: &[u8],
    texts: &[u8],
    table: &[u8],
    name: &[u8],
    buffer: &mut [u8],
    size: usize,
    records: &mut [u8],
    path: &mut [u8],
    scratch: &mut [u32],
) -> [u32; DRAFT_NUMBERS]
    ensures { MeetsStep (step_run_of heads.now texts.now table.now (going name.now) buffer.old size records.old path.old scratch.old result buffer.new records.new path.new scratch.new) }
{
    let number = refused_early(
        heads,
        texts,
        table,
        buffer.len(),
        records.len(),
        path.len(),
        scratch.len(),
    );
    if number != 0 {
        return refused(number);
    }
    let sheet = bytes_of(
        buffer,
        Part {
            start: 0,
            len: size,
        },
    );
    let mut marks = [0u8; MAX_RULES];
    let number = read_sheets(heads, texts, name, sheet, &mut marks, scratch);
    if number != 0 {
        return refused(number);
    }
    let Ok((at, end)) = place_of(sheet, name) else {
        return refused(41);
    };
    let next = remove_from(buffer, size, at, end, path);
    let schema = bytes_of(
        buffer,
        Part {
            start: 0,
            len: next,
        },
    );
    check_sheets(heads, texts, table, schema, &marks, records, path, scratch);
    [0, next as u32]
}
