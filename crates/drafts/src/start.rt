// A draft is opened: every rule is checked.
ghost use Rattle.drafts.specs.DraftCalls.{MeetsStart};
ghost use Rattle.drafts.specs.Drafting.{start_run_of};

use crate::refusals::{DRAFT_NUMBERS, MAX_RULES, refused, refused_early};
use crate::sheets::{check_sheets, read_sheets};
use text::part::{Part, bytes_of};

// Opens a draft: the record of every rule is put.
pub fn draft_start(
    heads: &[u8],
    texts: &[u8],
    table: &[u8],
    buffer: &[u8],
    size: usize,
    records: &mut [u8],
    path: &mut [u8],
    scratch: &mut [u32],
) -> [u32; DRAFT_NUMBERS]
    ensures { MeetsStart (start_run_of heads.now texts.now table.now buffer.now size records.old path.old scratch.old result records.new path.new scratch.new) }
{
    let number = refused_early(
        heads,
        texts,
        table,
        buffer.len(),
        records.len(),
        path.len(),
        scratch.len(),
    );
    if number != 0 {
        return refused(number);
    }
    let schema = bytes_of(
        buffer,
        Part {
            start: 0,
            len: size,
        },
    );
    let mut named = [0u8; MAX_RULES];
    let number = read_sheets(heads, texts, b"", schema, &mut named, scratch);
    if number != 0 {
        return refused(number);
    }
    let all = [1u8; MAX_RULES];
    check_sheets(heads, texts, table, schema, &all, records, path, scratch);
    [0, schema.len() as u32]
}
