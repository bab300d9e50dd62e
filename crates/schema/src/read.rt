// A schema sheet as a whole.
ghost use Rattle.std.specs.Prelude.{◌≤◌, length};
ghost use Rattle.schema.specs.Index.{index_end};
ghost use Rattle.schema.specs.Fields.{Ready};
ghost use Rattle.sheet.specs.Places.{holder_of, arguments_of};
ghost use Rattle.schema.specs.Read.{HolderAnswer, ArgumentsAnswer, SchemaAnswer};

use crate::field::Cursor;
use crate::index::{Holder, MAX_SLOTS};
use definition::limits::{MAX_FIELD_NESTING, MAX_SHEET_BYTES};
use sheet::schema_heads::HolderHead;

#[derive(Clone, Copy)]
pub struct Schema {
    pub fields: Holder,
    pub arguments: Option<Holder>,
}

// What the record or the arguments hold, with all that lies below it, and where its last entry ends.
fn read_holder(
    sheet: &[u8],
    words: &mut [u32],
    head: HolderHead,
    from: Cursor,
) -> Option<(Holder, Cursor)>
    requires { Ready sheet.now words.old from 0 0 }
    ensures { HolderAnswer sheet.now words.old words.new (holder_of head) from result }
{
    let first = from.used;
    let count = head.count;
    if MAX_SLOTS - first < count {
        return None;
    }
    let to = crate::field::read_members(
        sheet,
        words,
        MAX_FIELD_NESTING,
        first,
        count,
        from.next,
        first + count,
        from.at,
    )?;
    Some((
        Holder {
            opened: head.opened,
            first,
            count,
        },
        to,
    ))
}

// The same of the arguments, which may be absent.
fn read_arguments(
    sheet: &[u8],
    words: &mut [u32],
    head: Option<HolderHead>,
    from: Cursor,
) -> Option<(Option<Holder>, Cursor)>
    requires { Ready sheet.now words.old from 0 0 }
    ensures { ArgumentsAnswer sheet.now words.old words.new (arguments_of head) from result }
{
    let Some(h) = head else {
        return Some((None, from));
    };
    let (holder, to) = read_holder(sheet, words, h, from)?;
    Some((Some(holder), to))
}

// Whether a schema sheet is well formed, and what it holds, with an index of its fields in the scratch. What the scratch held before does not
// matter, and of its words only those of the index change.
pub fn read_schema(sheet: &[u8], scratch: &mut [u32]) -> Option<Schema>
    requires { index_end ≤ length scratch.old }
    ensures { SchemaAnswer sheet.now scratch.old scratch.new result }
{
    if MAX_SHEET_BYTES < sheet.len() {
        return None;
    }
    let (head, end) = lines::schema_sheet::schema_head(sheet, 0)?;
    let start = Cursor {
        next: 2,
        used: 0,
        at: end,
    };
    let of_record = head.fields;
    let (fields, behind) = read_holder(sheet, scratch, of_record, start)?;
    let of_arguments = head.arguments;
    let (arguments, to) = read_arguments(sheet, scratch, of_arguments, behind)?;
    let last = to.at;
    if lines::ends_at(sheet, last) {
        return Some(Schema { fields, arguments });
    }
    None
}
