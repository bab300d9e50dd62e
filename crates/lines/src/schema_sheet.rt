// The entries of a schema sheet, one after the other.
ghost use Rattle.std.specs.Prelude.{◌≡◌};
ghost use Rattle.sheet.specs.Places.{SchemaIs, FieldIs};
ghost use Rattle.lines.specs.Ends.{schema_end, field_end};
ghost use Rattle.lines.specs.Passed.{Passed};

use crate::{Lines, end_after, new};
use sheet::schema_heads::{FieldHead, SchemaHead};

// The next entry's head, with the reader moved past it.
pub fn next_schema<'s, 'a>(lines: &'s mut Lines<'a>) -> Option<(SchemaHead, usize)>
    ensures { Passed SchemaIs schema_end lines.old lines.new result }
{
    let read = sheet::schema_heads::schema_head(lines.sheet, lines.at);
    lines.at = end_after(read, lines.at);
    read
}

// The head of the entry that starts at `at`, for callers without a reader.
pub fn schema_head(sheet: &[u8], at: usize) -> Option<(SchemaHead, usize)>
    ensures { SchemaIs sheet.now at result }
{
    let mut lines = new(sheet, at);
    next_schema(&mut lines)
}

// The next entry's head, with the reader moved past it.
pub fn next_field<'s, 'a>(lines: &'s mut Lines<'a>) -> Option<(FieldHead, usize)>
    ensures { Passed FieldIs field_end lines.old lines.new result }
{
    let read = sheet::schema_heads::field_head(lines.sheet, lines.at);
    lines.at = end_after(read, lines.at);
    read
}

// The head of the entry that starts at `at`, for callers without a reader.
pub fn field_head(sheet: &[u8], at: usize) -> Option<(FieldHead, usize)>
    ensures { FieldIs sheet.now at result }
{
    let mut lines = new(sheet, at);
    next_field(&mut lines)
}
