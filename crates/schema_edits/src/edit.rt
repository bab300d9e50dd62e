// A schema sheet with one field more, or one less, written at a buffer's start from the old sheet.
ghost use Rattle.std.specs.Prelude.{◌≡◌, ◌-◌, take, drop};
ghost use Rattle.buffer.specs.Laid.{Laid};
ghost use Rattle.schema_edits.specs.Edit.{edited, Adds, Removes};

use crate::count::digits;
use buffer::lay::{lay, lay_decimal};
use sheet::schema_heads::schema_head;
use text::part::{Part, bytes_of};

// Where the head's count begins, behind `H`, the open mark and two commas.
const COUNT_AT: usize = 4;

// The bytes from `from` up to `end`.
fn between(s: &[u8], from: usize, end: usize) -> &[u8]
    ensures { result.now ≡ take (end - from) (drop from s.now) }
{
    if end < from {
        return bytes_of(
            s,
            Part {
                start: from,
                len: 0,
            },
        );
    }
    let len = end - from;
    bytes_of(s, Part { start: from, len })
}

// The sheet with that count in its head, whose digits ended at `behind`, and with the field for the bytes from `at` up to `end`.
fn lay_edited(
    out: &mut [u8],
    s: &[u8],
    count: usize,
    behind: usize,
    at: usize,
    field: &[u8],
    end: usize,
) -> usize
    ensures { Laid out.old out.new 0 (edited s.now count behind at field.now end) result }
{
    let a = lay(out, 0, between(s, 0, COUNT_AT));
    let b = lay_decimal(out, a, count);
    let c = lay(out, b, between(s, behind, at));
    let d = lay(out, c, field);
    lay(out, d, between(s, end, s.len()))
}

// The field comes at `at`. The new sheet's length is returned.
pub fn add_field(out: &mut [u8], s: &[u8], at: usize, field: &[u8]) -> usize
    ensures { Adds out.old out.new s.now at field.now result }
{
    let Some((head, _)) = schema_head(s, 0) else {
        return 0;
    };
    let count = head.fields.count;
    lay_edited(out, s, count + 1, COUNT_AT + digits(count), at, field, at)
}

// The field from `at` up to `end` goes. The new sheet's length is returned.
pub fn remove_field(out: &mut [u8], s: &[u8], at: usize, end: usize) -> usize
    ensures { Removes out.old out.new s.now at end result }
{
    let Some((head, _)) = schema_head(s, 0) else {
        return 0;
    };
    let count = head.fields.count;
    if count == 0 {
        return 0;
    }
    lay_edited(
        out,
        s,
        count - 1,
        COUNT_AT + digits(count),
        at,
        between(s, at, at),
        end,
    )
}
