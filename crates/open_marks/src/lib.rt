// Opening a mark in a schema sheet (docs/FORMAT.md, "The fewest marks to open"): marks are one byte each, so that no other byte moves.
#![tactic(auto)]

ghost use Rattle.std.specs.Prelude.{◌≤◌};
ghost use Rattle.open_marks.specs.Marks.{MarkOpened};
ghost use Rattle.open_marks.specs.Places.{MarkAt, FieldMarkAt};

use buffer::push;
use sheet::entry::{MAX_COUNT, is_dashed, item};
use sheet::schema_heads::{known_field, schema_head};

// The place of the arguments' mark: behind the record's count.
fn arguments_mark(s: &[u8]) -> usize
    ensures { MarkAt s.now 0 result }
{
    let Some((_, behind)) = item(s, 3, 0, MAX_COUNT) else {
        return s.len();
    };
    if is_dashed(s, behind) {
        return s.len();
    }
    behind + 1
}

// The place of a field's mark. The fields' entries are from `start` on, the first of them the sheet's second.
fn field_mark(s: &[u8], start: usize, entry: usize) -> usize
    requires { 2 ≤ entry }
    ensures { FieldMarkAt s.now start 2 entry result }
{
    let mut at = start;
    for _ in 2..entry {
        let Some((_, next)) = known_field(s, at) else {
            return s.len();
        };
        at = next;
    }
    let Some((head, _)) = known_field(s, at) else {
        return s.len();
    };
    if head.kind < 10 { at + 4 } else { at + 5 }
}

// The place of the mark's byte, or the sheet's end where there is no such mark.
fn mark_place(s: &[u8], entry: usize) -> usize
    ensures { MarkAt s.now entry result }
{
    let Some((_, start)) = schema_head(s, 0) else {
        return s.len();
    };
    if entry == 0 {
        return arguments_mark(s);
    }
    if entry == 1 {
        return 2;
    }
    field_mark(s, start, entry)
}

// Opens the mark of that entry: 1 is the record's, 0 that of the arguments. What has no such entry stays as it is.
pub fn open_mark(sheet: &mut [u8], entry: usize)
    ensures { MarkOpened sheet.old entry sheet.new }
{
    let place = mark_place(sheet, entry);
    push(sheet, place, b'1');
}
