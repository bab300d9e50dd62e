// Two sheets that are well formed: which marks are opened in the schema, and the list of them.
ghost use Rattle.std.specs.Prelude.{◌≡◌, ◌≤◌, length};
ghost use Rattle.definition.specs.Limits.{max_sheet_bytes};
ghost use Rattle.validation.specs.Result.{path_bytes, scratch_words};
ghost use Rattle.call.specs.Call.{refused_by};
ghost use Rattle.single_check.specs.Settings.{setting_by};
ghost use Rattle.openings.specs.Call.{open_numbers};
ghost use Rattle.openings.specs.Runs.{MarksListed, SheetsOpened};

use crate::OPEN_NUMBERS;
use crate::list::put_marks;
use crate::rounds::{MAX_MARKS, find_marks};
use buffer::put;
use rule::read_rule;
use schema::read::{Schema, read_schema};
use single_check::settings::Setting;

pub fn refused(number: u32) -> [u32; OPEN_NUMBERS]
    ensures { result ≡ open_numbers (refused_by number) }
{
    [number, 0, 0]
}

// The rule's index is in the scratch, and beside it that of the schema, whose sheet is opened on the way.
fn list_marks(
    setting: Setting,
    s: Schema,
    rule: &[u8],
    sheet: &mut [u8],
    list: &mut [u8],
    scratch: &mut [u32],
) -> [u32; OPEN_NUMBERS]
    requires { scratch_words ≤ length scratch.old }
    ensures { MarksListed (setting_by setting) s rule.now sheet.old list.old list.new scratch.old scratch.new result }
{
    let mut marks = [0u8; MAX_MARKS];
    if find_marks(setting, s, rule, sheet, &mut marks, scratch) {
        let count = put_marks(&marks, list);
        return [0, 1, count];
    }
    [0, 0, 0]
}

pub fn open_sheets(
    setting: Setting,
    schema: &[u8],
    rule: &[u8],
    path: &mut [u8],
    list: &mut [u8],
    scratch: &mut [u32],
) -> [u32; OPEN_NUMBERS]
    requires { (path_bytes ≤ length path.old) × (scratch_words ≤ length scratch.old) }
    ensures { SheetsOpened (setting_by setting) schema.now rule.now path.old path.new list.old list.new scratch.old scratch.new result }
{
    let Some(s) = read_schema(schema, scratch) else {
        return refused(4);
    };
    let Some(_) = read_rule(rule, scratch) else {
        return refused(5);
    };
    let end = put(path, 0, schema);
    list_marks(setting, s, rule, &mut path[0..end], list, scratch)
}
