// The fewest marks to open for acceptance (docs/FORMAT.md, "The fewest marks to open").
#![tactic(auto)]

mod rounds; // rounds.rt: one mark more in each round
mod list; // list.rt: the marks as a list of numbers
mod search; // search.rt: two sheets that are well formed

ghost use Rattle.openings.specs.Call.{MeetsOpen};
ghost use Rattle.openings.specs.Runs.{open_run_of};

use crate::list::LIST_BYTES;
use crate::search::{open_sheets, refused};
use single_check::settings::{refused_settings, settle};

// How many numbers a result has.
pub const OPEN_NUMBERS: usize = 3;

// Finds the marks: settings and widths are tried first, then the list, then the name table, then the sheets. The path buffer takes a copy of the schema, in which they
// are opened.
pub fn fewest_marks(
    kind: u32,
    semantics: u32,
    table: &[u8],
    schema: &[u8],
    rule: &[u8],
    path: &mut [u8],
    list: &mut [u8],
    scratch: &mut [u32],
) -> [u32; OPEN_NUMBERS]
    ensures { MeetsOpen (open_run_of kind semantics table.now schema.now rule.now path.old list.old scratch.old result path.new list.new scratch.new) }
{
    let number = refused_settings(kind, semantics, b"", path.len(), scratch.len());
    if number != 0 {
        return refused(number);
    }
    if list.len() < LIST_BYTES {
        return refused(36);
    }
    match settle(kind, semantics, table) {
        Err(number) => refused(number),
        Ok(setting) => open_sheets(setting, schema, rule, path, list, scratch),
    }
}
