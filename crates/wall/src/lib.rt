// The defect sheet for the wall: a rule book's run on pages of 80 columns and 60 lines (docs/FORMAT.md, "The wall sheet").
#![tactic(auto)]

mod line; // line.rt: one line
mod page; // page.rt: the pages, sheet by sheet

ghost use Rattle.std.specs.Prelude.{◌≡◌};
ghost use Rattle.call.specs.Call.{refused_by};
ghost use Rattle.wall.specs.Wall.{wall_numbers, MeetsWall};
ghost use Rattle.wall.specs.Printing.{wall_run_of};

use crate::page::{page_count, put_pages};
use rule_book::sheets::count_sheets;
use single_check::settings::{refused_settings, settle};

// How many numbers a result has.
pub const WALL_NUMBERS: usize = 2;

// 60 lines of 80 columns, each with its line feed.
const PAGE_BYTES: usize = 4860;

fn refused(number: u32) -> [u64; WALL_NUMBERS]
    ensures { result ≡ wall_numbers (refused_by number) }
{
    [number as u64, 0]
}

// Prints a book's run: settings, label and widths are tried first, then the book's form, then the room for the pages, then the name table.
pub fn wall(
    kind: u32,
    semantics: u32,
    label: &[u8],
    table: &[u8],
    schema: &[u8],
    book: &[u8],
    path: &mut [u8],
    pages: &mut [u8],
    scratch: &mut [u32],
) -> [u64; WALL_NUMBERS]
    ensures { MeetsWall (wall_run_of kind semantics label.now table.now schema.now book.now path.old pages.old scratch.old result path.new pages.new scratch.new) }
{
    let number = refused_settings(kind, semantics, label, path.len(), scratch.len());
    if number != 0 {
        return refused(number);
    }
    let Some(sheets) = count_sheets(book) else {
        return refused(34);
    };
    let count = page_count(sheets);
    if pages.len() / PAGE_BYTES < count {
        return refused(33);
    }
    match settle(kind, semantics, table) {
        Err(number) => refused(number),
        Ok(setting) => {
            put_pages(setting, label, schema, book, count, path, scratch, pages);
            [0, count as u64]
        }
    }
}
