// The pages of the wall sheet: each sheet of the book is checked, and its line written, in one pass.
ghost use Rattle.std.specs.Prelude.{cond, ◌≡◌, ◌+◌, ◌*◌, ◌^◌, ◌<◌, eqb, drop};
ghost use Rattle.single_check.specs.Settings.{setting_by};
ghost use Rattle.rule_book.specs.Tallying.{Ready};
ghost use Rattle.wall.specs.Pages.{per_page, page_count};
ghost use Rattle.wall.specs.Printing.{Given, RowPut, PagePut, PagesPut};

use crate::line::{put_blank_line, put_foot, put_heading, put_line};
use rule_book::sheets::next_sheet;
use schema::read::{Schema, read_schema};
use single_check::settings::Setting;
use single_check::sheets::{Takes, check_sheet};
use text::part::bytes_of;

// How many results a page has.
const PER_PAGE: usize = 58;

// Where the next sheet is in the book and the next line in the pages, and 1 for a sheet that was accepted.
#[derive(Clone, Copy)]
pub struct Row {
    pub sheet: usize,
    pub line: usize,
    pub accepted: usize,
}

#[derive(Clone, Copy)]
pub struct PageEnd {
    pub sheet: usize,
    pub line: usize,
}

// How many pages so many sheets fill.
pub fn page_count(sheets: usize) -> usize
    ensures { result ≡ page_count sheets }
{
    if sheets == 0 {
        return 0;
    }
    (sheets - 1) / PER_PAGE + 1
}

fn one_if_accepted(number: u32) -> usize
    ensures { result ≡ cond (eqb number 0) 1 0 }
{
    if number == 0 { 1 } else { 0 }
}

// The line of the sheet at `at`, or a blank one after the last sheet.
fn put_row(
    setting: Setting,
    label: &[u8],
    schema: &[u8],
    read: Option<Schema>,
    book: &[u8],
    at: usize,
    serial: usize,
    path: &mut [u8],
    scratch: &mut [u32],
    pages: &mut [u8],
    to: usize,
) -> Row
    requires { Ready label.now schema.now read (drop at book.now) path.old scratch.old }
    ensures { RowPut (setting_by setting) label.now schema.now read book.now at serial to path.old path.new scratch.old scratch.new pages.old pages.new result }
{
    let Some((part, sheet)) = next_sheet(book, at) else {
        let line = put_blank_line(pages, to);
        return Row {
            sheet: at,
            line,
            accepted: 0,
        };
    };
    let o = check_sheet(
        Takes::Any,
        setting,
        label,
        schema,
        read,
        bytes_of(book, part),
        path,
        scratch,
    );
    let line = put_line(pages, to, serial, o, path);
    Row {
        sheet,
        line,
        accepted: one_if_accepted(o.number),
    }
}

// The page with so many pages before it.
fn put_page(
    setting: Setting,
    label: &[u8],
    schema: &[u8],
    read: Option<Schema>,
    book: &[u8],
    at: usize,
    before: usize,
    path: &mut [u8],
    scratch: &mut [u32],
    pages: &mut [u8],
    to: usize,
) -> PageEnd
    requires { Ready label.now schema.now read (drop at book.now) path.old scratch.old × (per_page * (before + 1) < 2 ^ 64) }
    ensures { PagePut (setting_by setting) label.now schema.now read book.now at before to path.old path.new scratch.old scratch.new pages.old pages.new result }
{
    let first = before * PER_PAGE + 1;
    let mut line = put_heading(pages, to, before + 1);
    let mut sheet = at;
    let mut accepted: usize = 0;
    for row in 0..PER_PAGE {
        let r = put_row(
            setting,
            label,
            schema,
            read,
            book,
            sheet,
            first + row,
            path,
            scratch,
            pages,
            line,
        );
        sheet = r.sheet;
        line = r.line;
        accepted += r.accepted;
    }
    let line = put_foot(pages, line, accepted);
    PageEnd { sheet, line }
}

// Reads the schema, and writes so many pages from the start of `pages` on.
pub fn put_pages(
    setting: Setting,
    label: &[u8],
    schema: &[u8],
    book: &[u8],
    count: usize,
    path: &mut [u8],
    scratch: &mut [u32],
    pages: &mut [u8],
)
    requires { Given label.now book.now path.old scratch.old × (per_page * count < 2 ^ 64) }
    ensures { PagesPut (setting_by setting) label.now schema.now book.now count path.old path.new scratch.old scratch.new pages.old pages.new }
{
    let read = read_schema(schema, scratch);
    let mut sheet: usize = 0;
    let mut line: usize = 0;
    for page in 0..count {
        let end = put_page(
            setting, label, schema, read, book, sheet, page, path, scratch, pages, line,
        );
        sheet = end.sheet;
        line = end.line;
    }
}
