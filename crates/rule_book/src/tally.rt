// The tally of a rule book: each of its sheets checked alone, and how often each answer came.
ghost use Rattle.std.specs.Prelude.{◌≡◌};
ghost use Rattle.call.specs.Call.{refused_by};
ghost use Rattle.single_check.specs.Settings.{setting_by};
ghost use Rattle.rule_book.specs.Tally.{tally_numbers, MeetsBook};
ghost use Rattle.rule_book.specs.Tallying.{numbers_in, Ready, SheetsTallied, book_run_of};

use crate::sheets::{count_sheets, next_sheet};
use schema::read::{Schema, read_schema};
use single_check::settings::{Setting, refused_settings, settle};
use single_check::sheets::{Takes, check_sheet};
use text::part::bytes_of;

// How many numbers a result has.
pub const TALLY_NUMBERS: usize = 18;

// Every number that a check answers is below this one.
const ANSWERS: usize = 23;

fn refused(number: u32) -> [u64; TALLY_NUMBERS]
    ensures { result ≡ tally_numbers (refused_by number) }
{
    let mut numbers = [0u64; TALLY_NUMBERS];
    numbers[0] = number as u64;
    numbers
}

// Read, accepted, refused by 4 and by 5, 11 to 22, and what passed; the first number says that the book itself is not refused.
fn result(counts: [u64; ANSWERS], read: u64, passed: u64) -> [u64; TALLY_NUMBERS]
    ensures { result ≡ numbers_in counts read passed }
{
    [
        0, read, counts[0], counts[4], counts[5], counts[11], counts[12], counts[13], counts[14],
        counts[15], counts[16], counts[17], counts[18], counts[19], counts[20], counts[21],
        counts[22], passed,
    ]
}

// Checks every sheet of a book under a schema that has been read into the scratch.
fn tally_sheets(
    setting: Setting,
    label: &[u8],
    schema: &[u8],
    read: Option<Schema>,
    book: &[u8],
    path: &mut [u8],
    scratch: &mut [u32],
) -> [u64; TALLY_NUMBERS]
    requires { Ready label.now schema.now read book.now path.old scratch.old }
    ensures { SheetsTallied (setting_by setting) label.now schema.now book.now path.old path.new scratch.old scratch.new result }
{
    let mut counts = [0u64; ANSWERS];
    let mut sheets: u64 = 0;
    let mut passed: u64 = 0;
    let mut at: usize = 0;
    while at < book.len() {
        let Some((part, next)) = next_sheet(book, at) else {
            return result(counts, sheets, passed);
        };
        let sheet = bytes_of(book, part);
        let o = check_sheet(
            Takes::Any,
            setting,
            label,
            schema,
            read,
            sheet,
            path,
            scratch,
        );
        let number = o.number as usize;
        counts[number] += 1;
        passed += o.passed as u64;
        sheets += 1;
        at = next;
    }
    result(counts, sheets, passed)
}

// Tallies a book: settings, label and widths are tried first, then the book's form, then the name table. The schema is read once.
pub fn tally(
    kind: u32,
    semantics: u32,
    label: &[u8],
    table: &[u8],
    schema: &[u8],
    book: &[u8],
    path: &mut [u8],
    scratch: &mut [u32],
) -> [u64; TALLY_NUMBERS]
    ensures { MeetsBook (book_run_of kind semantics label.now table.now schema.now book.now path.old scratch.old result path.new scratch.new) }
{
    let number = refused_settings(kind, semantics, label, path.len(), scratch.len());
    if number != 0 {
        return refused(number);
    }
    let Some(_) = count_sheets(book) else {
        return refused(34);
    };
    match settle(kind, semantics, table) {
        Err(number) => refused(number),
        Ok(setting) => {
            let read = read_schema(schema, scratch);
            tally_sheets(setting, label, schema, read, book, path, scratch)
        }
    }
}
