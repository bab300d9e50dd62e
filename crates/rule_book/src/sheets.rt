// The sheets of a rule book, one after the other, each after its length.
ghost use Rattle.rule_book.specs.Places.{SheetIs, CountIs};

use text::part::Part;
use text::{numeral, starts_with};

// The sheet whose length is at `at`, and the place after it. A length above the file's may be given up.
pub fn next_sheet(file: &[u8], at: usize) -> Option<(Part, usize)>
    ensures { SheetIs file.now at result }
{
    let (len, comma) = numeral::decimal(file, at, file.len())?;
    if starts_with(file, comma, b',') {
        let start = comma + 1;
        if len <= file.len() - start {
            return Some((Part { start, len }, start + len));
        }
    }
    None
}

// How many sheets the file has, if it is of the form. Their bytes are passed over.
pub fn count_sheets(file: &[u8]) -> Option<usize>
    ensures { CountIs file.now result }
{
    let mut at: usize = 0;
    let mut count: usize = 0;
    while at < file.len() {
        // No `?`, so that an edit can hand over the count of what came before.
        let Some((_, next)) = next_sheet(file, at) else {
            return None;
        };
        at = next;
        count += 1;
    }
    Some(count)
}
