// A line reader (docs/FORMAT.md, "Sheets"): it borrows one sheet and keeps the place where the next entry starts. Few functions touch it; each
// takes it apart and leaves the work to one on plain bytes and a place.
#![tactic(auto)]

ghost use Rattle.std.specs.Prelude.{◌≡◌};
ghost use Rattle.lines.specs.Ends.{end_after, EndIs};

pub mod schema_sheet; // schema_sheet.rt: the entries H and F
pub mod rule_sheet; // rule_sheet.rt: the entries R, T, C, V and K

#[derive(Clone, Copy)]
pub struct Lines<'a> {
    pub sheet: &'a [u8],
    // Where the next entry starts.
    pub at: usize,
}

// A reader whose next entry starts at `at`.
pub fn new<'a>(sheet: &'a [u8], at: usize) -> Lines<'a>
    ensures { (result.sheet ≡ sheet.entry) × (result.at ≡ at) }
{
    Lines { sheet, at }
}

// Where the entry after the one that was read starts, whatever its head; a reader that finds none stays where it is.
fn end_after<H: Copy>(read: Option<(H, usize)>, at: usize) -> usize
    ensures { result ≡ end_after read at }
{
    match read {
        Some((_, next)) => next,
        None => at,
    }
}

// Whether there is no byte at `at` or after it.
fn is_end(s: &[u8], at: usize) -> bool
    ensures { EndIs s.now at result }
{
    if s.len() <= at {
        return true;
    }
    false
}

// Whether the reader is past the last entry.
pub fn is_at_end<'a>(lines: Lines<'a>) -> bool
    ensures { EndIs lines.entry.sheet.now lines.entry.at result }
{
    is_end(lines.sheet, lines.at)
}

// The same of a sheet and a place, for callers without a reader.
pub fn ends_at(sheet: &[u8], at: usize) -> bool
    ensures { EndIs sheet.now at result }
{
    is_at_end(new(sheet, at))
}
