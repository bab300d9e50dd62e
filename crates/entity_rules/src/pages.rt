// A whole rule book for a host: the wall sheet, with its two numbers as bytes.
ghost use Rattle.std.specs.Prelude.{length};
ghost use Rattle.entity_rules.specs.WallEntry.{wall_entry_answer, WallAnswered};

use crate::{path_lent, setting};
use definition::limits::SCRATCH_WORDS;
use host_numbers::counts::write_counts;
use wall::{WALL_NUMBERS, wall};

const WALL_BYTES: usize = 8 * WALL_NUMBERS;

// Prints the run over a rule book on pages. `path` takes at least 32,768 bytes, of which the first 32,768 are free afterwards, `pages` 4,860 for
// each page, and `res` 16.
#[unsafe(no_mangle)]
pub extern "C" fn rulecheck_wall(
    kind: u64,
    semantics: u64,
    label: &[u8],
    table: &[u8],
    schema: &[u8],
    book: &[u8],
    path: &mut [u8],
    pages: &mut [u8],
    res: &mut [u8],
) -> u32
    ensures { WallAnswered (wall_entry_answer kind semantics label.now table.now schema.now book.now (length path.old) (length pages.old) (length res.old)) path.old path.new pages.old pages.new res.old res.new result }
{
    let mut scratch = [0u32; SCRATCH_WORDS];
    let lent = path_lent(WALL_BYTES, path.len(), res.len());
    let numbers = wall(
        setting(kind),
        setting(semantics),
        label,
        table,
        schema,
        book,
        &mut path[0..lent],
        pages,
        &mut scratch,
    );
    write_counts(&numbers, res);
    numbers[0] as u32
}
