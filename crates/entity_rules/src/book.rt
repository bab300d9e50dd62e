// A whole rule book for a host: the tally, with its eighteen numbers as bytes.
ghost use Rattle.std.specs.Prelude.{length};
ghost use Rattle.entity_rules.specs.BookEntry.{tally_answer, TallyAnswered};

use crate::{path_lent, setting};
use definition::limits::SCRATCH_WORDS;
use host_numbers::counts::write_counts;
use rule_book::tally::{TALLY_NUMBERS, tally};

const TALLY_BYTES: usize = 8 * TALLY_NUMBERS;

// Tallies a rule book. `path` takes at least 32,768 bytes, of which the first 32,768 are free afterwards, and `res` 144.
#[unsafe(no_mangle)]
pub extern "C" fn rulecheck_tally(
    kind: u64,
    semantics: u64,
    label: &[u8],
    table: &[u8],
    schema: &[u8],
    book: &[u8],
    path: &mut [u8],
    res: &mut [u8],
) -> u32
    ensures { TallyAnswered (tally_answer kind semantics label.now table.now schema.now book.now (length path.old) (length res.old)) path.old path.new res.old res.new result }
{
    let mut scratch = [0u32; SCRATCH_WORDS];
    let lent = path_lent(TALLY_BYTES, path.len(), res.len());
    let numbers = tally(
        setting(kind),
        setting(semantics),
        label,
        table,
        schema,
        book,
        &mut path[0..lent],
        &mut scratch,
    );
    write_counts(&numbers, res);
    numbers[0] as u32
}
