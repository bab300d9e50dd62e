// The fewest marks to open, for a host, with the three numbers of the result as bytes.
ghost use Rattle.std.specs.Prelude.{length};
ghost use Rattle.entity_rules.specs.OpenEntry.{open_entry_answer, OpenAnswered};

use crate::result::write_numbers;
use crate::{path_lent, setting};
use definition::limits::SCRATCH_WORDS;
use openings::{OPEN_NUMBERS, fewest_marks};

const OPEN_BYTES: usize = 4 * OPEN_NUMBERS;

// Finds the fewest marks that must be opened for acceptance. `path` takes at least 32,768 bytes, of which the first 32,768 are free afterwards, `list` 4,100, four for each
// mark, and `res` 12.
#[unsafe(no_mangle)]
pub extern "C" fn rulecheck_openings(
    kind: u64,
    semantics: u64,
    table: &[u8],
    schema: &[u8],
    rule: &[u8],
    path: &mut [u8],
    list: &mut [u8],
    res: &mut [u8],
) -> u32
    ensures { OpenAnswered (open_entry_answer kind semantics table.now schema.now rule.now (length path.old) (length list.old) (length res.old)) path.old path.new list.old list.new res.old res.new result }
{
    let mut scratch = [0u32; SCRATCH_WORDS];
    let lent = path_lent(OPEN_BYTES, path.len(), res.len());
    let numbers = fewest_marks(
        setting(kind),
        setting(semantics),
        table,
        schema,
        rule,
        &mut path[0..lent],
        list,
        &mut scratch,
    );
    write_numbers(&numbers, res);
    numbers[0]
}
