// Whether the second of two schema sheets is a widening of the first (docs/FORMAT.md, "Is it a widening?"). Each sheet is read once, which
// says whether it is well formed; then both are gone through side by side, entry by entry.
#![tactic(auto)]

pub mod answer; // answer.rt: what is answered, and what was found so far
mod place; // place.rt: where reading is in a sheet
mod entry; // entry.rt: what the entries of two fields say
mod pairing; // pairing.rt: which of two members comes first
mod field; // field.rt: fields, with what lies below them
mod schema_sheets; // schema_sheets.rt: two schemas as a whole

ghost use Rattle.std.specs.Prelude.{◌≡◌};
ghost use Rattle.widening.specs.SheetDecision.{widens_sheets};
ghost use Rattle.schema_change.specs.Answers.{widens_answer_of};

use crate::answer::Change;
use crate::schema_sheets::compare_schemas;
use definition::limits::SCRATCH_WORDS;
use schema::read::read_schema;

// Refused with the number of the first sheet that is not well formed, 1 or 2. Brings a scratch, which reading needs; what it leaves there is not looked at.
pub fn widens(first: &[u8], second: &[u8]) -> Result<Change, u32>
    ensures { widens_answer_of result ≡ widens_sheets first.now second.now }
{
    let mut scratch = [0u32; SCRATCH_WORDS];
    let Some(_) = read_schema(first, &mut scratch) else {
        return Err(1);
    };
    let Some(_) = read_schema(second, &mut scratch) else {
        return Err(2);
    };
    let change = compare_schemas(first, second);
    Ok(change)
}
