// The checker as C functions for a host. Each call brings a scratch of its own.
#![tactic(auto)]

mod result; // result.rt: the seven numbers as bytes
mod report; // report.rt: a check with a name table and a mark list
mod explain; // explain.rt: a check with a message buffer
mod change; // change.rt: what is answered about two schema sheets
mod book; // book.rt: the tally of a rule book
mod pages; // pages.rt: a rule book's run for the wall
mod fewest; // fewest.rt: the fewest marks to open
mod rule_json; // rule_json.rt: rules from JSON and back

ghost use Rattle.std.specs.Prelude.{◌≡◌, [], min, length};
ghost use Rattle.buffer.specs.Bytes.{field_at};
ghost use Rattle.validation.specs.Loading.{load_number, load_after};
ghost use Rattle.validation.specs.Result.{rules, templates};
ghost use Rattle.single_check.specs.Sheets.{takes_of};
ghost use Rattle.host_numbers.specs.Counts.{count_at};
ghost use Rattle.host_numbers.specs.NumberTest.{finite_number};
ghost use Rattle.host_numbers.specs.Version.{version};
ghost use Rattle.host_numbers.specs.InstantEntry.{InstantAnswered};
ghost use Rattle.entity_rules.specs.Entry.{path_lent, entry_answer, EntryAnswered};
ghost use Rattle.entity_rules.specs.KeyEntry.{key_entry_answer};
ghost use Rattle.entity_rules.specs.WidensEntry.{WidensAnswered};

use crate::change::told;
use crate::result::{RESULT_BYTES, write_result};
use definition::limits::SCRATCH_WORDS;
use host_numbers::counts::count_at;
use host_numbers::{field_at, finite_number, instant_fields};
use key_path::validate_path;
use name_table::load;
use name_table::read::KINDS;
use single_check::sheets::Takes;
use single_check::validate_under;

const LAST_KIND: u64 = KINDS as u64;

// Semantics end before kinds do, so one number stands for all that is too large for either.
const TOO_LARGE: u32 = KINDS + 1;

fn setting(n: u64) -> u32
    ensures { result ≡ min n 9 }
{
    if LAST_KIND < n { TOO_LARGE } else { n as u32 }
}

// How much of a buffer is lent: nothing where the result would have no room, so that both are refused as width.
fn path_lent(need: usize, path: usize, res: usize) -> usize
    ensures { result ≡ path_lent need path res }
{
    if res < need { 0 } else { path }
}

fn check(
    takes: Takes,
    kind: u64,
    semantics: u64,
    label: &[u8],
    schema: &[u8],
    rule: &[u8],
    path: &mut [u8],
    res: &mut [u8],
) -> u32
    ensures { EntryAnswered (entry_answer (takes_of takes) kind semantics label.now schema.now rule.now (length path.old) (length res.old)) path.old path.new res.old res.new result }
{
    let mut scratch = [0u32; SCRATCH_WORDS];
    let lent = path_lent(RESULT_BYTES, path.len(), res.len());
    let outcome = validate_under(
        takes,
        setting(kind),
        setting(semantics),
        label,
        b"",
        schema,
        rule,
        &mut path[0..lent],
        &mut scratch,
    );
    write_result(outcome, res);
    outcome.number
}

// Checks a rule. `path` takes at least 32,768 bytes, and `res` 28.
#[unsafe(no_mangle)]
pub extern "C" fn rulecheck_rule(
    kind: u64,
    semantics: u64,
    label: &[u8],
    schema: &[u8],
    rule: &[u8],
    path: &mut [u8],
    res: &mut [u8],
) -> u32
    ensures { EntryAnswered (entry_answer rules kind semantics label.now schema.now rule.now (length path.old) (length res.old)) path.old path.new res.old res.new result }
{
    check(
        Takes::Rules,
        kind,
        semantics,
        label,
        schema,
        rule,
        path,
        res,
    )
}

// Checks a template, with buffers as for a rule.
#[unsafe(no_mangle)]
pub extern "C" fn rulecheck_template(
    kind: u64,
    semantics: u64,
    label: &[u8],
    schema: &[u8],
    rule: &[u8],
    path: &mut [u8],
    res: &mut [u8],
) -> u32
    ensures { EntryAnswered (entry_answer templates kind semantics label.now schema.now rule.now (length path.old) (length res.old)) path.old path.new res.old res.new result }
{
    check(
        Takes::Templates,
        kind,
        semantics,
        label,
        schema,
        rule,
        path,
        res,
    )
}

// Copies a name table to the start of a buffer, which later checks are lent: 0, or 37 or 38 with the buffer unchanged.
#[unsafe(no_mangle)]
pub extern "C" fn rulecheck_load_table(table: &[u8], buffer: &mut [u8]) -> u32
    ensures { (result ≡ load_number table.now (length buffer.old)) × (buffer.new ≡ load_after table.now buffer.old) }
{
    load(table, buffer)
}

// Checks one path of `$fields`, given without `$fields.`, for reader 1 (Kernel) or 2 (Projection). `res` takes at least 28 bytes; there is no
// path buffer, so the contract has empty ones.
#[unsafe(no_mangle)]
pub extern "C" fn rulecheck_path(
    semantics: u64,
    reader: u64,
    path: &[u8],
    schema: &[u8],
    res: &mut [u8],
) -> u32
    ensures { EntryAnswered (key_entry_answer semantics reader path.now schema.now (length res.old)) [] [] res.old res.new result }
{
    let mut scratch = [0u32; SCRATCH_WORDS];
    let lent = path_lent(RESULT_BYTES, SCRATCH_WORDS, res.len());
    let key = validate_path(
        setting(semantics),
        setting(reader),
        path,
        schema,
        &mut scratch[0..lent],
    );
    write_result(key, res);
    key.number
}

// Whether the second of two schema sheets is a widening of the first. `res` takes at least 28 bytes.
#[unsafe(no_mangle)]
pub extern "C" fn rulecheck_widens(first: &[u8], second: &[u8], res: &mut [u8]) -> u32
    ensures { WidensAnswered first.now second.now res.old res.new result }
{
    if res.len() < RESULT_BYTES {
        return 3;
    }
    let answer = told(schema_change::widens(first, second));
    write_result(answer, res);
    answer.number
}

// A number of a result by its index, or 0 where there is none.
#[unsafe(no_mangle)]
pub extern "C" fn rulecheck_field(res: &[u8], index: u32) -> u32
    ensures { result ≡ field_at index res.now }
{
    field_at(res, index)
}

// A number of a tally or of a wall sheet's result by its index, or 0 where there is none.
#[unsafe(no_mangle)]
pub extern "C" fn rulecheck_count(res: &[u8], index: u32) -> u64
    ensures { result ≡ count_at index res.now }
{
    count_at(res, index)
}

// The version of these functions, which the header has too: major, minor and patch, eight bits for each of the last two.
#[unsafe(no_mangle)]
pub extern "C" fn rulecheck_version() -> u32
    ensures { result ≡ version }
{
    host_numbers::version()
}

// Whether `text` is a finite number, and how many of its digits were compared for that: the count, twice, and 1 more if it is finite.
#[unsafe(no_mangle)]
pub extern "C" fn rulecheck_finite(text: &[u8]) -> u32
    ensures { result ≡ finite_number text.now }
{
    finite_number(text)
}

// The fields of the instant that `text` is: year, month, day, hour, minute, second, nanoseconds. `fields` takes at least 28 bytes, as a result does,
// and keeps them where the answer is not 0: 3 for too few, 20 where `text` is not an instant.
#[unsafe(no_mangle)]
pub extern "C" fn rulecheck_instant(text: &[u8], fields: &mut [u8]) -> u32
    ensures { InstantAnswered text.now fields.old fields.new result }
{
    instant_fields(text, fields)
}
