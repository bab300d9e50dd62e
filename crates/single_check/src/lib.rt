// The whole call: one rule or template of a record against the record's schema.
#![tactic(auto)]

pub mod outcome; // outcome.rt: the seven numbers of a result, and the count of marks beside them
pub mod settings; // settings.rt: settings, label, widths and the name table
pub mod sheets; // sheets.rt: one rule sheet under a schema that has been read
pub mod finding; // finding.rt: what a defect is called
mod answer; // answer.rt: two sheets that are well formed

ghost use Rattle.std.specs.Prelude.{[]};
ghost use Rattle.validation.specs.Result.{Meets};
ghost use Rattle.validation.specs.Marking.{MeetsMarked};
ghost use Rattle.single_check.specs.Runs.{lent_run_of, run_of, marked_run_of, MeetsIndexed};
ghost use Rattle.single_check.specs.declared.sheets.Takes.TheVariants.{Any};

use crate::outcome::{Outcome, Report, refused};
use crate::settings::{refused_settings, settle};
use crate::sheets::{Takes, check_sheet};
use constants::mark_constants;
use definition::limits::MARK_BYTES;
use schema::read::read_schema;

// The whole call, with a mark list of so many bytes: settings, label and widths first, then the list, then the name table, then the sheets, then the
// check list. Where it accepts, the rule's index is in the scratch.
fn validate_lent(
    takes: Takes,
    kind: u32,
    semantics: u32,
    label: &[u8],
    table: &[u8],
    schema: &[u8],
    rule: &[u8],
    path: &mut [u8],
    marks: usize,
    scratch: &mut [u32],
) -> Outcome
    ensures { MeetsIndexed (lent_run_of takes kind semantics label.now table.now schema.now rule.now path.old marks scratch.old result path.new scratch.new) }
{
    let number = refused_settings(kind, semantics, label, path.len(), scratch.len());
    if number != 0 {
        return refused(number);
    }
    if marks < MARK_BYTES {
        return refused(35);
    }
    match settle(kind, semantics, table) {
        Err(number) => refused(number),
        Ok(setting) => {
            let read = read_schema(schema, scratch);
            check_sheet(takes, setting, label, schema, read, rule, path, scratch)
        }
    }
}

// Checks a rule or template, whichever `takes` lets in, under a name table, and writes the marks of one that is accepted.
pub fn validate_marked(
    takes: Takes,
    kind: u32,
    semantics: u32,
    label: &[u8],
    table: &[u8],
    schema: &[u8],
    rule: &[u8],
    path: &mut [u8],
    marks: &mut [u8],
    scratch: &mut [u32],
) -> Report
    ensures { MeetsMarked (marked_run_of takes kind semantics label.now table.now schema.now rule.now path.old marks.old scratch.old result path.new marks.new scratch.new) }
{
    let outcome = validate_lent(
        takes,
        kind,
        semantics,
        label,
        table,
        schema,
        rule,
        path,
        marks.len(),
        scratch,
    );
    if outcome.number != 0 {
        return Report { outcome, marks: 0 };
    }
    let count = mark_constants(rule, scratch, marks);
    Report {
        outcome,
        marks: count as u32,
    }
}

// The same without marks: no list is lent, so none is too short.
pub fn validate_under(
    takes: Takes,
    kind: u32,
    semantics: u32,
    label: &[u8],
    table: &[u8],
    schema: &[u8],
    rule: &[u8],
    path: &mut [u8],
    scratch: &mut [u32],
) -> Outcome
    ensures { Meets (run_of takes kind semantics label.now table.now schema.now rule.now path.old scratch.old result path.new scratch.new) }
{
    validate_lent(
        takes, kind, semantics, label, table, schema, rule, path, MARK_BYTES, scratch,
    )
}

// Checks a rule or template under the stock table.
pub fn validate(
    kind: u32,
    semantics: u32,
    label: &[u8],
    schema: &[u8],
    rule: &[u8],
    path: &mut [u8],
    scratch: &mut [u32],
) -> Outcome
    ensures { Meets (run_of Any kind semantics label.now [] schema.now rule.now path.old scratch.old result path.new scratch.new) }
{
    validate_under(
        Takes::Any,
        kind,
        semantics,
        label,
        b"",
        schema,
        rule,
        path,
        scratch,
    )
}
