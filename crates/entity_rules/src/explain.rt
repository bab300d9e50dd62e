// The single check that is lent a message buffer too. Its result has ten numbers: those of a check with a mark list, then 39 or 0, and the message's length.
ghost use Rattle.std.specs.Prelude.{length};
ghost use Rattle.entity_rules.specs.ExplainEntry.{explain_call, ExplainAnswered, ExplainedWritten};

use crate::result::write_numbers;
use crate::{path_lent, setting};
use definition::limits::SCRATCH_WORDS;
use explained_check::{Explained, validate_explained};
use single_check::sheets::Takes;

const EXPLAIN_BYTES: usize = 40;

// A buffer that is too short keeps its bytes.
fn write_explained(e: Explained, bytes: &mut [u8])
    ensures { ExplainedWritten e bytes.old bytes.new }
{
    let report = e.report;
    let o = report.outcome;
    let numbers = [
        o.number,
        o.family,
        o.detail,
        o.place,
        o.over_place,
        o.passed,
        o.path_length,
        report.marks,
        e.refusal,
        e.size,
    ];
    write_numbers(&numbers, bytes);
}

// Checks a rule or template under a name table, and says what a defect is. `path` takes at least 32,768 bytes, `marks` 8,192, `message` any number, and `res` 40.
#[unsafe(no_mangle)]
pub extern "C" fn rulecheck_explain(
    kind: u64,
    semantics: u64,
    label: &[u8],
    table: &[u8],
    schema: &[u8],
    rule: &[u8],
    path: &mut [u8],
    marks: &mut [u8],
    message: &mut [u8],
    res: &mut [u8],
) -> u32
    ensures { ExplainAnswered (explain_call kind semantics label.now table.now schema.now rule.now (length path.old) (length marks.old) (length res.old)) path.old path.new marks.old marks.new message.old message.new res.old res.new result }
{
    let mut scratch = [0u32; SCRATCH_WORDS];
    let lent = path_lent(EXPLAIN_BYTES, path.len(), res.len());
    let explained = validate_explained(
        Takes::Any,
        setting(kind),
        setting(semantics),
        label,
        table,
        schema,
        rule,
        &mut path[0..lent],
        marks,
        message,
        &mut scratch,
    );
    write_explained(explained, res);
    let report = explained.report;
    let outcome = report.outcome;
    outcome.number
}
