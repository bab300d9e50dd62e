// The single check in full, which is lent a name table and a mark list. Its result has the count of marks after the seven numbers.
ghost use Rattle.std.specs.Prelude.{length};
ghost use Rattle.entity_rules.specs.CheckEntry.{check_call, CheckAnswered, ReportWritten};

use crate::{path_lent, setting};
use buffer::put_numbers;
use definition::limits::SCRATCH_WORDS;
use single_check::outcome::Report;
use single_check::sheets::Takes;
use single_check::validate_marked;

const REPORT_BYTES: usize = 32;

// A buffer that is too short keeps its bytes.
fn write_report(report: Report, bytes: &mut [u8])
    ensures { ReportWritten report bytes.old bytes.new }
{
    if bytes.len() < REPORT_BYTES {
        return;
    }
    let o = report.outcome;
    let numbers = [
        o.number,
        o.family,
        o.detail,
        o.place,
        o.over_place,
        o.passed,
        o.path_length,
        report.marks,
    ];
    put_numbers(bytes, 0, &numbers);
}

// Checks a rule or template under a name table; 0 bytes stand for the stock table. `path` takes at least 32,768 bytes, `marks` 8,192, four for each
// mark, and `res` 32.
#[unsafe(no_mangle)]
pub extern "C" fn rulecheck_check(
    kind: u64,
    semantics: u64,
    label: &[u8],
    table: &[u8],
    schema: &[u8],
    rule: &[u8],
    path: &mut [u8],
    marks: &mut [u8],
    res: &mut [u8],
) -> u32
    ensures { CheckAnswered (check_call kind semantics label.now table.now schema.now rule.now (length path.old) (length marks.old) (length res.old)) path.old path.new marks.old marks.new res.old res.new result }
{
    let mut scratch = [0u32; SCRATCH_WORDS];
    let lent = path_lent(REPORT_BYTES, path.len(), res.len());
    let report = validate_marked(
        Takes::Any,
        setting(kind),
        setting(semantics),
        label,
        table,
        schema,
        rule,
        &mut path[0..lent],
        marks,
        &mut scratch,
    );
    write_report(report, res);
    let outcome = report.outcome;
    outcome.number
}
