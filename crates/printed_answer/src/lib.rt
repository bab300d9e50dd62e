// What the program `rulecheck` prints for a file's bytes (docs/FORMAT.md, "The program `rulecheck`").
#![tactic(auto)]

ghost use Rattle.validation.specs.Result.{result_of};
ghost use Rattle.check_file.specs.Output.{call_for, answered, output_of};
ghost use Rattle.printed_answer.specs.Printed.{Printed};

use check_file::file::take_apart;
use check_file::line::write_line;
use definition::limits::{PATH_BYTES, SCRATCH_WORDS};
use single_check::validate;
use text::part::bytes_of;

// Room enough for every line: six numbers of ten digits with a comma after each, the longest path, and the line's end.
pub const LINE_BYTES: usize = 6 * 11 + PATH_BYTES + 1;

// Writes the line of a call.
fn answer(
    kind: u32,
    semantics: u32,
    label: &[u8],
    schema: &[u8],
    rule: &[u8],
    out: &mut [u8],
) -> usize
    ensures { Printed (answered (result_of (call_for (record { kind = kind; semantics = semantics; label = label.now; schema = schema.now; rule = rule.now })))) out.old out.new result }
{
    let mut path = [0u8; PATH_BYTES];
    let mut scratch = [0u32; SCRATCH_WORDS];
    let o = validate(
        kind,
        semantics,
        label,
        schema,
        rule,
        &mut path,
        &mut scratch,
    );
    write_line(
        o.number,
        o.family,
        o.detail,
        o.place,
        o.over_place,
        o.passed,
        o.path_length,
        &path,
        out,
    )
}

// Writes what is printed at the start of `out`, and returns how many bytes that is. 32,835 bytes are room enough; what does not fit
// is left out.
pub fn output(file: &[u8], out: &mut [u8]) -> usize
    ensures { Printed (output_of file.now) out.old out.new result }
{
    let Some(p) = take_apart(file) else {
        return 0;
    };
    answer(
        p.kind,
        p.semantics,
        bytes_of(file, p.label),
        bytes_of(file, p.schema),
        bytes_of(file, p.rule),
        out,
    )
}
