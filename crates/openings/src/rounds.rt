// The search for the marks: the rule is checked again and again, and each time the mark of the field that refused is opened.
ghost use Rattle.std.specs.Prelude.{◌≡◌, ◌≤◌, length};
ghost use Rattle.validation.specs.Openings.{max_marks};
ghost use Rattle.validation.specs.Result.{scratch_words};
ghost use Rattle.value_checks.specs.Verdicts.{refused_at};
ghost use Rattle.single_check.specs.Settings.{setting_by};
ghost use Rattle.openings.specs.Rounds.{RoundJudged, MarksFound};

use condition_checks::rules::judge;
use definition::limits::MAX_SCHEMA_ENTRIES;
use open_marks::open_mark;
use schema::read::{Schema, read_schema};
use scope::binder::unbound;
use single_check::settings::Setting;
use value_checks::verdict::Fault;
use walk::answer::Reader;

// Those of the entries, and that of the arguments.
pub const MAX_MARKS: usize = MAX_SCHEMA_ENTRIES + 1;

fn refused_at(fault: Fault) -> usize
    ensures { result ≡ refused_at fault }
{
    match fault {
        Fault::Name => 0,
        Fault::Message => 0,
        Fault::Deep => 0,
        Fault::Literal => 0,
        Fault::Operator => 0,
        Fault::Empty => 0,
        Fault::Operand(_) => 0,
        Fault::Reference(_, at) => at,
        Fault::Affix => 0,
        Fault::Instant(_) => 0,
        Fault::Bind => 0,
        Fault::Collection(_, at) => at,
    }
}

// Checks the rule under the schema as it is now. A refusal is the entry of the field that refused; 1 is the record, 0 the arguments or no field at all.
fn check_round(
    setting: Setting,
    s: Schema,
    rule: &[u8],
    sheet: &[u8],
    words: &[u32],
) -> Result<(), usize>
    ensures { RoundJudged (setting_by setting) s rule.now sheet.now words.now result }
{
    let scope = unbound(setting.row, setting.service, Reader::Kernel, s);
    let a = judge(sheet, rule, words, scope);
    let verdict = a.verdict;
    let Err((fault, _, _)) = verdict else {
        return Ok(());
    };
    Err(refused_at(fault))
}

// Opens marks of the schema until the rule is accepted, and marks their entries; false where no marks help. A mark that is opened in vain is found again in the next
// round.
pub fn find_marks(
    setting: Setting,
    first: Schema,
    rule: &[u8],
    sheet: &mut [u8],
    marks: &mut [u8],
    words: &mut [u32],
) -> bool
    requires { (length marks.old ≡ max_marks) × (scratch_words ≤ length words.old) }
    ensures { MarksFound (setting_by setting) first rule.now sheet.old marks.old marks.new words.old words.new result }
{
    let mut s = first;
    for _ in 0..MAX_MARKS + 1 {
        let Err(at) = check_round(setting, s, rule, sheet, words) else {
            return true;
        };
        if MAX_SCHEMA_ENTRIES < at {
            return false;
        }
        if marks[at] != 0 {
            return false;
        }
        marks[at] = 1;
        open_mark(sheet, at);
        let Some(next) = read_schema(sheet, words) else {
            return false;
        };
        s = next;
    }
    false
}
