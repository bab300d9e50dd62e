// The answer about two sheets that are well formed: the check list's verdict, and the path of a defect.
ghost use Rattle.single_check.specs.Settings.{setting_by};
ghost use Rattle.single_check.specs.Answers.{Narrow, Answered};

use crate::finding::{family_in, find, over_place};
use crate::outcome::{Outcome, accepted};
use crate::settings::Setting;
use condition_checks::rules::judge;
use defect_path::write_path;
use schema::read::Schema;
use scope::binder::unbound;
use walk::answer::Reader;

// Entries, counts and lengths are small.
fn narrow(n: usize) -> u32
    ensures { Narrow n result }
{
    if n < 4294967296 { n as u32 } else { 0 }
}

pub fn answer(
    setting: Setting,
    label: &[u8],
    schema: &[u8],
    rule: &[u8],
    s: Schema,
    words: &[u32],
    path: &mut [u8],
) -> Outcome
    ensures { Answered (setting_by setting) label.now schema.now rule.now s words.now path.old path.new result }
{
    let scope = unbound(setting.row, setting.service, Reader::Kernel, s);
    let a = judge(schema, rule, words, scope);
    let passed = narrow(a.passed);
    let verdict = a.verdict;
    let Err((fault, entry, over)) = verdict else {
        return accepted(passed);
    };
    let f = find(setting.rule_kind, fault);
    let number = f.number;
    let place = narrow(entry);
    let length = write_path(label, rule, words, number, place, path);
    Outcome {
        number,
        family: family_in(over, f.family),
        detail: f.detail,
        place,
        over_place: narrow(over_place(over, f.family)),
        passed,
        path_length: narrow(length),
    }
}
