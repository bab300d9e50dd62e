// The rules of a draft one by one: whether all are well formed, which of them mention a field, and the records of those that do.
ghost use Rattle.std.specs.Prelude.{◌≡◌, ◌/◌, ◌≤◌, length};
ghost use Rattle.definition.specs.Limits.{max_rule_entries};
ghost use Rattle.drafts.specs.Lent.{rules_lent};
ghost use Rattle.drafts.specs.Reading.{mark_of, RulesRead, RecordPut, RuleChecked};

use crate::lent::{HEAD_BYTES, Lent, lent_at};
use crate::mention::mentions;
use buffer::put_numbers;
use rule::read_rule;
use schema::read::Schema;
use single_check::outcome::Outcome;
use single_check::settings::settle;
use single_check::sheets::{Takes, check_sheet};

fn mark_of(b: bool) -> u8
    ensures { result ≡ mark_of b }
{
    if b { 1 } else { 0 }
}

// Whether every rule is well formed; if so, those that mention the name are marked.
pub fn read_rules(
    heads: &[u8],
    texts: &[u8],
    name: &[u8],
    marks: &mut [u8],
    scratch: &mut [u32],
) -> bool
    requires { (length heads.now / 16 ≤ length marks.old) × (max_rule_entries ≤ length scratch.old) }
    ensures { RulesRead name.now (rules_lent heads.now texts.now) marks.old marks.new scratch.old scratch.new result }
{
    let count = heads.len() / HEAD_BYTES;
    let mut at: usize = 0;
    for i in 0..count {
        let l = lent_at(heads, texts, i, at);
        let middle = l.middle;
        let end = l.end;
        let sheet = &texts[middle..end];
        let Some(r) = read_rule(sheet, scratch) else {
            return false;
        };
        marks[i] = mark_of(mentions(sheet, scratch, r.is_template, r.entries, name));
        at = end;
    }
    true
}

fn put_record(o: Outcome, records: &mut [u8], at: usize)
    ensures { RecordPut o records.old records.new at }
{
    let numbers = [
        o.number,
        o.family,
        o.detail,
        o.place,
        o.over_place,
        o.passed,
        o.path_length,
    ];
    put_numbers(records, at, &numbers);
}

// Checks a rule whose texts begin at `start` under a schema that has been read into the scratch, and puts its record at `place`.
pub fn check_rule(
    l: Lent,
    texts: &[u8],
    start: usize,
    table: &[u8],
    schema: &[u8],
    read: Option<Schema>,
    records: &mut [u8],
    place: usize,
    path: &mut [u8],
    scratch: &mut [u32],
)
    requires { (start ≤ l.middle) × (l.middle ≤ l.end) × (l.end ≤ length texts.now) × (max_rule_entries ≤ length scratch.old) }
    ensures { RuleChecked l texts.now start table.now schema.now read records.old records.new place path.old path.new scratch.old scratch.new }
{
    let Ok(setting) = settle(l.kind, l.semantics, table) else {
        return;
    };
    let middle = l.middle;
    let end = l.end;
    let label = &texts[start..middle];
    let sheet = &texts[middle..end];
    let o = check_sheet(
        Takes::Any,
        setting,
        label,
        schema,
        read,
        sheet,
        path,
        scratch,
    );
    put_record(o, records, place);
}
