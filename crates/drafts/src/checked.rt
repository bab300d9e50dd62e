// The records of the rules that are marked.
ghost use Rattle.std.specs.Prelude.{◌*◌, ◌/◌, ◌≤◌, length};
ghost use Rattle.definition.specs.Limits.{max_rule_entries};
ghost use Rattle.drafts.specs.Lent.{rules_lent};
ghost use Rattle.drafts.specs.Reading.{MarkedChecked};

use crate::lent::{HEAD_BYTES, lent_at};
use crate::marks::check_rule;
use crate::refusals::RECORD_BYTES;
use schema::read::Schema;

// Checks the rules that are marked, under a schema that has been read into the scratch.
pub fn check_marked(
    heads: &[u8],
    texts: &[u8],
    table: &[u8],
    schema: &[u8],
    read: Option<Schema>,
    marks: &[u8],
    records: &mut [u8],
    path: &mut [u8],
    scratch: &mut [u32],
)
    requires { (length heads.now / 16 ≤ length marks.now) × (28 * (length heads.now / 16) ≤ length records.old) × (max_rule_entries ≤ length scratch.old) }
    ensures { MarkedChecked (rules_lent heads.now texts.now) table.now schema.now read marks.now records.old records.new path.old path.new scratch.old scratch.new }
{
    let count = heads.len() / HEAD_BYTES;
    let mut at: usize = 0;
    for i in 0..count {
        let l = lent_at(heads, texts, i, at);
        let start = at;
        at = l.end;
        if marks[i] != 0 {
            let place = RECORD_BYTES * i;
            check_rule(
                l, texts, start, table, schema, read, records, place, path, scratch,
            );
        }
    }
}
