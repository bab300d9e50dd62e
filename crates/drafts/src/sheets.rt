// The schema and the rules together: read, and checked.
ghost use Rattle.std.specs.Prelude.{◌*◌, ◌/◌, ◌≤◌, length};
ghost use Rattle.validation.specs.Result.{scratch_words};
ghost use Rattle.drafts.specs.Lent.{rules_lent};
ghost use Rattle.drafts.specs.Reading.{SheetsRead, SheetsChecked};

use crate::checked::check_marked;
use crate::marks::read_rules;
use schema::read::read_schema;

// 4 or 5 where a sheet is not well formed, or 0; then the rules that mention the name are marked.
pub fn read_sheets(
    heads: &[u8],
    texts: &[u8],
    name: &[u8],
    schema: &[u8],
    marks: &mut [u8],
    scratch: &mut [u32],
) -> u32
    requires { (length heads.now / 16 ≤ length marks.old) × (scratch_words ≤ length scratch.old) }
    ensures { SheetsRead name.now (rules_lent heads.now texts.now) schema.now marks.old marks.new scratch.old scratch.new result }
{
    let Some(_) = read_schema(schema, scratch) else {
        return 4;
    };
    if read_rules(heads, texts, name, marks, scratch) {
        return 0;
    }
    5
}

// Checks the rules that are marked.
pub fn check_sheets(
    heads: &[u8],
    texts: &[u8],
    table: &[u8],
    schema: &[u8],
    marks: &[u8],
    records: &mut [u8],
    path: &mut [u8],
    scratch: &mut [u32],
)
    requires { (length heads.now / 16 ≤ length marks.now) × (28 * (length heads.now / 16) ≤ length records.old) × (scratch_words ≤ length scratch.old) }
    ensures { SheetsChecked (rules_lent heads.now texts.now) table.now schema.now marks.now records.old records.new path.old path.new scratch.old scratch.new }
{
    let read = read_schema(schema, scratch);
    check_marked(
        heads, texts, table, schema, read, marks, records, path, scratch,
    );
}
