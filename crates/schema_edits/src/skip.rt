// Over a field and all that is below it, by the heads of the entries alone: the sheet is known to be well formed.
ghost use Rattle.std.specs.Prelude.{◌≡◌, ◌≤◌, length};
ghost use Rattle.definition.specs.Decode.{to_count};
ghost use Rattle.definition.specs.Limits.{max_sheet_bytes};
ghost use Rattle.schema_edits.specs.Forest.{SkippedTo};

use sheet::schema_heads::known_field;

fn to_count(has: bool) -> usize
    ensures { (result ≡ to_count has) × (result ≤ 1) }
{
    if has { 1 } else { 0 }
}

// Where the field at `at` ends.
pub fn skip_field(s: &[u8], at: usize) -> usize
    requires { length s.now ≤ max_sheet_bytes }
    ensures { SkippedTo s.now at result }
{
    let mut pending: usize = 1;
    let mut next = at;
    while 0 < pending {
        let Some((head, end)) = known_field(s, next) else {
            return s.len();
        };
        pending = pending - 1 + to_count(head.items) + head.count;
        next = end;
    }
    next
}
