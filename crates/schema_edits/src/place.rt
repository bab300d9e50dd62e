// Where a field is in a schema sheet that is known to be well formed, or belongs, by its name.
ghost use Rattle.std.specs.Prelude.{◌≤◌, length};
ghost use Rattle.definition.specs.Limits.{max_sheet_bytes};
ghost use Rattle.schema_edits.specs.Place.{NameOf, PlaceIs, PlaceOf};

use crate::skip::skip_field;
use definition::limits::MAX_SHEET_BYTES;
use sheet::schema_heads::{known_field, schema_head};
use std::cmp::Ordering;
use text::order::compare;
use text::part::bytes_of;

// The place of a name among the `count` fields from `start` on, whose names rise: the field's first byte and the byte after it, or where it belongs.
fn find_place(s: &[u8], start: usize, count: usize, name: &[u8]) -> Result<(usize, usize), usize>
    requires { length s.now ≤ max_sheet_bytes }
    ensures { PlaceIs s.now start count name.now result }
{
    let mut at = start;
    for _ in 0..count {
        let Some((head, _)) = known_field(s, at) else {
            return Err(at);
        };
        let part = head.name;
        match compare(bytes_of(s, part), name) {
            Ordering::Less => {
                at = skip_field(s, at);
            }
            Ordering::Equal => {
                let end = skip_field(s, at);
                return Ok((at, end));
            }
            Ordering::Greater => {
                return Err(at);
            }
        }
    }
    Err(at)
}

// Where the record's field of that name is, or belongs.
pub fn place_of(s: &[u8], name: &[u8]) -> Result<(usize, usize), usize>
    ensures { PlaceOf s.now name.now result }
{
    if MAX_SHEET_BYTES < s.len() {
        return Err(0);
    }
    let Some((head, start)) = schema_head(s, 0) else {
        return Err(0);
    };
    find_place(s, start, head.fields.count, name)
}

// The name of a field that is lent.
pub fn field_name(field: &[u8]) -> &[u8]
    ensures { NameOf field.now result.now }
{
    let Some((head, _)) = known_field(field, 0) else {
        return field;
    };
    let part = head.name;
    bytes_of(field, part)
}
