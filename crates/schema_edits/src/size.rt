// Whether a schema sheet would be too large with one field more.
ghost use Rattle.schema_edits.specs.Size.{SizeIs};

use crate::count::{count_entries, digits};
use definition::limits::{MAX_SCHEMA_ENTRIES, MAX_SHEET_BYTES};
use sheet::schema_heads::schema_head;

// The head's count may get a digit more.
pub fn is_too_large(s: &[u8], field: &[u8]) -> bool
    ensures { SizeIs s.now field.now result }
{
    if MAX_SHEET_BYTES < s.len() {
        return true;
    }
    if MAX_SHEET_BYTES < field.len() {
        return true;
    }
    let Some((head, start)) = schema_head(s, 0) else {
        return true;
    };
    let count = head.fields.count;
    if MAX_SCHEMA_ENTRIES < 1 + count_entries(s, start) + count_entries(field, 0) {
        return true;
    }
    MAX_SHEET_BYTES + digits(count) < s.len() + field.len() + digits(count + 1)
}
