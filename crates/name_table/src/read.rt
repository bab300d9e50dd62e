// A table, entry by entry: its form, both conditions, and the row of one kind.
ghost use Rattle.std.specs.Prelude.{cond, ◌&&◌, ◌≡◌};
ghost use Rattle.reference.specs.Table.{is_sound};
ghost use Rattle.scope.specs.Names.{row_by};
ghost use Rattle.name_table.specs.Tables.{MarksAre, RowIs, TableIs, LentIs};

use scope::name::{Row, stock_row};
use sheet::entry;

// How long a table is.
pub const TABLE_BYTES: usize = 176;

// How many kinds of rules and templates there are.
pub const KINDS: u32 = 8;

// Nine marks, in the order of the names: the row, and the place after them.
fn row_marks(s: &[u8], at: usize) -> Option<(Row, usize)>
    ensures { MarksAre s.now at result }
{
    let (id, a) = entry::mark(s, at)?;
    let (entity, b) = entry::mark(s, a)?;
    let (version, c) = entry::mark(s, b)?;
    let (fields, d) = entry::mark(s, c)?;
    let (state, e) = entry::mark(s, d)?;
    let (target, f) = entry::mark(s, e)?;
    let (source, g) = entry::mark(s, f)?;
    let (args, h) = entry::mark(s, g)?;
    let (old, end) = entry::mark(s, h)?;
    let row = Row {
        id,
        entity,
        version,
        fields,
        state,
        target,
        source,
        args,
        old,
    };
    Some((row, end))
}

// The entry of a kind: `N`, its number and its marks. The row, and the place after the entry.
fn table_entry(s: &[u8], at: usize, kind: u32) -> Option<(Row, usize)>
    ensures { RowIs s.now at kind result }
{
    if text::starts_with(s, at, b'N') {
        let (_, behind) = entry::item(s, at + 1, kind, kind)?;
        let (row, end) = row_marks(s, behind)?;
        if text::starts_with(s, end, b'\n') {
            return Some((row, end + 1));
        }
    }
    None
}

// `$id`, `$entity` and `$version` may be read, and `$old_fields` only where `$fields` may.
fn is_sound(row: Row) -> bool
    ensures { result ≡ is_sound (row_by row) }
{
    if row.id {
        if row.entity {
            if row.version {
                return if row.old { row.fields } else { true };
            }
        }
    }
    false
}

fn pick(here: bool, read: Row, row: Row) -> Row
    ensures { result ≡ cond here read row }
{
    if here { read } else { row }
}

fn both(a: bool, b: bool) -> bool
    ensures { result ≡ (a && b) }
{
    a && b
}

// A table of that form and nothing after it: the row of a kind, and whether both conditions hold of every row.
pub fn read_table(s: &[u8], kind: u32) -> Option<(Row, bool)>
    ensures { TableIs s.now kind result }
{
    let mut row = stock_row(kind as usize);
    let mut sound = true;
    let mut at = 0;
    for next in 1..KINDS + 1 {
        let (read, end) = table_entry(s, at, next)?;
        row = pick(next == kind, read, row);
        sound = both(sound, is_sound(read));
        at = end;
    }
    if at == s.len() {
        return Some((row, sound));
    }
    None
}

// The table that a call is lent: the stock table where there are no bytes, else what the first 176 hold.
pub fn lent_table(s: &[u8], kind: u32) -> Option<(Row, bool)>
    ensures { LentIs s.now kind result }
{
    if s.len() == 0 {
        return Some((stock_row(kind as usize), true));
    }
    if s.len() < TABLE_BYTES {
        return read_table(s, kind);
    }
    read_table(&s[0..TABLE_BYTES], kind)
}
