// Going through a sheet entry by entry.
ghost use Rattle.std.specs.Prelude.{◌+◌, ◌≤◌, ◌≡◌};
ghost use Rattle.sheet.specs.Entries.{max_count};
ghost use Rattle.definition.specs.Decode.{to_count};
ghost use Rattle.schema_change.specs.Places.{Within, EnteredIs, SkipsTo};

use sheet::schema_heads::{FieldHead, known_field};

// Where reading is in a sheet: the next entry's number, and its first byte.
#[derive(Clone, Copy)]
pub struct Place {
    pub entry: u32,
    pub at: usize,
}

// A field's entry that was read: its number, what it says, and the place after it.
#[derive(Clone, Copy)]
pub struct FieldEntry {
    pub number: u32,
    pub head: FieldHead,
    pub next: Place,
}

// The field's entry at a place, if one is there.
pub fn enter(s: &[u8], p: Place) -> Option<FieldEntry>
    requires { Within s.now p }
    ensures { EnteredIs s.now p result }
{
    let (head, at) = known_field(s, p.at)?;
    let number = p.entry;
    let entry = number + 1;
    let next = Place { entry, at };
    Some(FieldEntry { number, head, next })
}

// How many entries a head announces.
fn announced(head: FieldHead) -> usize
    requires { head.count ≤ max_count }
    ensures { result ≡ to_count head.items + head.count }
{
    if head.items {
        1 + head.count
    } else {
        head.count
    }
}

// The place after all that lies below a field.
pub fn skip_below(s: &[u8], x: FieldEntry) -> Place
    requires { Within s.now x.next × (x.head.count ≤ max_count) }
    ensures { Within s.now result × SkipsTo s.now x result }
{
    let head = x.head;
    let mut here = x.next;
    let mut left = announced(head);
    while left != 0 {
        let Some(below) = enter(s, here) else {
            return here;
        };
        let more = below.head;
        here = below.next;
        left = left - 1 + announced(more);
    }
    here
}
