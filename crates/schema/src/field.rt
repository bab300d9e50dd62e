// A schema sheet, read from left to right: fields within fields by recursion, siblings by a loop, so that the stack goes as deep as the fields nest.
ghost use Rattle.std.specs.Prelude.{◌≡◌};
ghost use Rattle.text.specs.Parts.{part_of};
ghost use Rattle.text.specs.Order.{follows};
ghost use Rattle.definition.specs.Decode.{to_count};
ghost use Rattle.schema.specs.Fields.{Ready, FieldAnswer, ItemsAnswer, MembersAnswer, cursor_of, name_before};

use crate::index::{MAX_SLOTS, name_of_slot, put_slot, to_count};
use std::cmp::Ordering;
use text::part::Part;

// Where reading is: the next entry's number, how many slots are in use, and the next byte.
#[derive(Clone, Copy)]
pub struct Cursor {
    pub next: usize,
    pub used: usize,
    pub at: usize,
}

// A field, with all that lies below it, into `slot`. What lies below it takes the slots that follow those in use.
// Its name, and where its last entry ends.
#[cycle(read_element_read_field_read_members)]
fn read_field(
    sheet: &[u8],
    words: &mut [u32],
    depth: usize,
    slot: usize,
    from: Cursor,
) -> Option<(Part, Cursor)>
    requires { Ready sheet.now words.old from slot 1 }
    ensures { FieldAnswer sheet.now words.old words.new depth slot from result }
{
    if depth == 0 {
        return None;
    }
    let at = from.at;
    let low = from.used;
    let (head, end) = lines::schema_sheet::field_head(sheet, at)?;
    let elements = to_count(head.items);
    let announced = elements + head.count;
    if MAX_SLOTS - low < announced {
        return None;
    }
    let name = head.name;
    put_slot(words, slot, at, from.next, low, name);
    let inner = Cursor {
        next: from.next + 1,
        used: low + announced,
        at: end,
    };
    // Most fields have nothing below them: these need no call.
    if announced == 0 {
        return Some((name, inner));
    }
    let behind = read_element(sheet, words, depth - 1, head.items, low, inner)?;
    let to = read_members(
        sheet,
        words,
        depth - 1,
        low + elements,
        head.count,
        behind.next,
        behind.used,
        behind.at,
    )?;
    Some((name, to))
}

// The element, if there is one: it has no name. It is read as one sibling, so that `read_field` has one caller and is built into it. Where its last entry ends.
#[cycle(read_element_read_field_read_members)]
fn read_element(
    sheet: &[u8],
    words: &mut [u32],
    depth: usize,
    has: bool,
    slot: usize,
    from: Cursor,
) -> Option<Cursor>
    requires { Ready sheet.now words.old from slot (to_count has) }
    ensures { ItemsAnswer sheet.now words.old words.new depth has slot from result }
{
    if has {
        let to = read_members(sheet, words, depth, slot, 1, from.next, from.used, from.at)?;
        let name = name_of_slot(words, slot);
        if text::part::bytes_of(sheet, name).len() == 0 {
            return Some(to);
        }
        return None;
    }
    Some(from)
}

// Whether a name may come after that of the sibling before it, if there is one.
fn rises(sheet: &[u8], i: usize, before: Part, name: Part) -> bool
    ensures { result ≡ follows (name_before sheet.now i before) (part_of sheet.now name) }
{
    if i == 0 {
        return true;
    }
    match text::order::compare(
        text::part::bytes_of(sheet, before),
        text::part::bytes_of(sheet, name),
    ) {
        Ordering::Less => true,
        Ordering::Equal => false,
        Ordering::Greater => false,
    }
}

// Siblings, as many as announced: their names rise. The place goes by three numbers: a structure would be copied by sixteen bytes, which waits for
// what was just stored by eights. Where the last entry ends.
#[cycle(read_element_read_field_read_members)]
pub fn read_members(
    sheet: &[u8],
    words: &mut [u32],
    depth: usize,
    first: usize,
    count: usize,
    next: usize,
    used: usize,
    at: usize,
) -> Option<Cursor>
    requires { Ready sheet.now words.old (cursor_of next used at) first count }
    ensures { MembersAnswer sheet.now words.old words.new depth first count (cursor_of next used at) result }
{
    let mut to = Cursor { next, used, at };
    let mut before = Part { start: 0, len: 0 };
    for i in 0..count {
        let (name, behind) = read_field(sheet, words, depth, first + i, to)?;
        if !rises(sheet, i, before, name) {
            return None;
        }
        // Field by field: a copy of the whole waits for what was just stored.
        before = Part {
            start: name.start,
            len: name.len,
        };
        to = Cursor {
            next: behind.next,
            used: behind.used,
            at: behind.at,
        };
    }
    Some(to)
}
