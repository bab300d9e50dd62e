// The slots of the index: two words for each field, after the words of a rule.
ghost use Rattle.std.specs.Prelude.{◌≡◌, ◌/◌, get_or};
ghost use Rattle.definition.specs.Limits.{word_entries};
ghost use Rattle.definition.specs.Decode.{to_count};
ghost use Rattle.schema.specs.Index.{place_word, name_word, slot_name};
ghost use Rattle.schema.specs.Fields.{SlotFits, SlotPut};
ghost use Rattle.schema.specs.Slot.{element_from, IndexedIs};
ghost use Rattle.sheet.specs.Places.{KnownFieldIs};

use definition::limits::{MAX_RULE_ENTRIES, MAX_SCHEMA_ENTRIES, WORD_ENTRIES};
use sheet::schema_heads::FieldHead;
use text::part::Part;

// Every entry but the sheet's head has a slot.
pub const MAX_SLOTS: usize = MAX_SCHEMA_ENTRIES - 1;

// The words before this one are a rule's.
pub const FIRST_WORD: usize = MAX_RULE_ENTRIES;

// A name begins less than so many bytes after the start of its entry.
const PREFIX_END: usize = 32;

// What a name's length is multiplied by in a slot's second word.
const LENGTH_UNIT: usize = WORD_ENTRIES * PREFIX_END;

// The members of the record, of the arguments or of a field: the slot of the first, and how many there are.
#[derive(Clone, Copy)]
pub struct Holder {
    pub opened: bool,
    pub first: usize,
    pub count: usize,
}

// What a slot says of its field.
#[derive(Clone, Copy)]
pub struct IndexedField {
    pub entry: usize,
    pub kind: usize,
    pub tag: Option<Part>,
    // The slot of its element.
    pub element: Option<usize>,
    pub members: Holder,
}

// The word at `i`, 0 past the end.
fn word_at(words: &[u32], i: usize) -> u32
    ensures { result ≡ get_or words.now i 0 }
{
    if i < words.len() { words[i] } else { 0 }
}

// Where the entry of slot `k` starts, times 4,096, and its number.
fn place_word(words: &[u32], k: usize) -> u32
    ensures { result ≡ place_word words.now k }
{
    if words.len() <= k {
        return 0;
    }
    word_at(words, FIRST_WORD + 2 * k)
}

// The slot of the first child of slot `k`, how far after the start of its entry its name begins, times 4,096, and the name's length, times
// 131,072.
fn name_word(words: &[u32], k: usize) -> u32
    ensures { result ≡ name_word words.now k }
{
    if words.len() <= k {
        return 0;
    }
    word_at(words, FIRST_WORD + 2 * k + 1)
}

// Where the name of the field in slot `k` is, found without reading its entry.
pub fn name_of_slot(words: &[u32], k: usize) -> Part
    ensures { result ≡ slot_name words.now k }
{
    let place = place_word(words, k) as usize;
    let more = name_word(words, k) as usize;
    Part {
        start: place / WORD_ENTRIES + more / WORD_ENTRIES % PREFIX_END,
        len: more / LENGTH_UNIT,
    }
}

pub fn put_slot(words: &mut [u32], k: usize, start: usize, entry: usize, child: usize, name: Part)
    requires { SlotFits words.old k start entry child name }
    ensures { SlotPut words.old words.new k start entry child name }
{
    let i = FIRST_WORD + 2 * k;
    let prefix = name.start - start;
    words[i] = (start * WORD_ENTRIES + entry) as u32;
    words[i + 1] = (name.len * LENGTH_UNIT + prefix * WORD_ENTRIES + child) as u32;
}

// The entry of slot `k`, read again: the head, and the place after the entry.
fn head_of(sheet: &[u8], words: &[u32], k: usize) -> Option<(FieldHead, usize)>
    ensures { KnownFieldIs sheet.now (place_word words.now k / word_entries) result }
{
    let start = place_word(words, k) as usize / WORD_ENTRIES;
    sheet::schema_heads::known_field(sheet, start)
}

pub fn to_count(is: bool) -> usize
    ensures { result ≡ to_count is }
{
    if is { 1 } else { 0 }
}

// The slot of a field's element, if it has one.
fn element_at(has: bool, k: usize) -> Option<usize>
    ensures { result ≡ element_from has k }
{
    if has { Some(k) } else { None }
}

// A field of no kind and without members, for a slot that holds none.
fn no_field() -> IndexedField {
    let members = Holder {
        opened: false,
        first: 0,
        count: 0,
    };
    let tag = None;
    let element = None;
    IndexedField {
        entry: 0,
        kind: 0,
        tag,
        element,
        members,
    }
}

// The field that slot `k` holds.
pub fn indexed_field(sheet: &[u8], words: &[u32], k: usize) -> IndexedField
    ensures { IndexedIs sheet.now words.now k result }
{
    let Some((head, _)) = head_of(sheet, words, k) else {
        return no_field();
    };
    let first = name_word(words, k) as usize % WORD_ENTRIES;
    let tag = head.tag;
    let element = element_at(head.items, first);
    let members = Holder {
        opened: head.opened,
        first: first + to_count(head.items),
        count: head.count,
    };
    IndexedField {
        entry: place_word(words, k) as usize % WORD_ENTRIES,
        kind: head.kind,
        tag,
        element,
        members,
    }
}
