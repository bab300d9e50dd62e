// The entries of a schema sheet.
ghost use Rattle.std.specs.Prelude.{◌≡◌};
ghost use Rattle.sheet.specs.Places.{HolderIs, ArgumentsAre, SchemaIs, FieldMarksAre, FieldTextsAre, FieldIs, tag_at, tag_bytes, KnownFieldIs};

use crate::entry;
use crate::entry::{MAX_COUNT, MAX_TEXT};
use text::part::Part;

// The kinds of fields that a walk tells apart; docs/FORMAT.md, "The schema sheet".
pub const STRING: usize = 1;

pub const ARRAY: usize = 6;

pub const OBJECT: usize = 7;

pub const JSON: usize = 8;

pub const MAP: usize = 10;

pub const UNION: usize = 11;

// Numbers go from 1 to this one, `binary64`.
const KIND_COUNT: u32 = 12;

// The open mark and the field count of the record or of the arguments.
#[derive(Clone, Copy)]
pub struct HolderHead {
    pub opened: bool,
    pub count: usize,
}

#[derive(Clone, Copy)]
pub struct SchemaHead {
    pub fields: HolderHead,
    pub arguments: Option<HolderHead>,
}

#[derive(Clone, Copy)]
pub struct FieldMarks {
    pub kind: usize,
    pub opened: bool,
    // Whether an element follows.
    pub items: bool,
    // How many fields follow below this one.
    pub count: usize,
}

#[derive(Clone, Copy)]
pub struct FieldTexts {
    pub name: Part,
    pub tag: Option<Part>,
}

#[derive(Clone, Copy)]
pub struct FieldHead {
    pub kind: usize,
    pub opened: bool,
    // Whether an element follows.
    pub items: bool,
    // How many fields follow below this one.
    pub count: usize,
    pub name: Part,
    pub tag: Option<Part>,
}

// The fields of an entry that say what a record or the arguments hold, and the place after them.
fn holder_head(s: &[u8], at: usize) -> Option<(HolderHead, usize)>
    ensures { HolderIs s.now at result }
{
    let (opened, behind) = entry::mark(s, at)?;
    let (count, next) = entry::item(s, behind, 0, MAX_COUNT)?;
    Some((HolderHead { opened, count }, next))
}

// The same of the arguments, which may be absent.
fn arguments_head(s: &[u8], at: usize) -> Option<(Option<HolderHead>, usize)>
    ensures { ArgumentsAre s.now at result }
{
    if entry::is_dashed(s, at) {
        let (_, next) = entry::item(s, at + 2, 0, 0)?;
        return Some((None, next));
    }
    let (head, next) = holder_head(s, at)?;
    Some((Some(head), next))
}

// The sheet's first entry: the head, and the place after the entry, as by each reader of a head here.
pub fn schema_head(s: &[u8], at: usize) -> Option<(SchemaHead, usize)>
    ensures { SchemaIs s.now at result }
{
    if text::starts_with(s, at, b'H') {
        let (fields, behind) = holder_head(s, at + 1)?;
        let (arguments, end) = arguments_head(s, behind)?;
        if text::starts_with(s, end, b'\n') {
            return Some((SchemaHead { fields, arguments }, end + 1));
        }
    }
    None
}

// A field's entry up to its count: the marks, and the place after them.
fn field_marks(s: &[u8], at: usize) -> Option<(FieldMarks, usize)>
    ensures { FieldMarksAre s.now at result }
{
    let (kind, a) = entry::first(s, at, b'F', 1, KIND_COUNT)?;
    let (opened, b) = entry::mark(s, a)?;
    let (items, c) = entry::mark(s, b)?;
    let (count, next) = entry::item(s, c, 0, MAX_COUNT)?;
    Some((
        FieldMarks {
            kind,
            opened,
            items,
            count,
        },
        next,
    ))
}

// A field's entry after its count: the texts, and the place after the entry.
fn field_texts(s: &[u8], at: usize) -> Option<(FieldTexts, usize)>
    ensures { FieldTextsAre s.now at result }
{
    let (len, a) = entry::item(s, at, 0, MAX_TEXT)?;
    let (tag_len, b) = entry::text_length(s, a)?;
    if text::starts_with(s, b, b',') {
        let start = b + 1;
        if entry::is_text(s, start, len) {
            let (tag, end) = entry::optional_text(s, start + len, tag_len)?;
            if text::starts_with(s, end, b'\n') {
                let name = Part { start, len };
                return Some((FieldTexts { name, tag }, end + 1));
            }
        }
    }
    None
}

// A field's entry. The marks are read here and not by `field_marks`: that has one caller then, and both are built into theirs.
pub fn field_head(s: &[u8], at: usize) -> Option<(FieldHead, usize)>
    ensures { FieldIs s.now at result }
{
    let (kind, after) = entry::first(s, at, b'F', 1, KIND_COUNT)?;
    let (opened, b) = entry::mark(s, after)?;
    let (items, c) = entry::mark(s, b)?;
    let (count, behind) = entry::item(s, c, 0, MAX_COUNT)?;
    let (texts, next) = field_texts(s, behind)?;
    let name = texts.name;
    let tag = texts.tag;
    Some((
        FieldHead {
            kind,
            opened,
            items,
            count,
            name,
            tag,
        },
        next,
    ))
}

// A tag of that length whose first byte is at `at`.
fn tag_at(at: usize, len: Option<usize>) -> Option<Part>
    ensures { result ≡ tag_at at len }
{
    match len {
        Some(n) => Some(Part { start: at, len: n }),
        None => None,
    }
}

// How many bytes a tag of that length takes.
fn tag_bytes(len: Option<usize>) -> usize
    ensures { result ≡ tag_bytes len }
{
    match len {
        Some(n) => n,
        None => 0,
    }
}

// An entry that was read before: its texts are known to be UTF-8 and are not looked at again.
pub fn known_field(s: &[u8], at: usize) -> Option<(FieldHead, usize)>
    ensures { KnownFieldIs s.now at result }
{
    let (marks, a) = field_marks(s, at)?;
    let (len, b) = entry::item(s, a, 0, MAX_TEXT)?;
    let (tag_len, c) = entry::text_length(s, b)?;
    let start = c + 1;
    let end = start + len;
    let bytes = tag_bytes(tag_len);
    if s.len() <= end {
        return None;
    }
    if s.len() - end <= bytes {
        return None;
    }
    let name = Part { start, len };
    let tag = tag_at(end, tag_len);
    let head = FieldHead {
        kind: marks.kind,
        opened: marks.opened,
        items: marks.items,
        count: marks.count,
        name,
        tag,
    };
    Some((head, end + bytes + 1))
}
