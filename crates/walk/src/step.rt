// One segment of a reference, as `walk_field_path` takes it.
ghost use Rattle.std.specs.Prelude.{◌≡◌};
ghost use Rattle.text.specs.Order.{same_bytes};
ghost use Rattle.text.specs.Parts.{optional_of};
ghost use Rattle.reference.specs.Walk.{is_tag, content_key};
ghost use Rattle.walk.specs.Answers.{reader_is};
ghost use Rattle.walk.specs.Steps.{ItemSteps, ArraySteps, MapSteps, UnionSteps, MemberSteps, TextSteps, ScalarSteps, ServiceSteps, WalkSteps};

use crate::answer::{Reader, ReferenceFault, WalkStep};
use crate::path::{is_count, is_ordinal};
use schema::index::{Holder, IndexedField};
use schema::lookup::lookup;
use sheet::schema_heads::{ARRAY, JSON, MAP, OBJECT, STRING, UNION};
use text::order::same_bytes;
use text::part::{Part, bytes_of};

// An element that the schema does not declare may be anything.
fn item_step(element: Option<usize>) -> WalkStep
    ensures { ItemSteps element result }
{
    match element {
        Some(slot) => WalkStep::Into(slot),
        None => WalkStep::Free,
    }
}

fn array_step(element: Option<usize>, segment: &[u8]) -> WalkStep
    ensures { ArraySteps element segment.now result }
{
    if is_count(segment) {
        return WalkStep::Leaf(ReferenceFault::AfterCount);
    }
    if is_ordinal(segment) {
        return item_step(element);
    }
    WalkStep::Refuse(ReferenceFault::ArrayMember)
}

fn map_step(segment: &[u8]) -> WalkStep
    ensures { MapSteps segment.now result }
{
    if is_count(segment) {
        return WalkStep::Leaf(ReferenceFault::AfterCount);
    }
    WalkStep::Refuse(ReferenceFault::MapMember)
}

fn is_tag(schema: &[u8], tag: Option<Part>, segment: &[u8]) -> bool
    ensures { result ≡ is_tag (optional_of schema.now tag) segment.now }
{
    match tag {
        Some(name) => same_bytes(bytes_of(schema, name), segment),
        None => false,
    }
}

// `value`, and `content` where the tag is `value`.
fn is_content_key(schema: &[u8], tag: Option<Part>, segment: &[u8]) -> bool
    ensures { result ≡ same_bytes (content_key (optional_of schema.now tag)) segment.now }
{
    if is_tag(schema, tag, b"value") {
        return same_bytes(b"content", segment);
    }
    same_bytes(b"value", segment)
}

fn union_step(schema: &[u8], tag: Option<Part>, segment: &[u8]) -> WalkStep
    ensures { UnionSteps schema.now tag segment.now result }
{
    if is_tag(schema, tag, segment) {
        return WalkStep::Leaf(ReferenceFault::AfterTag);
    }
    if is_content_key(schema, tag, segment) {
        return WalkStep::Free;
    }
    WalkStep::Refuse(ReferenceFault::UnionMember)
}

// An open holder may have members that the schema does not declare.
fn member_step(schema: &[u8], words: &[u32], holder: Holder, segment: &[u8]) -> WalkStep
    ensures { MemberSteps schema.now words.now holder segment.now result }
{
    let Some(slot) = lookup(schema, words, holder, segment) else {
        if holder.opened {
            return WalkStep::Free;
        }
        return WalkStep::Refuse(ReferenceFault::UnknownProperty);
    };
    WalkStep::Into(slot)
}

// The length of a text, which no projection reads.
fn text_count(reader: Reader) -> WalkStep
    ensures { TextSteps (reader_is reader) result }
{
    match reader {
        Reader::Kernel => WalkStep::Leaf(ReferenceFault::AfterCount),
        Reader::Projection => WalkStep::Refuse(ReferenceFault::TextCount),
    }
}

// A field without members: only a string has a count.
fn scalar_step(kind: usize, segment: &[u8], reader: Reader) -> WalkStep
    ensures { ScalarSteps kind segment.now (reader_is reader) result }
{
    if is_count(segment) {
        if kind == STRING {
            return text_count(reader);
        }
        return WalkStep::Refuse(ReferenceFault::NoCount);
    }
    WalkStep::Refuse(ReferenceFault::NoMember)
}

// A segment that is not empty, under a service semantics.
fn service_step(
    schema: &[u8],
    words: &[u32],
    field: IndexedField,
    segment: &[u8],
    reader: Reader,
) -> WalkStep
    ensures { ServiceSteps schema.now words.now field segment.now (reader_is reader) result }
{
    let kind = field.kind;
    if kind == ARRAY {
        let element = field.element;
        return array_step(element, segment);
    }
    if kind == MAP {
        return map_step(segment);
    }
    if kind == JSON {
        return WalkStep::Free;
    }
    if kind == OBJECT {
        let members = field.members;
        return member_step(schema, words, members, segment);
    }
    if kind == UNION {
        let tag = field.tag;
        return union_step(schema, tag, segment);
    }
    scalar_step(kind, segment, reader)
}

// Where one segment leads from a field.
pub fn walk_step(
    schema: &[u8],
    words: &[u32],
    field: IndexedField,
    segment: &[u8],
    service: bool,
    reader: Reader,
) -> WalkStep
    ensures { WalkSteps schema.now words.now field segment.now (reader_is reader) service result }
{
    if segment.len() == 0 {
        return WalkStep::Refuse(ReferenceFault::EmptyPath);
    }
    if service {
        return service_step(schema, words, field, segment, reader);
    }
    let kind = field.kind;
    if kind == JSON {
        return WalkStep::Free;
    }
    if kind == OBJECT {
        let members = field.members;
        return member_step(schema, words, members, segment);
    }
    WalkStep::Refuse(ReferenceFault::NoMember)
}
