// Why a segment of a reference is refused, in words.
ghost use Rattle.std.proofs.Math.Option.{some};
ghost use Rattle.std.specs.Prelude.{◌≡◌};
ghost use Rattle.text.specs.Parts.{optional_of};
ghost use Rattle.buffer.specs.Laid.{Laid};
ghost use Rattle.reference.specs.Path.{split};
ghost use Rattle.walk.specs.Dots.{Ends};
ghost use Rattle.sheet.specs.FieldKinds.{kind_name};
ghost use Rattle.message.specs.Words.{path_text};
ghost use Rattle.message.specs.Tell.{carries, no_union_member, no_count, no_member};
ghost use Rattle.defect_message.specs.Refusals.{SegmentLaid, RefusalLaid};

use crate::words::{lay_both, lay_kind, lay_quoted};
use buffer::lay::lay;
use schema::index::{IndexedField, indexed_field};
use text::order::same_bytes;
use text::part::{Part, bytes_of};
use walk::answer::ReferenceFault;
use walk::path::first_end;

// What a union carries: its tag, and the key of its content.
fn lay_carried(out: &mut [u8], o: usize, tag: &[u8]) -> usize
    ensures { Laid out.old out.new o (carries (some tag.now)) result }
{
    if same_bytes(tag, b"value") {
        return lay_both(out, o, tag, b" and ", b"content", b"");
    }
    lay_both(out, o, tag, b" and ", b"value", b"")
}

fn lay_union(
    out: &mut [u8],
    o: usize,
    schema: &[u8],
    tag: Option<Part>,
    walked: &[u8],
    segment: &[u8],
) -> usize
    ensures { Laid out.old out.new o (no_union_member walked.now segment.now (optional_of schema.now tag)) result }
{
    let next = lay_both(
        out,
        o,
        walked,
        b" is a union field, so ",
        segment,
        b" resolves to nothing; it carries ",
    );
    match tag {
        Some(part) => lay_carried(out, next, bytes_of(schema, part)),
        None => lay_both(out, next, b"", b" and ", b"value", b""),
    }
}

fn lay_no_count(out: &mut [u8], o: usize, kind: usize, walked: &[u8]) -> usize
    ensures { Laid out.old out.new o (no_count walked.now (kind_name kind)) result }
{
    let a = lay_quoted(out, o, walked);
    let b = lay(out, a, b" is a ");
    let c = lay_kind(out, b, kind);
    lay(
        out,
        c,
        b" field, so 'count' resolves to nothing; `count` reads a text, an array or a map",
    )
}

fn lay_no_member(out: &mut [u8], o: usize, kind: usize, walked: &[u8], segment: &[u8]) -> usize
    ensures { Laid out.old out.new o (no_member walked.now (kind_name kind) segment.now) result }
{
    let a = lay_quoted(out, o, walked);
    let b = lay(out, a, b" is a ");
    let c = lay_kind(out, b, kind);
    let d = lay(out, c, b" field, so ");
    let e = lay_quoted(out, d, segment);
    lay(out, e, b" resolves to nothing")
}

// `walked` leads to the field that refuses `segment`, and `here` to the segment; `rest` follows it.
fn lay_segment(
    out: &mut [u8],
    o: usize,
    schema: &[u8],
    field: IndexedField,
    fault: ReferenceFault,
    walked: &[u8],
    segment: &[u8],
    here: &[u8],
    rest: &[u8],
) -> usize
    ensures { SegmentLaid schema.now field fault walked.now segment.now here.now rest.now out.old out.new o result }
{
    let kind = field.kind;
    let tag = field.tag;
    match fault {
        ReferenceFault::EmptyPath => lay(out, o, b"the path is empty"),
        ReferenceFault::UnknownProperty => {
            lay_both(out, o, walked, b" declares no property ", segment, b"")
        }
        ReferenceFault::ArrayMember => lay_both(
            out,
            o,
            walked,
            b" is an array field, so ",
            segment,
            b" resolves to nothing; an array addresses `count` or an element index",
        ),
        ReferenceFault::MapMember => lay_both(
            out,
            o,
            walked,
            b" is a map field, so ",
            segment,
            b" resolves to nothing; a map's keys are not addressable and only `count` reads it",
        ),
        ReferenceFault::AfterCount => lay_both(
            out,
            o,
            here,
            b" is a count, so ",
            rest,
            b" resolves to nothing",
        ),
        ReferenceFault::AfterTag => lay_both(
            out,
            o,
            here,
            b" is the union's tag, so ",
            rest,
            b" resolves to nothing",
        ),
        ReferenceFault::UnionMember => lay_union(out, o, schema, tag, walked, segment),
        ReferenceFault::NoCount => lay_no_count(out, o, kind, walked),
        ReferenceFault::NoMember => lay_no_member(out, o, kind, walked, segment),
        ReferenceFault::UnknownRoot => lay_no_member(out, o, kind, walked, segment),
        ReferenceFault::RootNotAvailable => lay_no_member(out, o, kind, walked, segment),
        ReferenceFault::NoSuchReference => lay_no_member(out, o, kind, walked, segment),
        ReferenceFault::TextCount => lay_no_member(out, o, kind, walked, segment),
    }
}

// What follows the dot after the first segment of a path, which ends at `end`.
fn behind_dot(path: &[u8], end: usize) -> &[u8]
    requires { Ends path.now end }
    ensures { result.now ≡ path_text (split path.now).others }
{
    if end < path.len() {
        return &path[end + 1..];
    }
    &path[end..]
}

// The walk began at the place `from` of the text, and the field of `slot` refuses the segment at `at`.
pub fn lay_refusal(
    out: &mut [u8],
    o: usize,
    schema: &[u8],
    words: &[u32],
    text: &[u8],
    fault: ReferenceFault,
    from: usize,
    at: usize,
    slot: usize,
) -> usize
    ensures { RefusalLaid schema.now words.now text.now fault from at slot out.old out.new o result }
{
    if at <= from {
        return o;
    }
    if text.len() < at {
        return o;
    }
    let field = indexed_field(schema, words, slot);
    let path = &text[at..];
    let end = first_end(path);
    lay_segment(
        out,
        o,
        schema,
        field,
        fault,
        &text[from..at - 1],
        &path[..end],
        &text[from..at + end],
        behind_dot(path, end),
    )
}
