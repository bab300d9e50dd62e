// What the entries of two fields say themselves.
ghost use Rattle.std.specs.Prelude.{◌≡◌};
ghost use Rattle.text.specs.Parts.{optional_of};
ghost use Rattle.widening.specs.Decision.{closes, same_tag};
ghost use Rattle.schema_change.specs.Answers.{Goes};
ghost use Rattle.schema_change.specs.Entries.{same_mark, entry_differences};

use crate::answer::{Change, Reason, refute_if};
use crate::place::FieldEntry;
use text::order::same_bytes;
use text::part::{Part, bytes_of};

// Whether an open mark goes from 1 to 0.
pub fn mark_closes(first: bool, second: bool) -> bool
    ensures { result ≡ closes first second }
{
    if first { !second } else { false }
}

// Whether both have an element, or neither.
fn is_same_mark(first: bool, second: bool) -> bool
    ensures { result ≡ same_mark first second }
{
    if first { second } else { !second }
}

// An absent tag and one without bytes are not the same.
fn is_same_tag(first: &[u8], x: Option<Part>, second: &[u8], y: Option<Part>) -> bool
    ensures { result ≡ same_tag (optional_of first.now x) (optional_of second.now y) }
{
    match x {
        Some(p) => match y {
            Some(q) => same_bytes(bytes_of(first, p), bytes_of(second, q)),
            None => false,
        },
        None => match y {
            Some(_) => false,
            None => true,
        },
    }
}

pub fn compare_entries(
    first: &[u8],
    x: FieldEntry,
    second: &[u8],
    y: FieldEntry,
    found: Change,
) -> Change
    ensures { Goes found (entry_differences first.now x second.now y) result }
{
    let e = x.number;
    let f = y.number;
    let g = x.head;
    let h = y.head;
    let xt = g.tag;
    let yt = h.tag;
    let kinds = refute_if(found, g.kind != h.kind, Reason::KindDiffers, e, f);
    let marks = refute_if(
        kinds,
        mark_closes(g.opened, h.opened),
        Reason::MarkCloses,
        e,
        f,
    );
    let items = refute_if(
        marks,
        !is_same_mark(g.items, h.items),
        Reason::ItemsDiffer,
        e,
        f,
    );
    refute_if(
        items,
        !is_same_tag(first, xt, second, yt),
        Reason::TagDiffers,
        e,
        f,
    )
}
