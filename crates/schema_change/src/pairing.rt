// Which of two members comes next: names rise in both holders.
ghost use Rattle.std.specs.Prelude.{◌≡◌};
ghost use Rattle.schema_change.specs.Places.{Within};
ghost use Rattle.schema_change.specs.Pairs.{MembersFrom, pair_of, pairing_of};

use crate::place::{FieldEntry, Place, enter};
use std::cmp::Ordering;
use text::order::compare;
use text::part::bytes_of;

// The members of a holder that are left.
#[derive(Clone, Copy)]
pub struct Members {
    pub left: usize,
    // The place of the first of them, and what is there.
    pub place: Place,
    pub next: Option<FieldEntry>,
}

// An entry is read only where a member is left.
pub fn members_from(s: &[u8], place: Place, left: usize) -> Members
    requires { Within s.now place }
    ensures { MembersFrom s.now place left result }
{
    if left == 0 {
        let next = None;
        return Members { left, place, next };
    }
    let next = enter(s, place);
    Members { left, place, next }
}

#[derive(Clone, Copy)]
pub enum Pairing {
    // No member is left.
    Neither,
    // The first's next member is missing in the second.
    Missing(FieldEntry),
    // The second's next member is not in the first.
    Added(FieldEntry),
    // The next member of both is the same.
    Both(FieldEntry, FieldEntry),
}

fn pair_entries(first: &[u8], x: FieldEntry, second: &[u8], y: FieldEntry) -> Pairing
    ensures { result ≡ pair_of first.now x second.now y }
{
    let g = x.head;
    let h = y.head;
    let name = g.name;
    let next = h.name;
    match compare(bytes_of(first, name), bytes_of(second, next)) {
        Ordering::Less => Pairing::Missing(x),
        Ordering::Equal => Pairing::Both(x, y),
        Ordering::Greater => Pairing::Added(y),
    }
}

pub fn pair(first: &[u8], x: Option<FieldEntry>, second: &[u8], y: Option<FieldEntry>) -> Pairing
    ensures { result ≡ pairing_of first.now x second.now y }
{
    match x {
        Some(g) => match y {
            Some(h) => pair_entries(first, g, second, h),
            None => Pairing::Missing(g),
        },
        None => match y {
            Some(h) => Pairing::Added(h),
            None => Pairing::Neither,
        },
    }
}
