// Two fields side by side, with all that lies below them: elements and members by recursion, siblings by a loop, so that the stack goes as deep as
// the fields nest. Each entry is read once, and handed on.
ghost use Rattle.std.specs.Prelude.{cond, ◌≡◌, [], ◌∷◌};
ghost use Rattle.widening.specs.Decision.{growth, breach, field_added};
ghost use Rattle.schema_change.specs.Answers.{Goes};
ghost use Rattle.schema_change.specs.Places.{Within};
ghost use Rattle.schema_change.specs.Fields.{going_at, FieldsGo, ElementsGo, MembersGo};

use crate::answer::{Change, Reason, grow, is_open_yet, refute};
use crate::entry::compare_entries;
use crate::pairing::{Members, Pairing, members_from, pair};
use crate::place::{FieldEntry, Place, enter, skip_below};
use sheet::schema_heads::HolderHead;

// What was found, and where reading is in each sheet. After a breach nothing is read any more: the places count only as long as there is none.
#[derive(Clone, Copy)]
pub struct Going {
    pub found: Change,
    pub x: Place,
    pub y: Place,
}

// Where both holders are.
fn reached(found: Change, xs: Members, ys: Members) -> Going
    ensures { result ≡ going_at found xs ys }
{
    let x = xs.place;
    let y = ys.place;
    Going { found, x, y }
}

// A field of the second schema is not in the first, where its holder has that open mark.
fn added(opened: bool, entry: u32, found: Change) -> Change
    ensures { Goes found (cond opened (breach field_added 0 entry) growth ∷ []) result }
{
    if opened {
        return refute(found, Reason::FieldAdded, 0, entry);
    }
    grow(found)
}

#[cycle(compare_elements_compare_fields_compare_members)]
fn compare_fields(
    first: &[u8],
    x: FieldEntry,
    second: &[u8],
    y: FieldEntry,
    depth: usize,
    found: Change,
) -> Going
    requires { Within first.now x.next × Within second.now y.next }
    ensures { FieldsGo first.now x second.now y depth found result }
{
    let own = compare_entries(first, x, second, y, found);
    let a = x.next;
    let b = y.next;
    let stopped = Going {
        found: own,
        x: a,
        y: b,
    };
    if depth == 0 {
        return stopped;
    }
    if is_open_yet(own) {
        let g = x.head;
        let h = y.head;
        let below = compare_elements(first, a, second, b, g.items, depth - 1, own);
        let xs = HolderHead {
            opened: g.opened,
            count: g.count,
        };
        let ys = HolderHead {
            opened: h.opened,
            count: h.count,
        };
        return compare_members(first, xs, second, ys, depth - 1, below);
    }
    stopped
}

// Both have an element, or neither: else a breach was found at their holders' entries.
#[cycle(compare_elements_compare_fields_compare_members)]
fn compare_elements(
    first: &[u8],
    x: Place,
    second: &[u8],
    y: Place,
    has: bool,
    depth: usize,
    found: Change,
) -> Going
    requires { Within first.now x × Within second.now y }
    ensures { ElementsGo first.now x second.now y has depth found result }
{
    if has {
        let Some(g) = enter(first, x) else {
            return Going { found, x, y };
        };
        let Some(h) = enter(second, y) else {
            return Going { found, x, y };
        };
        return compare_fields(first, g, second, h, depth, found);
    }
    Going { found, x, y }
}

// The members of two holders.
#[cycle(compare_elements_compare_fields_compare_members)]
pub fn compare_members(
    first: &[u8],
    x: HolderHead,
    second: &[u8],
    y: HolderHead,
    depth: usize,
    from: Going,
) -> Going
    requires { Within first.now from.x × Within second.now from.y }
    ensures { MembersGo first.now x second.now y depth from result }
{
    let p = from.x;
    let q = from.y;
    let mut now = from.found;
    let mut xs = members_from(first, p, x.count);
    let mut ys = members_from(second, q, y.count);
    while is_open_yet(now) {
        let xn = xs.next;
        let yn = ys.next;
        match pair(first, xn, second, yn) {
            Pairing::Neither => {
                return reached(now, xs, ys);
            }
            Pairing::Missing(g) => {
                return reached(refute(now, Reason::FieldMissing, g.number, 0), xs, ys);
            }
            Pairing::Added(h) => {
                now = added(x.opened, h.number, now);
                ys = members_from(second, skip_below(second, h), ys.left - 1);
            }
            Pairing::Both(g, h) => {
                let both = compare_fields(first, g, second, h, depth, now);
                let a = both.x;
                let b = both.y;
                now = both.found;
                xs = members_from(first, a, xs.left - 1);
                ys = members_from(second, b, ys.left - 1);
            }
        }
    }
    reached(now, xs, ys)
}
