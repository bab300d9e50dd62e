// The binders in scope.
ghost use Rattle.std.specs.Prelude.{◌≡◌, ◌<◌};
ghost use Rattle.scope.specs.Binders.{capped, length_unit, element_number, binder_number, binder_name, binder_element};
ghost use Rattle.scope.specs.Scopes.{Unbound, Binds, BoundIs};

use crate::name::Row;
use definition::limits::MAX_BINDERS;
use schema::read::Schema;
use text::order::same_bytes;
use text::part::{Part, bytes_of};
use walk::answer::Reader;

// No sheet has more bytes, and no index more slots.
const MOST: usize = 65535;

// Of the numbers that a binder is made of, an element is below the first unit, and a length times it below the second.
const LENGTH_UNIT: u64 = 131072;

const START_UNIT: u64 = LENGTH_UNIT * 65536;

// What a condition is in. A binder is one number, since the scope is copied with every call: where its name starts in the rule sheet and how long it
// is, and its element. The last binder is the innermost one.
#[derive(Clone, Copy)]
pub struct Scope {
    pub row: Row,
    pub service: bool,
    pub reader: Reader,
    pub schema: Schema,
    pub binders: [u64; MAX_BINDERS],
    pub count: usize,
}

fn capped(n: usize) -> u64
    ensures { result ≡ capped n }
{
    if n < MOST { n as u64 } else { MOST as u64 }
}

// An element as a number: 0 where the schema does not declare it, else its slot and one.
fn element_number(element: Option<usize>) -> u64
    ensures { (result ≡ element_number element) × (result < length_unit) }
{
    match element {
        Some(slot) => capped(slot) + 1,
        None => 0,
    }
}

fn binder_number(name: Part, element: Option<usize>) -> u64
    ensures { result ≡ binder_number name element }
{
    capped(name.start) * START_UNIT + capped(name.len) * LENGTH_UNIT + element_number(element)
}

fn name_in(binder: u64) -> Part
    ensures { result ≡ binder_name binder }
{
    Part {
        start: (binder / START_UNIT) as usize,
        len: (binder % START_UNIT / LENGTH_UNIT) as usize,
    }
}

fn element_in(binder: u64) -> Option<usize>
    ensures { result ≡ binder_element binder }
{
    let number = (binder % LENGTH_UNIT) as usize;
    if number == 0 {
        return None;
    }
    Some(number - 1)
}

// A scope without binders.
pub fn unbound(row: Row, service: bool, reader: Reader, schema: Schema) -> Scope
    ensures { Unbound row service reader schema result }
{
    let binders = [0u64; MAX_BINDERS];
    Scope {
        row,
        service,
        reader,
        schema,
        binders,
        count: 0,
    }
}

// The scope with one more binder inside. Its element is the slot of the field that the binder goes through, or none where the schema does not declare it.
pub fn bind(scope: Scope, name: Part, element: Option<usize>) -> Scope
    ensures { Binds scope name element result }
{
    let count = scope.count;
    if MAX_BINDERS <= count {
        return scope;
    }
    let row = scope.row;
    let reader = scope.reader;
    let schema = scope.schema;
    let mut binders = scope.binders;
    binders[count] = binder_number(name, element);
    Scope {
        row,
        service: scope.service,
        reader,
        schema,
        binders,
        count: count + 1,
    }
}

// The element of the innermost binder of that name: `Some(None)` where the schema does not declare it, `None` where there is no such binder.
pub fn find_binder(rule: &[u8], scope: Scope, name: &[u8]) -> Option<Option<usize>>
    ensures { BoundIs rule.now scope name.now result }
{
    let count = scope.count;
    // Most scopes have no binders: then none are copied.
    if count == 0 {
        return None;
    }
    if MAX_BINDERS < count {
        return None;
    }
    let binders = scope.binders;
    for i in 0..count {
        let binder = binders[count - i - 1];
        if same_bytes(bytes_of(rule, name_in(binder)), name) {
            return Some(element_in(binder));
        }
    }
    None
}
