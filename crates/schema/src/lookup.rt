// A member by its name.
ghost use Rattle.schema.specs.Lookup.{LookedUp};

use crate::index::{Holder, MAX_SLOTS};
use std::cmp::Ordering;

// The slot of the member of that name. Names rise, so that each name that is compared halves what is left.
pub fn lookup(sheet: &[u8], words: &[u32], holder: Holder, name: &[u8]) -> Option<usize>
    ensures { LookedUp sheet.now words.now holder name.now result }
{
    let first = holder.first;
    let count = holder.count;
    if MAX_SLOTS < first {
        return None;
    }
    if MAX_SLOTS - first < count {
        return None;
    }
    let mut low = 0;
    let mut high = count;
    while low < high {
        let middle = low + (high - low) / 2;
        let slot = first + middle;
        let part = crate::index::name_of_slot(words, slot);
        match text::order::compare(text::part::bytes_of(sheet, part), name) {
            Ordering::Less => {
                low = middle + 1;
            }
            Ordering::Greater => {
                high = middle;
            }
            Ordering::Equal => {
                return Some(slot);
            }
        }
    }
    None
}
