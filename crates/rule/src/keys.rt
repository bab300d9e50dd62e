// The keys of an object, by the words of its index.
ghost use Rattle.std.specs.Prelude.{◌≡◌, true, ◌+◌, ◌≤◌, ◌<◌};
ghost use Rattle.text.specs.Order.{same_bytes};
ghost use Rattle.text.specs.Parts.{part_of};
ghost use Rattle.rule.specs.Keys.{StandsAmong, NoneTwice};
ghost use Rattle.definition.specs.Limits.{max_rule_entries};
ghost use Rattle.rule.specs.Table.{slots, slot_of, Falls, IsChained};

use crate::index::{end_of, start_of};
use definition::limits::MAX_RULE_ENTRIES;
use lines::rule_sheet::key_head;
use text::order::same_bytes;
use text::part::{Part, bytes_of};

// So many keys are compared sooner than looked up.
const FEW_KEYS: usize = 12;

// The table lies in the frame of a value, and values nest, so it is kept small.
const SLOTS: usize = 512;

// A key and its value are two entries at least.
const LINKS: usize = MAX_RULE_ENTRIES / 2;

// Whether the bytes of a part are at another place too. An entry's bytes and its key say the same, so keys need not be read again.
fn stands_at(s: &[u8], part: Part, at: usize) -> bool
    ensures { result ≡ same_bytes (part_of s.now part) (part_of s.now (record { start = at; len = part.len })) }
{
    let there = Part {
        start: at,
        len: part.len,
    };
    same_bytes(bytes_of(s, part), bytes_of(s, there))
}

// Whether the key of an entry is among `count` keys, whose words begin at `first`.
fn stands_among(s: &[u8], words: &[u32], entry: Part, first: usize, count: usize) -> bool
    ensures { StandsAmong s.now words.now entry first count result }
{
    let mut i = first;
    for _ in 0..count {
        if stands_at(s, entry, start_of(words, i)) {
            return true;
        }
        i = end_of(words, i);
    }
    false
}

// Whether none of a few keys, whose words begin at `first`, occurs twice: each is compared with those after it.
fn few_differ(s: &[u8], words: &[u32], first: usize, count: usize) -> bool
    ensures { NoneTwice s.now words.now first count result }
{
    let mut i = first;
    for seen in 0..count {
        let start = start_of(words, i);
        let Some((_, behind)) = key_head(s, start) else {
            return false;
        };
        let entry = Part {
            start,
            len: behind - start,
        };
        i = end_of(words, i);
        if stands_among(s, words, entry, i, count - seen - 1) {
            return false;
        }
    }
    true
}

// The slot of a key.
fn slot_of(key: &[u8]) -> usize
    ensures { (result ≡ slot_of key.now) × (result < slots) }
{
    let mut mixed: usize = 0;
    for &b in key {
        mixed = (mixed + b as usize) * 2654435761 % 4294967296;
    }
    mixed / 8388608
}

// Whether the key of an entry is in the chain from `from` on.
fn is_chained(s: &[u8], words: &[u32], links: &[u16], entry: Part, from: usize) -> bool
    requires { Falls links.now from }
    ensures { IsChained s.now words.now links.now entry from result }
{
    let mut x = from;
    while 0 < x {
        if stands_at(s, entry, start_of(words, x - 1)) {
            return true;
        }
        x = links[(x - 1) / 2] as usize;
    }
    false
}

// Whether the word after a key and its value may be that of the next key.
fn is_further(i: usize, next: usize) -> bool
    requires { i ≤ max_rule_entries }
    ensures { result ≡ true → (i + 2 ≤ next) × (next ≤ max_rule_entries) }
{
    if next < i + 2 {
        return false;
    }
    next <= MAX_RULE_ENTRIES
}

// Whether none of many keys, whose words begin at `first`, occurs twice: each is looked up among those before it that share its slot.
fn many_differ(s: &[u8], words: &[u32], first: usize, count: usize) -> bool
    requires { first ≤ max_rule_entries }
    ensures { NoneTwice s.now words.now first count result }
{
    let mut heads = [0u16; SLOTS];
    let mut links = [0u16; LINKS];
    let mut i = first;
    for _ in 0..count {
        let start = start_of(words, i);
        let Some((key, behind)) = key_head(s, start) else {
            return false;
        };
        let next = end_of(words, i);
        if !is_further(i, next) {
            return few_differ(s, words, first, count);
        }
        let entry = Part {
            start,
            len: behind - start,
        };
        let slot = slot_of(bytes_of(s, key));
        if is_chained(s, words, &links, entry, heads[slot] as usize) {
            return false;
        }
        links[i / 2] = heads[slot];
        heads[slot] = (i + 1) as u16;
        i = next;
    }
    true
}

// Whether none of an object's `count` keys, whose words begin at `first`, occurs twice.
pub fn none_twice(s: &[u8], words: &[u32], first: usize, count: usize) -> bool
    requires { first ≤ max_rule_entries }
    ensures { NoneTwice s.now words.now first count result }
{
    if count <= FEW_KEYS {
        return few_differ(s, words, first, count);
    }
    many_differ(s, words, first, count)
}
