// Values, with all that they hold.
ghost use Rattle.std.specs.Prelude.{◌≡◌, ◌&&◌, ◌*◌, ◌≤◌};
ghost use Rattle.text.specs.Order.{follows};
ghost use Rattle.text.specs.Parts.{part_of, optional_of};
ghost use Rattle.sheet.specs.Entries.{max_count};
ghost use Rattle.rule.specs.Read.{Ready, held_by, held_count, cost_of, HeldAnswer, ValueAnswer, ValuesAnswer, PairAnswer, PairsAnswer};

use crate::cursor::{Cursor, word_of};
use crate::keys::none_twice;
use lines::rule_sheet::{key_head, leaf_end, value_head};
use sheet::rule_heads::ValueHead;
use std::cmp::Ordering;
use text::part::{Part, bytes_of};

// What a value holds. Neither case is an absence, so this is no Option.
#[derive(Clone, Copy)]
pub enum Held {
    // So many values.
    Values(usize),
    // So many keys, each with its value.
    Pairs(usize),
}

fn held_by(h: ValueHead) -> Held
    ensures { result ≡ held_by h }
{
    match h {
        ValueHead::Constant(_) => Held::Values(0),
        ValueHead::Number(_) => Held::Values(0),
        ValueHead::Text(_) => Held::Values(0),
        ValueHead::Array(n) => Held::Values(n),
        ValueHead::Object(n) => Held::Pairs(n),
    }
}

// The entries of what a value holds: a key is one of its own.
fn cost_of(held: Held) -> usize
    requires { held_count held ≤ max_count }
    ensures { result ≡ cost_of held }
{
    match held {
        Held::Values(n) => n,
        Held::Pairs(n) => 2 * n,
    }
}

// Whether a key comes after the one before it in the order of bytes, if there is one.
fn is_next_key(s: &[u8], previous: Option<Part>, key: Part) -> bool
    ensures { result ≡ follows (optional_of s.now previous) (part_of s.now key) }
{
    let Some(earlier) = previous else {
        return true;
    };
    match text::order::compare(bytes_of(s, earlier), bytes_of(s, key)) {
        Ordering::Less => true,
        Ordering::Equal => false,
        Ordering::Greater => false,
    }
}

// Whether keys that rose up to the one before still do.
fn still_rise(s: &[u8], rise: bool, previous: Option<Part>, key: Part) -> bool
    ensures { result ≡ (rise && follows (optional_of s.now previous) (part_of s.now key)) }
{
    if rise {
        return is_next_key(s, previous, key);
    }
    false
}

// One value. `depth` is how deep it may nest. The place after it, as by each reader here.
#[cycle(read_held_read_pair_read_pairs_read_sibling_read_value_read_values)]
pub fn read_value(s: &[u8], words: &mut [u32], depth: usize, c: Cursor) -> Option<Cursor>
    requires { Ready s.now words.old 1 c }
    ensures { ValueAnswer s.now words.old words.new depth c result }
{
    if depth == 0 {
        return None;
    }
    let at = c.at;
    let word = c.word;
    let left = c.left;
    let (head, behind) = value_head(s, at)?;
    let held = held_by(head);
    let cost = cost_of(held);
    if left < cost {
        return None;
    }
    let inner = Cursor {
        at: behind,
        word: word + 1,
        left: left - cost,
    };
    let next = read_held(s, words, depth - 1, held, inner)?;
    words[word] = word_of(at, next.word);
    Some(next)
}

// A value among others. Most hold nothing: these need no call, and no head that goes through memory.
#[cycle(read_held_read_pair_read_pairs_read_sibling_read_value_read_values)]
fn read_sibling(s: &[u8], words: &mut [u32], depth: usize, c: Cursor) -> Option<Cursor>
    requires { Ready s.now words.old 1 c }
    ensures { ValueAnswer s.now words.old words.new depth c result }
{
    if depth == 0 {
        return None;
    }
    let at = c.at;
    let word = c.word;
    let end = leaf_end(s, at);
    if end == 0 {
        return read_value(s, words, depth, c);
    }
    words[word] = word_of(at, word + 1);
    Some(Cursor {
        at: end,
        word: word + 1,
        left: c.left,
    })
}

// What a value holds, its entries announced.
#[cycle(read_held_read_pair_read_pairs_read_sibling_read_value_read_values)]
fn read_held(s: &[u8], words: &mut [u32], depth: usize, held: Held, c: Cursor) -> Option<Cursor>
    requires { Ready s.now words.old (cost_of held) c }
    ensures { HeldAnswer s.now words.old words.new depth held c result }
{
    match held {
        Held::Values(n) => read_values(s, words, depth, n, c),
        Held::Pairs(n) => read_pairs(s, words, depth, n, c),
    }
}

// `count` values, side by side.
#[cycle(read_held_read_pair_read_pairs_read_sibling_read_value_read_values)]
pub fn read_values(
    s: &[u8],
    words: &mut [u32],
    depth: usize,
    count: usize,
    c: Cursor,
) -> Option<Cursor>
    requires { Ready s.now words.old count c }
    ensures { ValuesAnswer s.now words.old words.new depth count c result }
{
    let mut here = c;
    for _ in 0..count {
        let next = read_sibling(s, words, depth, here)?;
        // Field by field: a copy of the whole waits for what was just stored.
        here = Cursor {
            at: next.at,
            word: next.word,
            left: next.left,
        };
    }
    Some(here)
}

// A key and its value: the key, and the place after the value.
#[cycle(read_held_read_pair_read_pairs_read_sibling_read_value_read_values)]
fn read_pair(s: &[u8], words: &mut [u32], depth: usize, c: Cursor) -> Option<(Part, Cursor)>
    requires { Ready s.now words.old 2 c }
    ensures { PairAnswer s.now words.old words.new depth c result }
{
    let at = c.at;
    let word = c.word;
    let (key, behind) = key_head(s, at)?;
    let inner = Cursor {
        at: behind,
        word: word + 1,
        left: c.left,
    };
    let next = read_sibling(s, words, depth, inner)?;
    words[word] = word_of(at, next.word);
    Some((key, next))
}

// `count` keys, each with its value, no key twice. Keys that rise differ; where they do not, all are compared once they are read.
#[cycle(read_held_read_pair_read_pairs_read_sibling_read_value_read_values)]
fn read_pairs(s: &[u8], words: &mut [u32], depth: usize, count: usize, c: Cursor) -> Option<Cursor>
    requires { Ready s.now words.old (2 * count) c }
    ensures { PairsAnswer s.now words.old words.new depth count c result }
{
    let mut here = c;
    let mut rise = true;
    let mut previous = None;
    for _ in 0..count {
        let (key, next) = read_pair(s, words, depth, here)?;
        // Field by field: a copy of the whole waits for what was just stored.
        here = Cursor {
            at: next.at,
            word: next.word,
            left: next.left,
        };
        rise = still_rise(s, rise, previous, key);
        previous = Some(key);
    }
    if rise {
        return Some(here);
    }
    if none_twice(s, words, c.word, count) {
        return Some(here);
    }
    None
}
