// Whether no object of a JSON text has a key twice. A wide object's keys are looked up in a table, some thousands at a time.
ghost use Rattle.std.specs.Prelude.{◌≡◌, ◌≤◌, length};
ghost use Rattle.json_keys.specs.Repeats.{batch, Falls, IsChained, Ready, NextIs, RestIs, ObjectIs, KeysDiffer};
ghost use Rattle.json_sheet.specs.Batches.{BatchIs};

use crate::texts::{same_text, slot_of};
use crate::value::read_value;
use json_text::between::{Separator, read_key, read_separator};
use json_text::string::read_string;
use json_text::token::behind_spaces;
use text::starts_with;

// So deep arrays and objects may nest.
const MAX_DEPTH: usize = 1024;

// So many keys are in the table at a time.
const BATCH: usize = 16384;

const SLOTS: usize = 16384;

// Whether the text at a place is in the chain from `from` on.
fn is_chained(s: &[u8], links: &[u16], places: &[usize], at: usize, from: usize) -> bool
    requires { Falls links.now places.now from }
    ensures { IsChained s.now links.now places.now at from result }
{
    let mut x = from;
    while 0 < x {
        if same_text(s, at, places[x - 1]) {
            return true;
        }
        x = links[x - 1] as usize;
    }
    false
}

// The place of the member after the one at a place, or 0.
fn next_member(s: &[u8], at: usize) -> usize
    ensures { NextIs s.now at result }
{
    let Some((_, start)) = read_key(s, at) else {
        return 0;
    };
    let mut nowhere = [0u8; 1];
    let Some((behind, _)) = read_value(s, start, MAX_DEPTH, &mut nowhere, 1) else {
        return 0;
    };
    match read_separator(s, behind, b'}') {
        Some(Separator::More(place)) => place,
        Some(Separator::End(_)) => 0,
        None => 0,
    }
}

// Whether none of the keys from a member on is in the table.
fn rest_differs(s: &[u8], heads: &[u16], links: &[u16], places: &[usize], from: usize) -> bool
    requires { (from ≤ length s.now) × Ready heads.now links.now places.now }
    ensures { RestIs s.now heads.now links.now places.now from result }
{
    let mut i = from;
    loop {
        let next = next_member(s, i);
        let slot = slot_of(s, i + 1);
        if is_chained(s, links, places, i + 1, heads[slot] as usize) {
            return false;
        }
        if next == 0 {
            return true;
        }
        i = next;
    }
}

// The keys from a member on: the first of them go into the table, the others are looked up. `None` where one in the table occurs twice;
// else the place of the next member that is not in the table, or 0.
fn batch_differs(s: &[u8], from: usize, links: &mut [u16], places: &mut [usize]) -> Option<usize>
    requires { (from ≤ length s.now) × (length links.old ≡ batch) × (length places.old ≡ batch) }
    ensures { BatchIs s.now from result }
{
    let mut heads = [0u16; SLOTS];
    let mut i = from;
    for n in 0..BATCH {
        let next = next_member(s, i);
        let slot = slot_of(s, i + 1);
        let head = heads[slot];
        if is_chained(s, links, places, i + 1, head as usize) {
            return None;
        }
        if next == 0 {
            return Some(0);
        }
        links[n] = head;
        places[n] = i + 1;
        heads[slot] = (n + 1) as u16;
        i = next;
    }
    if rest_differs(s, &heads, links, places, i) {
        return Some(i);
    }
    None
}

// Whether no key of an object occurs twice, from behind its opening bracket on.
fn object_differs(s: &[u8], at: usize, links: &mut [u16], places: &mut [usize]) -> bool
    requires { (at ≤ length s.now) × (length links.old ≡ batch) × (length places.old ≡ batch) }
    ensures { ObjectIs s.now at result }
{
    let mut i = behind_spaces(s, at);
    if starts_with(s, i, b'}') {
        return true;
    }
    // A single key needs no table.
    if next_member(s, i) == 0 {
        return true;
    }
    loop {
        let Some(next) = batch_differs(s, i, links, places) else {
            return false;
        };
        if next == 0 {
            return true;
        }
        i = next;
    }
}

// Every object is met at its opening bracket, which is none inside a string. A while: a string is passed as a whole.
pub fn keys_differ(text: &[u8]) -> bool
    ensures { KeysDiffer text.now result }
{
    let mut links = [0u16; BATCH];
    let mut places = [0usize; BATCH];
    let mut i = 0;
    while i < text.len() {
        let b = text[i];
        if b == b'"' {
            let Some((_, next)) = read_string(text, i + 1) else {
                return false;
            };
            i = next;
        } else {
            i += 1;
            if b == b'{' {
                if !object_differs(text, i, &mut links, &mut places) {
                    return false;
                }
            }
        }
    }
    true
}
