// The operand of `compare`: two values and the name of a comparison, in any order.
ghost use Rattle.std.specs.Prelude.{◌≤◌, cond, ◌≡◌, eqb, length};
ghost use Rattle.sheet.specs.Operators as Operators;
ghost use Rattle.json_rule.specs.Shape.{comparison_of};
ghost use Rattle.json_sheet.specs.Places.{operand_in, ConditionIs};
ghost use Rattle.json_sheet.specs.Compared.{OperatorIs, PartIs, NextIs, LastIs, ThreeIs};

use crate::key::read_place;
use crate::swap::swap;
use crate::value::read_value;
use buffer::lay::{lay, recount};
use json_text::between::{Separator, read_separator};
use json_text::string::read_string;
use json_text::token::behind_spaces;
use json_text::unescape::lay_text;
use text::order::same_bytes;
use text::starts_with;

// The three members, so that only one of each makes ALL.
const LEFT: usize = 1;

const OP: usize = 2;

const RIGHT: usize = 4;

const ALL: usize = 7;

// No name of a comparison is longer.
const WORD_BYTES: usize = 3;

// A member of the operand.
#[derive(Clone, Copy)]
pub struct Member {
    // Which of the three it is.
    pub kind: usize,
    // The number of the comparison, 0 for a value.
    pub op: usize,
    // The place after it.
    pub next: usize,
    // The end of its entries.
    pub end: usize,
}

// All three members.
#[derive(Clone, Copy)]
pub struct Operand {
    // The place after the bracket.
    pub next: usize,
    // The end of the entries.
    pub end: usize,
    // The place from which on they belong in front.
    pub middle: usize,
    // The number of the comparison.
    pub op: usize,
}

fn comparison_of(word: &[u8]) -> usize
    ensures { (result ≡ comparison_of word.now) × (result ≤ 6) }
{
    if same_bytes(word, b"eq") {
        return 1;
    }
    if same_bytes(word, b"ne") {
        return 2;
    }
    if same_bytes(word, b"lt") {
        return 3;
    }
    if same_bytes(word, b"lte") {
        return 4;
    }
    if same_bytes(word, b"gt") {
        return 5;
    }
    if same_bytes(word, b"gte") {
        return 6;
    }
    0
}

// The string that names a comparison: its number, and the place after it.
fn read_comparison_name(s: &[u8], at: usize) -> Option<(usize, usize)>
    ensures { OperatorIs s.now at result }
{
    if starts_with(s, at, b'"') {
        let (len, next) = read_string(s, at + 1)?;
        if WORD_BYTES < len {
            return None;
        }
        let mut word = [0u8; WORD_BYTES];
        lay_text(s, at + 1, &mut word, 0);
        let n = comparison_of(&word[0..len]);
        if n == 0 {
            return None;
        }
        return Some((n, next));
    }
    None
}

fn read_part(s: &[u8], at: usize, depth: usize, out: &mut [u8], o: usize) -> Option<Member>
    ensures { PartIs depth s.now at out.old out.new o result }
{
    let (place, next) = read_place(s, at, b"left", b"op", b"right")?;
    if place == 0 {
        return None;
    }
    if place == 2 {
        let (op, behind) = read_comparison_name(s, next)?;
        return Some(Member {
            kind: OP,
            op,
            next: behind,
            end: o,
        });
    }
    let (behind, end) = read_value(s, next, depth, out, o)?;
    if place == 1 {
        return Some(Member {
            kind: LEFT,
            op: 0,
            next: behind,
            end,
        });
    }
    Some(Member {
        kind: RIGHT,
        op: 0,
        next: behind,
        end,
    })
}

// A member and the comma behind it.
fn read_next(s: &[u8], at: usize, depth: usize, out: &mut [u8], o: usize) -> Option<Member>
    ensures { NextIs depth s.now at out.old out.new o result }
{
    let member = read_part(s, at, depth, out, o)?;
    match read_separator(s, member.next, b'}')? {
        Separator::More(next) => Some(Member { next, ..member }),
        Separator::End(_) => None,
    }
}

// A member and the bracket behind it.
fn read_last(s: &[u8], at: usize, depth: usize, out: &mut [u8], o: usize) -> Option<Member>
    ensures { LastIs depth s.now at out.old out.new o result }
{
    let member = read_part(s, at, depth, out, o)?;
    match read_separator(s, member.next, b'}')? {
        Separator::More(_) => None,
        Separator::End(next) => Some(Member { next, ..member }),
    }
}

// Where the left value begins if the right one was laid before it, by what comes first and last.
fn middle_of(first: usize, last: usize, start: usize, second: usize, third: usize) -> usize
    ensures { result ≡ cond (eqb first 4) second (cond (eqb last 1) third start) }
{
    if first == RIGHT {
        return second;
    }
    if last == LEFT {
        return third;
    }
    start
}

// All three, from behind the opening bracket on.
fn read_three(s: &[u8], at: usize, depth: usize, out: &mut [u8], o: usize) -> Option<Operand>
    requires { at ≤ length s.now }
    ensures { ThreeIs depth s.now at out.old out.new o result }
{
    let i = behind_spaces(s, at);
    let first = read_next(s, i, depth, out, o)?;
    let second = read_next(s, first.next, depth, out, first.end)?;
    let third = read_last(s, second.next, depth, out, second.end)?;
    if first.kind + second.kind + third.kind == ALL {
        return Some(Operand {
            next: third.next,
            end: third.end,
            middle: middle_of(first.kind, third.kind, o, first.end, second.end),
            op: first.op + second.op + third.op,
        });
    }
    None
}

// The left value's entries first, and the number in the head, which is known at last. The place after it, and the end of its entries.
pub fn read_comparison(
    s: &[u8],
    at: usize,
    depth: usize,
    out: &mut [u8],
    o: usize,
) -> Option<(usize, usize)>
    ensures { ConditionIs (operand_in Operators.comparison 18 depth) s.now at out.old out.new o result }
{
    if starts_with(s, at, b'{') {
        if depth == 0 {
            return None;
        }
        let count = lay(out, o, b"C,18,");
        let start = lay(out, count, b"0,\n");
        let operand = read_three(s, at + 1, depth - 1, out, start)?;
        swap(out, start, operand.middle, operand.end);
        return Some((operand.next, recount(out, count, operand.end, operand.op)));
    }
    None
}
