// Conditions, each laid as its entries while it is read. A reader returns the place after it, and the end of its entries.
ghost use Rattle.std.specs.Prelude.{◌≡◌, cond, [], ◌≤◌, length, drop};
ghost use Rattle.sheet.specs.Operators.{shape_of};
ghost use Rattle.sheet.specs.Operators as Operators;
ghost use Rattle.sheet.specs.Write.{write_operator};
ghost use Rattle.buffer.specs.Laid.{Laid};
ghost use Rattle.json_text.specs.Grammar.{unspaced};
ghost use Rattle.json_rule.specs.Streamed.{literals, streamed};
ghost use Rattle.json_sheet.specs.Quantified.{quantified, turns_pair, BoundIs, PartIs, NextIs, LastIs, Arranged};
ghost use Rattle.json_sheet.specs.Places.{operator_start, operand_in, pair_rest, operation_rest, ConditionIs, ConditionsAre};

use crate::comparison::read_comparison;
use crate::key::{read_operator, read_place};
use crate::swap::swap;
use crate::value::{lay_headed, read_value, read_word};
use buffer::lay::{lay, lay_byte, lay_decimal, recount};
use json_text::between::{Separator, read_separator};
use json_text::string::read_string;
use json_text::token::behind_spaces;
use text::starts_with;

// The three members of a quantifier, so that only one of each makes ALL.
const IN: usize = 1;

const AS: usize = 2;

const THAT: usize = 4;

const ALL: usize = 7;

// The head of a condition, up to its last number.
fn lay_operator(op: usize, out: &mut [u8], o: usize) -> usize
    ensures { Laid out.old out.new o (operator_start op) result }
{
    let a = lay(out, o, b"C,");
    let b = lay_decimal(out, a, op);
    lay_byte(out, b, b',')
}

// The head of a condition that needs no number.
fn lay_plain(op: usize, out: &mut [u8], o: usize) -> usize
    ensures { Laid out.old out.new o (write_operator op 0 []) result }
{
    let a = lay_operator(op, out, o);
    lay(out, a, b"0,\n")
}

// `true` or `false`.
fn read_literal(s: &[u8], at: usize, out: &mut [u8], o: usize) -> Option<(usize, usize)>
    ensures { ConditionIs literals s.now at out.old out.new o result }
{
    if s.len() <= at {
        return None;
    }
    let b = s[at];
    if b == b't' {
        return read_word(s, at + 1, b"rue", b"C,1,1,\n", out, o);
    }
    if b == b'f' {
        return read_word(s, at + 1, b"alse", b"C,1,0,\n", out, o);
    }
    None
}

// `exists` and `truthy`: any value.
fn read_one(
    s: &[u8],
    at: usize,
    depth: usize,
    op: usize,
    out: &mut [u8],
    o: usize,
) -> Option<(usize, usize)>
    ensures { ConditionIs (operand_in Operators.one op depth) s.now at out.old out.new o result }
{
    let e = lay_plain(op, out, o);
    read_value(s, at, depth, out, e)
}

// Exactly two values, from behind the opening bracket on.
fn read_pair(
    s: &[u8],
    at: usize,
    depth: usize,
    op: usize,
    out: &mut [u8],
    o: usize,
) -> Option<(usize, usize)>
    requires { at ≤ length s.now }
    ensures { ConditionIs (pair_rest op depth) s.now at out.old out.new o result }
{
    let start = lay_plain(op, out, o);
    let i = behind_spaces(s, at);
    let (next, middle) = read_value(s, i, depth, out, start)?;
    match read_separator(s, next, b']')? {
        Separator::More(j) => {
            let (behind, end) = read_value(s, j, depth, out, middle)?;
            match read_separator(s, behind, b']')? {
                Separator::More(k) => None,
                Separator::End(place) => Some((place, end)),
            }
        }
        Separator::End(place) => None,
    }
}

// The operators that take two values.
fn read_two(
    s: &[u8],
    at: usize,
    depth: usize,
    op: usize,
    out: &mut [u8],
    o: usize,
) -> Option<(usize, usize)>
    ensures { ConditionIs (operand_in Operators.two op depth) s.now at out.old out.new o result }
{
    if starts_with(s, at, b'[') {
        if depth == 0 {
            return None;
        }
        return read_pair(s, at + 1, depth - 1, op, out, o);
    }
    None
}

// The string that a quantifier binds, in its head.
fn read_bound(s: &[u8], at: usize, op: usize, out: &mut [u8], o: usize) -> Option<(usize, usize)>
    ensures { BoundIs op s.now at out.old out.new o result }
{
    if starts_with(s, at, b'"') {
        let (len, next) = read_string(s, at + 1)?;
        let e = lay_operator(op, out, o);
        return Some((next, lay_headed(b"", s, at + 1, len, out, e)));
    }
    None
}

// Where the second of two parts begins if it belongs in front of the first one.
fn middle_of(first: usize, second: usize, start: usize, middle: usize) -> usize
    ensures { result ≡ cond (turns_pair first second) middle start }
{
    if first == IN {
        if second == AS {
            return middle;
        }
        return start;
    }
    if first == THAT {
        if second == IN {
            return middle;
        }
        return start;
    }
    start
}

// The last of three parts goes where it belongs.
fn arrange(out: &mut [u8], first: usize, last: usize, o: usize, e: usize, f: usize, end: usize)
    ensures { Arranged first last out.old out.new o e f end }
{
    if last == AS {
        swap(out, o, f, end);
        return;
    }
    if last == IN {
        if first == AS {
            swap(out, e, f, end);
            return;
        }
        swap(out, o, e, end);
        return;
    }
}

// A condition. `depth` is how deep arrays and objects may nest.
#[cycle(read_condition_read_conditions_read_last_read_many_read_negation_read_next_read_operand_read_operation_read_part_read_parts_read_quantifier)]
pub fn read_condition(
    s: &[u8],
    at: usize,
    depth: usize,
    out: &mut [u8],
    o: usize,
) -> Option<(usize, usize)>
    ensures { ConditionIs (streamed depth) s.now at out.old out.new o result }
{
    if s.len() <= at {
        return None;
    }
    if s[at] == b'{' {
        if depth == 0 {
            return None;
        }
        return read_operation(s, at + 1, depth - 1, out, o);
    }
    read_literal(s, at, out, o)
}

// Exactly one operator with its operand, from behind the opening bracket on.
#[cycle(read_condition_read_conditions_read_last_read_many_read_negation_read_next_read_operand_read_operation_read_part_read_parts_read_quantifier)]
fn read_operation(
    s: &[u8],
    at: usize,
    depth: usize,
    out: &mut [u8],
    o: usize,
) -> Option<(usize, usize)>
    requires { at ≤ length s.now }
    ensures { ConditionIs (operation_rest depth) s.now at out.old out.new o result }
{
    let i = behind_spaces(s, at);
    let (op, next) = read_operator(s, i)?;
    let (behind, end) = read_operand(s, next, depth, op, out, o)?;
    match read_separator(s, behind, b'}')? {
        Separator::More(j) => None,
        Separator::End(place) => Some((place, end)),
    }
}

// What follows an operator's name.
#[cycle(read_condition_read_conditions_read_last_read_many_read_negation_read_next_read_operand_read_operation_read_part_read_parts_read_quantifier)]
fn read_operand(
    s: &[u8],
    at: usize,
    depth: usize,
    op: usize,
    out: &mut [u8],
    o: usize,
) -> Option<(usize, usize)>
    ensures { ConditionIs (operand_in (shape_of op) op depth) s.now at out.old out.new o result }
{
    if op <= 1 {
        return None;
    }
    if op <= 3 {
        return read_many(s, at, depth, op, out, o);
    }
    if op <= 4 {
        return read_negation(s, at, depth, out, o);
    }
    if op <= 5 {
        return read_one(s, at, depth, op, out, o);
    }
    if op <= 17 {
        return read_two(s, at, depth, op, out, o);
    }
    if op <= 18 {
        return read_comparison(s, at, depth, out, o);
    }
    if op <= 19 {
        return read_one(s, at, depth, op, out, o);
    }
    read_quantifier(s, at, depth, op, out, o)
}

#[cycle(read_condition_read_conditions_read_last_read_many_read_negation_read_next_read_operand_read_operation_read_part_read_parts_read_quantifier)]
fn read_negation(
    s: &[u8],
    at: usize,
    depth: usize,
    out: &mut [u8],
    o: usize,
) -> Option<(usize, usize)>
    ensures { ConditionIs (operand_in Operators.negation 4 depth) s.now at out.old out.new o result }
{
    let e = lay_plain(4, out, o);
    read_condition(s, at, depth, out, e)
}

// `all` and `any`. Their count is known at last.
#[cycle(read_condition_read_conditions_read_last_read_many_read_negation_read_next_read_operand_read_operation_read_part_read_parts_read_quantifier)]
fn read_many(
    s: &[u8],
    at: usize,
    depth: usize,
    op: usize,
    out: &mut [u8],
    o: usize,
) -> Option<(usize, usize)>
    ensures { ConditionIs (operand_in Operators.many op depth) s.now at out.old out.new o result }
{
    if starts_with(s, at, b'[') {
        if depth == 0 {
            return None;
        }
        let count = lay_operator(op, out, o);
        let start = lay(out, count, b"0,\n");
        let i = behind_spaces(s, at + 1);
        if starts_with(s, i, b']') {
            return Some((i + 1, start));
        }
        let (next, end, n) = read_conditions(s, i, depth - 1, out, start)?;
        return Some((next, recount(out, count, end, n)));
    }
    None
}

// One condition at least: the place after the closing bracket, the end of the entries, and how many there are.
#[cycle(read_condition_read_conditions_read_last_read_many_read_negation_read_next_read_operand_read_operation_read_part_read_parts_read_quantifier)]
fn read_conditions(
    s: &[u8],
    at: usize,
    depth: usize,
    out: &mut [u8],
    o: usize,
) -> Option<(usize, usize, usize)>
    requires { (at ≤ length s.now) × (unspaced (drop at s.now) ≡ drop at s.now) }
    ensures { ConditionsAre (streamed depth) s.now at out.old out.new o result }
{
    let mut i = at;
    let mut e = o;
    let mut n: usize = 0;
    loop {
        let (next, end) = read_condition(s, i, depth, out, e)?;
        n += 1;
        e = end;
        match read_separator(s, next, b']')? {
            Separator::More(place) => {
                i = place;
            }
            Separator::End(place) => {
                return Some((place, e, n));
            }
        }
    }
}

// `for_all` and `for_any`.
#[cycle(read_condition_read_conditions_read_last_read_many_read_negation_read_next_read_operand_read_operation_read_part_read_parts_read_quantifier)]
fn read_quantifier(
    s: &[u8],
    at: usize,
    depth: usize,
    op: usize,
    out: &mut [u8],
    o: usize,
) -> Option<(usize, usize)>
    ensures { ConditionIs (operand_in Operators.quantifier op depth) s.now at out.old out.new o result }
{
    if starts_with(s, at, b'{') {
        if depth == 0 {
            return None;
        }
        return read_parts(s, at + 1, depth - 1, op, out, o);
    }
    None
}

// All three members, from behind the opening bracket on. The head goes first, then `in`, then `that`.
#[cycle(read_condition_read_conditions_read_last_read_many_read_negation_read_next_read_operand_read_operation_read_part_read_parts_read_quantifier)]
fn read_parts(
    s: &[u8],
    at: usize,
    depth: usize,
    op: usize,
    out: &mut [u8],
    o: usize,
) -> Option<(usize, usize)>
    requires { at ≤ length s.now }
    ensures { ConditionIs (quantified op depth) s.now at out.old out.new o result }
{
    let i = behind_spaces(s, at);
    let (a, j, e) = read_next(s, i, depth, op, out, o)?;
    let (b, l, f) = read_next(s, j, depth, op, out, e)?;
    swap(out, o, middle_of(a, b, o, e), f);
    let (c, next, end) = read_last(s, l, depth, op, out, f)?;
    if a + b + c == ALL {
        arrange(out, a, c, o, e, f, end);
        return Some((next, end));
    }
    None
}

// A member and the comma behind it: which one it is, the place after the comma and the end of its entries.
#[cycle(read_condition_read_conditions_read_last_read_many_read_negation_read_next_read_operand_read_operation_read_part_read_parts_read_quantifier)]
fn read_next(
    s: &[u8],
    at: usize,
    depth: usize,
    op: usize,
    out: &mut [u8],
    o: usize,
) -> Option<(usize, usize, usize)>
    ensures { NextIs op depth s.now at out.old out.new o result }
{
    let (kind, stop, end) = read_part(s, at, depth, op, out, o)?;
    match read_separator(s, stop, b'}')? {
        Separator::More(next) => Some((kind, next, end)),
        Separator::End(next) => None,
    }
}

// A member and the bracket behind it, the same way.
#[cycle(read_condition_read_conditions_read_last_read_many_read_negation_read_next_read_operand_read_operation_read_part_read_parts_read_quantifier)]
fn read_last(
    s: &[u8],
    at: usize,
    depth: usize,
    op: usize,
    out: &mut [u8],
    o: usize,
) -> Option<(usize, usize, usize)>
    ensures { LastIs op depth s.now at out.old out.new o result }
{
    let (kind, stop, end) = read_part(s, at, depth, op, out, o)?;
    match read_separator(s, stop, b'}')? {
        Separator::More(next) => None,
        Separator::End(next) => Some((kind, next, end)),
    }
}

// A quantifier's member: which of the three it is, the place after it, and the end of its entries.
#[cycle(read_condition_read_conditions_read_last_read_many_read_negation_read_next_read_operand_read_operation_read_part_read_parts_read_quantifier)]
fn read_part(
    s: &[u8],
    at: usize,
    depth: usize,
    op: usize,
    out: &mut [u8],
    o: usize,
) -> Option<(usize, usize, usize)>
    ensures { PartIs op depth s.now at out.old out.new o result }
{
    let (place, next) = read_place(s, at, b"in", b"as", b"that")?;
    if place == 1 {
        let (behind, end) = read_value(s, next, depth, out, o)?;
        return Some((IN, behind, end));
    }
    if place == 2 {
        let (behind, end) = read_bound(s, next, op, out, o)?;
        return Some((AS, behind, end));
    }
    if place == 3 {
        let (behind, end) = read_condition(s, next, depth, out, o)?;
        return Some((THAT, behind, end));
    }
    None
}
