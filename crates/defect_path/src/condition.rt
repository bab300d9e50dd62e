// Down through conditions.
ghost use Rattle.std.specs.Prelude.{◌≡◌, List, ◌++◌, cond, eqb, ℕ, ◌<◌};
ghost use Rattle.text.specs.Ascii.{ascii};
ghost use Rattle.validation.specs.Location.{dotted, index};
ghost use Rattle.sheet.specs.Operators.{operator_name};
ghost use Rattle.buffer.specs.Wrote.{Wrote};
ghost use Rattle.defect_path.specs.Heads.{part_at, is_value_at, is_whole, own_part};
ghost use Rattle.defect_path.specs.Descent.{ConditionWritten};
ghost use Rattle.defect_path.specs.Next.{NextLeads};
ghost use Rattle.defect_path.specs.Path.{place_bound};
ghost use Rattle.sheet.specs.Places.{condition_of};

use crate::bracket::put_index;
use crate::defect::{BIND, OPERAND};
use crate::operator::put_operator;
use crate::value::put_value;
use crate::word::find_sibling;
use buffer::put;
use rule::index::start_of;
use sheet::rule_heads::{ConditionHead, condition_head};

// How the descent goes on.
#[derive(Clone, Copy)]
pub enum Next {
    // Down from the condition at a word, after a place in the path.
    Condition(usize, usize),
    // Down from the value at a word.
    Value(usize, usize),
    // The path ends here.
    Done(usize),
}

fn put_child(path: &mut [u8], at: usize, op: usize, k: usize) -> usize
    ensures { Wrote path.old path.new at (dotted (operator_name op) ++ index k) result }
{
    let next = put_operator(path, at, op);
    put_index(path, next, k)
}

fn put_side(path: &mut [u8], at: usize, k: usize) -> usize
    ensures { Wrote path.old path.new at (cond (eqb k 0) (ascii ".compare.left") (ascii ".compare.right")) result }
{
    if k == 0 {
        return put(path, at, b".compare.left");
    }
    put(path, at, b".compare.right")
}

fn put_scope(path: &mut [u8], at: usize, op: usize, k: usize) -> usize
    ensures { Wrote path.old path.new at (dotted (operator_name op) ++ cond (eqb k 0) (ascii ".in") (ascii ".that")) result }
{
    let next = put_operator(path, at, op);
    if k == 0 {
        return put(path, next, b".in");
    }
    put(path, next, b".that")
}

// Writes what stands for the part with index `k`.
fn put_part(path: &mut [u8], at: usize, head: ConditionHead, k: usize) -> usize
    ensures { (s : List ℕ) → Wrote path.old path.new at (part_at (condition_of s head) k) result }
{
    match head {
        ConditionHead::Literal(_) => at,
        ConditionHead::Many(op, _) => put_child(path, at, op, k),
        ConditionHead::Negation => put(path, at, b".not"),
        ConditionHead::One(op) => put_operator(path, at, op),
        ConditionHead::Two(op) => put_child(path, at, op, k),
        ConditionHead::Comparison(_) => put_side(path, at, k),
        ConditionHead::Quantifier(op, _) => put_scope(path, at, op, k),
    }
}

fn is_value_at(head: ConditionHead, k: usize) -> bool
    ensures { (s : List ℕ) → result ≡ is_value_at (condition_of s head) k }
{
    match head {
        ConditionHead::Literal(_) => false,
        ConditionHead::Many(_, _) => false,
        ConditionHead::Negation => false,
        ConditionHead::One(_) => true,
        ConditionHead::Two(_) => true,
        ConditionHead::Comparison(_) => true,
        ConditionHead::Quantifier(_, _) => k == 0,
    }
}

fn is_whole(number: u32, head: ConditionHead) -> bool
    ensures { (s : List ℕ) → result ≡ is_whole number (condition_of s head) }
{
    match head {
        ConditionHead::Literal(_) => true,
        ConditionHead::Many(_, _) => false,
        ConditionHead::Negation => false,
        ConditionHead::One(_) => false,
        ConditionHead::Two(_) => false,
        ConditionHead::Comparison(_) => number == OPERAND,
        ConditionHead::Quantifier(_, _) => false,
    }
}

// Writes what stands for a defect at the condition's own entry.
fn put_own(path: &mut [u8], at: usize, number: u32, head: ConditionHead) -> usize
    ensures { (s : List ℕ) → Wrote path.old path.new at (own_part number (condition_of s head)) result }
{
    match head {
        ConditionHead::Literal(_) => at,
        ConditionHead::Many(_, _) => at,
        ConditionHead::Negation => at,
        ConditionHead::One(_) => at,
        ConditionHead::Two(_) => at,
        ConditionHead::Comparison(_) => at,
        ConditionHead::Quantifier(op, _) => {
            if BIND <= number {
                return put_operator(path, at, op);
            }
            at
        }
    }
}

// From the condition at word `i` to its part in whose subtree word `target` lies.
fn condition_step(
    rule: &[u8],
    words: &[u32],
    number: u32,
    target: usize,
    i: usize,
    at: usize,
    path: &mut [u8],
) -> Next
    requires { (i < target) × (target < place_bound) }
    ensures { NextLeads rule.now words.now number target i path.old at path.new result }
{
    let Some((head, _)) = condition_head(rule, start_of(words, i)) else {
        return Next::Done(at);
    };
    if is_whole(number, head) {
        return Next::Done(at);
    }
    let inner = find_sibling(words, target, i + 1);
    let next = put_part(path, at, head, inner.index);
    if is_value_at(head, inner.index) {
        return Next::Value(inner.word, next);
    }
    Next::Condition(inner.word, next)
}

// Writes the rest of the way to the condition at word `i`, which is the target.
fn put_end(rule: &[u8], words: &[u32], number: u32, i: usize, at: usize, path: &mut [u8]) -> usize
    ensures { ConditionWritten rule.now words.now number i i path.old path.new at result }
{
    let Some((head, _)) = condition_head(rule, start_of(words, i)) else {
        return at;
    };
    put_own(path, at, number, head)
}

// Writes the way from the condition at word `i` to the entry at word `target`.
pub fn put_condition(
    rule: &[u8],
    words: &[u32],
    number: u32,
    target: usize,
    i: usize,
    at: usize,
    path: &mut [u8],
) -> usize
    requires { target < place_bound }
    ensures { ConditionWritten rule.now words.now number target i path.old path.new at result }
{
    let mut word = i;
    let mut next = at;
    while word < target {
        match condition_step(rule, words, number, target, word, next, path) {
            Next::Condition(inner, behind) => {
                word = inner;
                next = behind;
            }
            Next::Value(inner, behind) => {
                return put_value(rule, words, target, inner, behind, path);
            }
            Next::Done(behind) => {
                return behind;
            }
        }
    }
    put_end(rule, words, number, word, next, path)
}
