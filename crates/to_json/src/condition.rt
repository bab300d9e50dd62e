// Conditions as JSON, with all that they hold.
ghost use Rattle.std.specs.Prelude.{◌≤◌};
ghost use Rattle.definition.specs.Limits.{word_entries};
ghost use Rattle.buffer.specs.Laid.{Laid};
ghost use Rattle.to_json.specs.Parts.{closing};
ghost use Rattle.to_json.specs.Lays.{LaysConditions};

use crate::front::lay_front;
use buffer::lay::{lay, lay_byte};
use json_laying::lay_comma;
use rule::index::start_of;
use rule::kind::operator_at;
use rule::node::{behind, children_from};
use sheet::operators::{LITERAL, NOT, TRUTHY};

// What is behind the conditions that a condition with that operator holds.
fn lay_closing(out: &mut [u8], at: usize, op: usize) -> usize
    ensures { Laid out.old out.new at (closing op) result }
{
    if op <= LITERAL {
        return at;
    }
    if op < NOT {
        return lay(out, at, b"]}");
    }
    if op <= NOT {
        return lay_byte(out, at, b'}');
    }
    if op <= TRUTHY {
        return at;
    }
    lay(out, at, b"}}")
}

// The conditions from word `i` up to word `end`, with commas between.
pub fn lay_conditions(
    rule: &[u8],
    words: &[u32],
    i: usize,
    end: usize,
    out: &mut [u8],
    at: usize,
) -> usize
    requires { end ≤ word_entries }
    ensures { LaysConditions rule.now words.now i end out.old out.new at result }
{
    let mut j = i;
    let mut o = at;
    while j < end {
        let op = operator_at(rule, start_of(words, j));
        let next = behind(words, j, end);
        let inner = children_from(words, op, j, next);
        let a = lay_front(rule, words, j, out, o);
        let b = lay_conditions(rule, words, inner, next, out, a);
        let c = lay_closing(out, b, op);
        o = lay_comma(out, c, next, end);
        j = next;
    }
    o
}
