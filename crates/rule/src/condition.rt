// Conditions, with all that they hold.
ghost use Rattle.std.specs.Prelude.{◌≡◌};
ghost use Rattle.sheet.specs.Places.{ConditionIs};
ghost use Rattle.rule.specs.Read.{Ready, operands_of, ConditionAnswer, ConditionsAnswer};

use crate::cursor::{Cursor, word_of};
use crate::value::read_values;
use definition::limits::MAX_VALUE_NESTING;
use lines::rule_sheet::{condition_head, plain_condition};
use sheet::rule_heads::ConditionHead;

// What follows a condition's head: so many values, then so many conditions.
#[derive(Clone, Copy)]
pub struct Operands {
    pub values: usize,
    pub conditions: usize,
}

fn operands_of(h: ConditionHead) -> Operands
    ensures { result ≡ operands_of h }
{
    match h {
        ConditionHead::Literal(_) => Operands {
            values: 0,
            conditions: 0,
        },
        ConditionHead::Many(_, n) => Operands {
            values: 0,
            conditions: n,
        },
        ConditionHead::Negation => Operands {
            values: 0,
            conditions: 1,
        },
        ConditionHead::One(_) => Operands {
            values: 1,
            conditions: 0,
        },
        ConditionHead::Two(_) => Operands {
            values: 2,
            conditions: 0,
        },
        ConditionHead::Comparison(_) => Operands {
            values: 2,
            conditions: 0,
        },
        ConditionHead::Quantifier(_, _) => Operands {
            values: 1,
            conditions: 1,
        },
    }
}

// A condition whose head is read. `depth` is how deep it may nest. The place after it, as by each reader here.
#[cycle(read_conditions_read_headed_read_sibling)]
pub fn read_headed(
    s: &[u8],
    words: &mut [u32],
    depth: usize,
    c: Cursor,
    read: Option<(ConditionHead, usize)>,
) -> Option<Cursor>
    requires { Ready s.now words.old 1 c × ConditionIs s.now c.at read }
    ensures { ConditionAnswer s.now words.old words.new depth c result }
{
    if depth == 0 {
        return None;
    }
    let at = c.at;
    let word = c.word;
    let left = c.left;
    let (head, behind) = read?;
    let operands = operands_of(head);
    let cost = operands.values + operands.conditions;
    if left < cost {
        return None;
    }
    let inner = Cursor {
        at: behind,
        word: word + 1,
        left: left - cost,
    };
    let middle = read_values(s, words, MAX_VALUE_NESTING, operands.values, inner)?;
    let next = read_conditions(s, words, depth - 1, operands.conditions, middle)?;
    words[word] = word_of(at, next.word);
    Some(next)
}

// A condition among others. Most are followed by values alone: these need no call, and no head that goes through memory.
#[cycle(read_conditions_read_headed_read_sibling)]
fn read_sibling(s: &[u8], words: &mut [u32], depth: usize, c: Cursor) -> Option<Cursor>
    requires { Ready s.now words.old 1 c }
    ensures { ConditionAnswer s.now words.old words.new depth c result }
{
    if depth == 0 {
        return None;
    }
    let at = c.at;
    let word = c.word;
    let left = c.left;
    let plain = plain_condition(s, at);
    if plain == 0 {
        let head = condition_head(s, at);
        return read_headed(s, words, depth, c, head);
    }
    let values = plain % 4;
    if left < values {
        return None;
    }
    let inner = Cursor {
        at: plain / 4,
        word: word + 1,
        left: left - values,
    };
    let end = read_values(s, words, MAX_VALUE_NESTING, values, inner)?;
    words[word] = word_of(at, end.word);
    Some(end)
}

// `count` conditions, side by side.
#[cycle(read_conditions_read_headed_read_sibling)]
fn read_conditions(
    s: &[u8],
    words: &mut [u32],
    depth: usize,
    count: usize,
    c: Cursor,
) -> Option<Cursor>
    requires { Ready s.now words.old count c }
    ensures { ConditionsAnswer s.now words.old words.new depth count c result }
{
    let mut here = c;
    for _ in 0..count {
        let next = read_sibling(s, words, depth, here)?;
        // Field by field: a copy of the whole waits for what was just stored.
        here = Cursor {
            at: next.at,
            word: next.word,
            left: next.left,
        };
    }
    Some(here)
}
