// Where the words of an index lead.
ghost use Rattle.std.specs.Prelude.{◌<◌, ◌≤◌};
ghost use Rattle.definition.specs.Limits.{word_entries};
ghost use Rattle.rule.specs.Nodes.{Behind, ChildrenFrom};

use crate::index::end_of;
use sheet::operators::{LITERAL, NOT, TRUTHY};

// The word after the subtree of word `i`, `end` at most.
pub fn behind(words: &[u32], i: usize, end: usize) -> usize
    ensures { Behind words.now i end result }
{
    let next = end_of(words, i);
    if i < next {
        if next <= end {
            return next;
        }
    }
    end
}

// The first word of the conditions that a condition at word `i` holds, by its operator; they end where it ends.
pub fn children_from(words: &[u32], op: usize, i: usize, end: usize) -> usize
    requires { (i < end) × (end ≤ word_entries) }
    ensures { ChildrenFrom words.now op i end result }
{
    if op <= LITERAL {
        return end;
    }
    if op <= NOT {
        return i + 1;
    }
    if op <= TRUTHY {
        return end;
    }
    behind(words, i + 1, end)
}
