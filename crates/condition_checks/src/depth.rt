// How deep conditions nest: siblings by a loop, children by recursion.
ghost use Rattle.std.specs.Prelude.{◌≡◌, ◌<◌, ◌≤◌, max};
ghost use Rattle.definition.specs.Limits.{word_entries};
ghost use Rattle.condition_checks.specs.Depth.{DepthIs, DepthsAre};

use rule::index::start_of;
use rule::kind::operator_at;
use rule::node::{behind, children_from};

fn greater(a: usize, b: usize) -> usize
    ensures { result ≡ max a b }
{
    if a < b {
        return b;
    }
    a
}

// The depth of the condition at word `i`, or `left` where it is deeper.
#[cycle(condition_depth_conditions_depth)]
pub fn condition_depth(rule: &[u8], words: &[u32], i: usize, end: usize, left: usize) -> usize
    requires { (i < end) × (end ≤ word_entries) }
    ensures { DepthIs rule.now words.now i end left result }
{
    if left == 0 {
        return 0;
    }
    let op = operator_at(rule, start_of(words, i));
    let start = children_from(words, op, i, end);
    1 + conditions_depth(rule, words, start, end, left - 1)
}

// The greatest depth of the conditions from word `start` on, which end at `end`.
#[cycle(condition_depth_conditions_depth)]
fn conditions_depth(rule: &[u8], words: &[u32], start: usize, end: usize, left: usize) -> usize
    requires { end ≤ word_entries }
    ensures { DepthsAre rule.now words.now start end left result }
{
    let mut most = 0;
    let mut i = start;
    while i < end {
        let next = behind(words, i, end);
        let depth = condition_depth(rule, words, i, next, left);
        most = greater(most, depth);
        i = next;
    }
    most
}
