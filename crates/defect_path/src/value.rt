// Down through values.
ghost use Rattle.std.specs.Prelude.{◌<◌};
ghost use Rattle.defect_path.specs.Descent.{ValueWritten, ValueLeads};
ghost use Rattle.defect_path.specs.Keys.{KeyWritten};
ghost use Rattle.defect_path.specs.Path.{place_bound};

use crate::bracket::put_index;
use crate::word::find_sibling;
use buffer::{push, put};
use rule::index::start_of;
use sheet::rule_heads::{ValueHead, key_head, value_head};
use text::part::bytes_of;

// A word further down, and the place after what the path has for the way to it.
#[derive(Clone, Copy)]
pub struct Step {
    pub word: usize,
    pub at: usize,
}

// Writes a dot and the key at word `i`.
fn put_key(rule: &[u8], words: &[u32], i: usize, at: usize, path: &mut [u8]) -> usize
    ensures { KeyWritten rule.now words.now i path.old path.new at result }
{
    let Some((key, _)) = key_head(rule, start_of(words, i)) else {
        return at;
    };
    let next = push(path, at, b'.');
    put(path, next, bytes_of(rule, key))
}

// From the value at word `i` to the one among those it holds in whose subtree word `target` lies.
fn value_step(
    rule: &[u8],
    words: &[u32],
    target: usize,
    i: usize,
    at: usize,
    path: &mut [u8],
) -> Step
    requires { (i < target) × (target < place_bound) }
    ensures { ValueLeads rule.now words.now target i path.old at result.word path.new result.at × (i < result.word) }
{
    let Some((head, _)) = value_head(rule, start_of(words, i)) else {
        return Step { word: target, at };
    };
    let inner = find_sibling(words, target, i + 1);
    match head {
        ValueHead::Constant(_) => Step { word: target, at },
        ValueHead::Number(_) => Step { word: target, at },
        ValueHead::Text(_) => Step { word: target, at },
        ValueHead::Array(_) => {
            let next = put_index(path, at, inner.index);
            Step {
                word: inner.word,
                at: next,
            }
        }
        ValueHead::Object(_) => {
            let next = put_key(rule, words, inner.word, at, path);
            Step {
                word: inner.word + 1,
                at: next,
            }
        }
    }
}

// Writes the way from the value at word `i` to the one at word `target`.
pub fn put_value(
    rule: &[u8],
    words: &[u32],
    target: usize,
    i: usize,
    at: usize,
    path: &mut [u8],
) -> usize
    requires { target < place_bound }
    ensures { ValueWritten rule.now words.now target i path.old path.new at result }
{
    let mut word = i;
    let mut next = at;
    while word < target {
        let step = value_step(rule, words, target, word, next, path);
        word = step.word;
        next = step.at;
    }
    next
}
