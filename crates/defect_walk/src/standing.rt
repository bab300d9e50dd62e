// The scope of an entry, found again from its place: down through the conditions around it, with a binder more for each quantifier whose body holds it.
ghost use Rattle.std.specs.Prelude.{◌<◌, ◌≤◌};
ghost use Rattle.definition.specs.Limits.{word_entries};
ghost use Rattle.defect_walk.specs.Scoped.{ChildIs, ScopeFound};

use condition_checks::body::{bind_of, collection_of};
use rule::index::start_of;
use rule::kind::operator_at;
use rule::node::{behind, children_from};
use scope::binder::{Scope, bind};
use sheet::operators::NOT;

// A condition: its first word, and the word after its last.
#[derive(Clone, Copy)]
pub struct Child {
    pub word: usize,
    pub end: usize,
}

// The one that holds word `target`, of the conditions from `start` up to `end`.
fn child_at(words: &[u32], start: usize, end: usize, target: usize) -> Child
    requires { (start < end) × (target < end) }
    ensures { ChildIs words.now start end target result }
{
    let mut word = start;
    let mut next = behind(words, word, end);
    while next <= target {
        word = next;
        next = behind(words, word, end);
    }
    Child { word, end: next }
}

// The scope of the entry at word `target`, from that of the condition at word `i`, which holds it and ends at `end`.
pub fn scope_below(
    schema: &[u8],
    rule: &[u8],
    words: &[u32],
    scope: Scope,
    i: usize,
    end: usize,
    target: usize,
) -> Scope
    requires { (i < end) × (end ≤ word_entries) × (target < end) }
    ensures { ScopeFound schema.now rule.now words.now scope i end target result }
{
    let op = operator_at(rule, start_of(words, i));
    let start = children_from(words, op, i, end);
    if target < start {
        return scope;
    }
    let child = child_at(words, start, end, target);
    if op <= NOT {
        return scope_below(schema, rule, words, scope, child.word, child.end, target);
    }
    let Some(name) = bind_of(rule, words, i) else {
        return scope;
    };
    match collection_of(schema, rule, words, scope, i + 1) {
        Ok(Some(slot)) => {
            let inner = bind(scope, name, Some(slot));
            scope_below(schema, rule, words, inner, child.word, child.end, target)
        }
        Ok(None) => {
            let inner = bind(scope, name, None);
            scope_below(schema, rule, words, inner, child.word, child.end, target)
        }
        Err(_) => scope,
    }
}
