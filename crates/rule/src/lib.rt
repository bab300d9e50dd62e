// A rule sheet, read once: whether it is well formed, and an index of its entries in the lent scratch, with the way through it.
#![tactic(auto)]

pub mod index; // index.rt: the words of the index
mod cursor; // cursor.rt: where reading is
mod keys; // keys.rt: the keys of an object
mod value; // value.rt: values, with all that they hold
mod condition; // condition.rt: conditions, with all that they hold
pub mod kind; // kind.rt: the kind of an entry
pub mod node; // node.rt: where the words of an index lead

ghost use Rattle.std.specs.Prelude.{◌≡◌, ◌≤◌, length};
ghost use Rattle.definition.specs.Limits.{max_rule_entries};
ghost use Rattle.sheet.specs.Places.{ConditionIs};
ghost use Rattle.rule.specs.Read.{Ready};
ghost use Rattle.rule.specs.Rule.{is_template_head, TreeAnswer, RuleAnswer};

use cursor::{Cursor, word_of};
use definition::limits::{
    MAX_CONDITION_NESTING, MAX_RULE_ENTRIES, MAX_SHEET_BYTES, MAX_VALUE_NESTING,
};
use lines::rule_sheet::opening;
use sheet::rule_heads::{ConditionHead, RuleHead};
use value::read_value;

// A well-formed sheet: `R` or `T`, and how many entries it has.
#[derive(Clone, Copy)]
pub struct RuleSheet {
    pub is_template: bool,
    pub entries: usize,
}

fn is_template(h: RuleHead) -> bool
    ensures { result ≡ is_template_head h }
{
    match h {
        RuleHead::Rule(_, _) => false,
        RuleHead::Template => true,
    }
}

// What follows the first entry: a value under `T`, a condition under `R`. The condition's head is read, if there is one. The place after it.
fn read_tree(
    s: &[u8],
    words: &mut [u32],
    is_template: bool,
    c: Cursor,
    read: Option<(ConditionHead, usize)>,
) -> Option<Cursor>
    requires { Ready s.now words.old 1 c × ConditionIs s.now c.at read }
    ensures { TreeAnswer s.now words.old words.new is_template c result }
{
    if is_template {
        return read_value(s, words, MAX_VALUE_NESTING, c);
    }
    condition::read_headed(s, words, MAX_CONDITION_NESTING, c, read)
}

// A rule sheet that is well formed, with its index in the scratch: the words of the index are written, and no others.
pub fn read_rule(s: &[u8], scratch: &mut [u32]) -> Option<RuleSheet>
    requires { max_rule_entries ≤ length scratch.old }
    ensures { RuleAnswer s.now scratch.old scratch.new result }
{
    if MAX_SHEET_BYTES < s.len() {
        return None;
    }
    let heads = opening(s, 0);
    let first = heads.head;
    let (head, behind) = first?;
    let template = is_template(head);
    // The first entry announces itself and its tree.
    let inner = Cursor {
        at: behind,
        word: 1,
        left: MAX_RULE_ENTRIES - 2,
    };
    let condition = heads.condition;
    let next = read_tree(s, scratch, template, inner, condition)?;
    let end = next.at;
    let entries = next.word;
    if lines::ends_at(s, end) {
        scratch[0] = word_of(0, entries);
        return Some(RuleSheet {
            is_template: template,
            entries,
        });
    }
    None
}
