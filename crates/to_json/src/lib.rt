// A sheet that begins with `R` as JSON (docs/FORMAT.md, "Rules as JSON").
#![tactic(auto)]

mod front; // front.rt: a condition up to those that it holds
mod condition; // condition.rt: conditions

ghost use Rattle.std.specs.Prelude.{◌≤◌};
ghost use Rattle.text.specs.Parts.{optional_of};
ghost use Rattle.definition.specs.Limits.{word_entries};
ghost use Rattle.buffer.specs.Laid.{Laid};
ghost use Rattle.call.specs.Call.{Meets};
ghost use Rattle.json_rule.specs.Conversion.{run_of, to_json};
ghost use Rattle.to_json.specs.Parts.{name_text, message_text};
ghost use Rattle.to_json.specs.Lays.{LaysRule, Narrow};

use buffer::lay::lay;
use condition::lay_conditions;
use definition::limits::MAX_RULE_ENTRIES;
use json_text::quote::{Escapes, lay_quoted};
use rule::index::start_of;
use rule::read_rule;
use sheet::rule_heads::{RuleHead, rule_head};
use text::part::{Part, bytes_of};

pub const CONVERSION_NUMBERS: usize = 2;

// Refusals (docs/FORMAT.md, "Answers").
const NOT_A_RULE: u32 = 5;

const NO_ROOM: u32 = 33;

// A rule up to the condition of its `assert`.
fn lay_name(sheet: &[u8], name: Option<Part>, out: &mut [u8]) -> usize
    ensures { Laid out.old out.new 0 (name_text (optional_of sheet.now name)) result }
{
    match name {
        Some(part) => {
            let a = lay(out, 0, b"{\"name\":");
            let b = lay_quoted(out, a, bytes_of(sheet, part), Escapes::Plain);
            lay(out, b, b",\"assert\":")
        }
        None => lay(out, 0, b"{\"assert\":"),
    }
}

// What is behind that condition.
fn lay_message(sheet: &[u8], message: Option<Part>, out: &mut [u8], at: usize) -> usize
    ensures { Laid out.old out.new at (message_text (optional_of sheet.now message)) result }
{
    match message {
        Some(part) => {
            let a = lay(out, at, b",\"message\":");
            let b = lay_quoted(out, a, bytes_of(sheet, part), Escapes::Plain);
            lay(out, b, b"}")
        }
        None => lay(out, at, b"}"),
    }
}

// The rule whose index is `words`, with so many entries.
fn lay_rule(sheet: &[u8], words: &[u32], entries: usize, out: &mut [u8]) -> usize
    requires { entries ≤ word_entries }
    ensures { LaysRule sheet.now words.now entries out.old out.new result }
{
    let Some((head, _)) = rule_head(sheet, start_of(words, 0)) else {
        return 0;
    };
    match head {
        RuleHead::Rule(name, message) => {
            let a = lay_name(sheet, name, out);
            let b = lay_conditions(sheet, words, 1, entries, out, a);
            lay_message(sheet, message, out, b)
        }
        RuleHead::Template => 0,
    }
}

// The JSON of a rule is at most six times as long as its sheet.
fn narrow(n: usize) -> u32
    ensures { Narrow n result }
{
    if n < 4294967296 { n as u32 } else { 0 }
}

// Writes the JSON of a rule to the start of `json`: 0 and its length, or a refusal's number and 0.
pub fn to_json(sheet: &[u8], json: &mut [u8]) -> [u32; CONVERSION_NUMBERS]
    ensures { Meets to_json (run_of sheet.now json.old json.new result) }
{
    let mut words = [0u32; MAX_RULE_ENTRIES];
    let Some(read) = read_rule(sheet, &mut words) else {
        return [NOT_A_RULE, 0];
    };
    if read.is_template {
        return [NOT_A_RULE, 0];
    }
    let mut nowhere = [0u8; 1];
    let size = lay_rule(sheet, &words, read.entries, &mut nowhere);
    if json.len() < size {
        return [NO_ROOM, 0];
    }
    lay_rule(sheet, &words, read.entries, json);
    [0, narrow(size)]
}
