// A whole rule or template.
ghost use Rattle.std.specs.Prelude.{◌≡◌, ◌-◌, ◌<◌, ◌≤◌};
ghost use Rattle.text.specs.Parts.{optional_of};
ghost use Rattle.definition.specs.Limits.{word_entries};
ghost use Rattle.validation.specs.Check.{is_blank_text};
ghost use Rattle.value_checks.specs.Verdicts.{going, HasRoom};
ghost use Rattle.condition_checks.specs.Rules.{PassJudged, DefinitionJudged, RuleJudged};

use crate::body::validate_condition_body;
use crate::depth::condition_depth;
use definition::limits::MAX_CONDITION_DEPTH;
use rule::index::{end_of, start_of};
use scope::binder::Scope;
use sheet::operators::EXISTS;
use sheet::rule_heads::{RuleHead, rule_head};
use text::part::{Part, bytes_of};
use value_checks::literal::unobservable_condition_literals;
use value_checks::operand::validate_operands;
use value_checks::verdict::{Fault, Progress, fail, going};

// Whether a text is present but blank.
fn is_blank_text(rule: &[u8], text: Option<Part>) -> bool
    ensures { result ≡ is_blank_text (optional_of rule.now text) }
{
    let Some(part) = text else {
        return false;
    };
    text::is_blank(bytes_of(rule, part))
}

// Literals are looked at under service alone.
fn validate_condition_literals(
    passed: usize,
    rule: &[u8],
    words: &[u32],
    service: bool,
    end: usize,
) -> Progress
    requires { HasRoom (going passed) (end - 1) × (end ≤ word_entries) }
    ensures { PassJudged rule.now words.now service end (going passed) result }
{
    if service {
        return unobservable_condition_literals(passed, rule, words, 1, end);
    }
    going(passed)
}

// A rule, whose condition ends at `end`: nothing goes down into a condition that is too deep.
fn validate_rule_definition(
    schema: &[u8],
    rule: &[u8],
    words: &[u32],
    scope: Scope,
    name: Option<Part>,
    message: Option<Part>,
    end: usize,
) -> Progress
    requires { end < word_entries }
    ensures { DefinitionJudged schema.now rule.now words.now scope name message end result }
{
    let outside = None;
    if is_blank_text(rule, name) {
        return fail(0, Fault::Name, 1, outside);
    }
    if is_blank_text(rule, message) {
        return fail(1, Fault::Message, 1, outside);
    }
    if end <= 1 {
        return going(2);
    }
    let most = MAX_CONDITION_DEPTH;
    if most < condition_depth(rule, words, 1, end, most + 1) {
        return fail(2, Fault::Deep, 2, outside);
    }
    let r = validate_condition_literals(3, rule, words, scope.service, end);
    let verdict = r.verdict;
    let Ok(()) = verdict else {
        return r;
    };
    validate_condition_body(r.passed, schema, rule, words, scope, outside, 1, end, most)
}

// The rule or the template of a sheet, by its index. The scope has no binders.
pub fn judge(schema: &[u8], rule: &[u8], words: &[u32], scope: Scope) -> Progress
    ensures { RuleJudged schema.now rule.now words.now scope result }
{
    let end = end_of(words, 0);
    let Some((head, _)) = rule_head(rule, start_of(words, 0)) else {
        return going(0);
    };
    let RuleHead::Rule(name, message) = head else {
        // The value of a template is asked what `exists` asks.
        return validate_operands(0, schema, rule, words, scope, None, EXISTS, 1, end);
    };
    validate_rule_definition(schema, rule, words, scope, name, message, end)
}
