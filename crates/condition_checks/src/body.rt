// The checks of a condition. A condition that is a quantifier has a condition as its body: the functions call one another, with one level less left.
ghost use Rattle.std.specs.Prelude.{◌≡◌, ◌||◌, ◌+◌, ◌*◌, ◌-◌, ◌<◌};
ghost use Rattle.text.specs.Blank.{is_blank};
ghost use Rattle.text.specs.Parts.{part_of};
ghost use Rattle.definition.specs.Limits.{word_entries};
ghost use Rattle.validation.specs.Check.{has_dot};
ghost use Rattle.value_checks.specs.Verdicts.{going, HasRoom};
ghost use Rattle.value_checks.specs.Frames.{frame};
ghost use Rattle.condition_checks.specs.Bodies.{NonemptyJudged, EntryJudged, Leaf, LeafJudged, BindAt, CollectionOf, BodyJudged, BodiesJudged, QuantifierJudged};

use rule::index::start_of;
use rule::kind::operator_at;
use rule::node::behind;
use scope::binder::{Scope, bind};
use scope::collections::collection_element;
use sheet::operators::{EXISTS, LITERAL, NOT, TRUTHY, is_service_operator};
use sheet::rule_heads::{ConditionHead, condition_head};
use text::part::{Part, bytes_of};
use value_checks::operand::{Form, form_of, validate_operands};
use value_checks::verdict::{Fault, Progress, fail, going, pass, require};
use walk::answer::{Collected, CollectionFault};
use walk::path::has_dot;

// `all` and `any` hold a condition: at word `i` they do not end right after their own entry.
fn validate_nonempty(
    passed: usize,
    over: Option<usize>,
    op: usize,
    i: usize,
    end: usize,
) -> Progress
    requires { HasRoom (going passed) 1 × (i < word_entries) }
    ensures { NonemptyJudged over op i end (going passed) result }
{
    if op <= LITERAL {
        return going(passed);
    }
    if op < NOT {
        return require(passed, i + 1 == end, Fault::Empty, i + 1, over);
    }
    going(passed)
}

// The checks of the own entry of a condition that ends at `end`: service operators exist only under service.
fn validate_entry(
    passed: usize,
    scope: Scope,
    over: Option<usize>,
    op: usize,
    i: usize,
    end: usize,
) -> Progress
    requires { HasRoom (going passed) 2 × (i < word_entries) }
    ensures { EntryJudged scope over op i end (going passed) result }
{
    if is_service_operator(op) {
        if scope.service {
            return pass(passed);
        }
        return fail(passed, Fault::Operator, i + 1, over);
    }
    validate_nonempty(passed + 1, over, op, i, end)
}

// Whether a condition with that operator holds no condition.
fn is_leaf(op: usize) -> bool
    ensures { Leaf op result }
{
    if op <= LITERAL {
        return true;
    }
    if op <= NOT {
        return false;
    }
    op <= TRUTHY
}

// A condition at word `i` that holds no condition and ends at `end`: its own entry, and its operands. A literal has none.
fn validate_leaf(
    passed: usize,
    schema: &[u8],
    rule: &[u8],
    words: &[u32],
    scope: Scope,
    over: Option<usize>,
    op: usize,
    i: usize,
    end: usize,
) -> Progress
    requires { HasRoom (going passed) (8 * (end - i)) × (i < end) × (end < word_entries) }
    ensures { LeafJudged (frame schema.now rule.now words.now scope over) op i end (going passed) result }
{
    let r = validate_entry(passed, scope, over, op, i, end);
    let verdict = r.verdict;
    let Ok(()) = verdict else {
        return r;
    };
    validate_operands(r.passed, schema, rule, words, scope, over, op, i + 1, end)
}

// The bind of the quantifier at word `i`.
pub fn bind_of(rule: &[u8], words: &[u32], i: usize) -> Option<Part>
    ensures { BindAt rule.now words.now i result }
{
    let (head, _) = condition_head(rule, start_of(words, i))?;
    match head {
        ConditionHead::Literal(_) => None,
        ConditionHead::Many(_, _) => None,
        ConditionHead::Negation => None,
        ConditionHead::One(_) => None,
        ConditionHead::Two(_) => None,
        ConditionHead::Comparison(_) => None,
        ConditionHead::Quantifier(_, name) => Some(name),
    }
}

fn is_wrong_bind(name: &[u8]) -> bool
    ensures { result ≡ (is_blank name.now || has_dot name.now) }
{
    if text::is_blank(name) {
        return true;
    }
    has_dot(name)
}

// What the value of word `i` leads to as the value of `in`.
pub fn collection_of(schema: &[u8], rule: &[u8], words: &[u32], scope: Scope, i: usize) -> Collected
    ensures { CollectionOf schema.now rule.now words.now scope i result }
{
    match form_of(rule, words, i) {
        Form::Text(part) => collection_element(schema, rule, words, scope, bytes_of(rule, part)),
        Form::Holder => Err((CollectionFault::NotAString, 0)),
        Form::Other => Err((CollectionFault::NotAString, 0)),
    }
}

// The condition at word `i`, which ends at `end` and is at most `left` deep.
#[cycle(validate_condition_body_validate_conditions_validate_quantifier)]
pub fn validate_condition_body(
    passed: usize,
    schema: &[u8],
    rule: &[u8],
    words: &[u32],
    scope: Scope,
    over: Option<usize>,
    i: usize,
    end: usize,
    left: usize,
) -> Progress
    requires { HasRoom (going passed) (8 * (end - i)) × (i < end) × (end < word_entries) }
    ensures { BodyJudged (frame schema.now rule.now words.now scope over) i end left (going passed) result }
{
    if left == 0 {
        return going(passed);
    }
    let op = operator_at(rule, start_of(words, i));
    if is_leaf(op) {
        return validate_leaf(passed, schema, rule, words, scope, over, op, i, end);
    }
    let r = validate_entry(passed, scope, over, op, i, end);
    let verdict = r.verdict;
    let Ok(()) = verdict else {
        return r;
    };
    let n = r.passed;
    if op <= NOT {
        return validate_conditions(n, schema, rule, words, scope, over, i + 1, end, left - 1);
    }
    let Some(name) = bind_of(rule, words, i) else {
        return going(n);
    };
    validate_quantifier(n, schema, rule, words, scope, over, name, i, end, left - 1)
}

// The conditions from word `start` on, which end at `end`. Those that hold none need no call of the cycle.
#[cycle(validate_condition_body_validate_conditions_validate_quantifier)]
fn validate_conditions(
    passed: usize,
    schema: &[u8],
    rule: &[u8],
    words: &[u32],
    scope: Scope,
    over: Option<usize>,
    start: usize,
    end: usize,
    left: usize,
) -> Progress
    requires { HasRoom (going passed) (8 * (end - start)) × (end < word_entries) }
    ensures { BodiesJudged (frame schema.now rule.now words.now scope over) start end left (going passed) result }
{
    let mut so_far = passed;
    let mut i = start;
    while i < end {
        let next = behind(words, i, end);
        let op = operator_at(rule, start_of(words, i));
        if is_leaf(op) {
            let r = validate_leaf(so_far, schema, rule, words, scope, over, op, i, next);
            let verdict = r.verdict;
            let Ok(()) = verdict else {
                return r;
            };
            so_far = r.passed;
            i = next;
        } else {
            let r = validate_condition_body(
                so_far, schema, rule, words, scope, over, i, next, left,
            );
            let verdict = r.verdict;
            let Ok(()) = verdict else {
                return r;
            };
            so_far = r.passed;
            i = next;
        }
    }
    going(so_far)
}

// A quantifier at word `i`, after its operator: its bind, the value that it walks, which is asked what `exists` asks, and its body with one binder
// more.
#[cycle(validate_condition_body_validate_conditions_validate_quantifier)]
fn validate_quantifier(
    passed: usize,
    schema: &[u8],
    rule: &[u8],
    words: &[u32],
    scope: Scope,
    over: Option<usize>,
    name: Part,
    i: usize,
    end: usize,
    left: usize,
) -> Progress
    requires { HasRoom (going passed) (2 + 8 * (end - (i + 1))) × (i < end) × (end < word_entries) }
    ensures { QuantifierJudged (frame schema.now rule.now words.now scope over) (part_of rule.now name) i end left (going passed) result }
{
    let start = i + 1;
    let mid = behind(words, start, end);
    if is_wrong_bind(bytes_of(rule, name)) {
        return fail(passed, Fault::Bind, start, over);
    }
    let r = validate_operands(
        passed + 1,
        schema,
        rule,
        words,
        scope,
        over,
        EXISTS,
        start,
        mid,
    );
    let verdict = r.verdict;
    let Ok(()) = verdict else {
        return r;
    };
    let n = r.passed;
    let within = Some(start + 1);
    match collection_of(schema, rule, words, scope, start) {
        Ok(element) => {
            let inner = bind(scope, name, element);
            validate_conditions(n + 1, schema, rule, words, inner, within, mid, end, left)
        }
        Err((fault, at)) => fail(n, Fault::Collection(fault, at), start, over),
    }
}
