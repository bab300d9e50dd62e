// The entries of a rule sheet.
ghost use Rattle.std.specs.Prelude.{true, cond, ◌≡◌, leb};
ghost use Rattle.number.specs.Grammar.{is_number};
ghost use Rattle.sheet.specs.Entries.{max_text};
ghost use Rattle.sheet.specs.Operators.{shape_of};
ghost use Rattle.sheet.specs.Pieces.{shape_for, condition_row, condition_from, values_after, kind_of, value_row, value_from};
ghost use Rattle.sheet.specs.Places.{RuleTextsAre, RuleIs, ConditionIs, PlainIs, ValueIs, LeafTypeIs, LeafEnds, KeyIs};

use crate::entry;
use crate::entry::{MAX_COUNT, MAX_TEXT};
use crate::operators::{ANY, COMPARE, ENDS_WITH, EXISTS, LITERAL, NOT, OPERATOR_COUNT, TRUTHY};
use text::part::Part;
use text::{numeral, part};

// Types of values that are told apart, by their numbers; those up to TRUE are constants.
const TRUE: usize = 3;

pub const NUMBER: usize = 4;

pub const STRING: usize = 5;

const ARRAY: usize = 6;

const OBJECT: u32 = 7;

// The furthest place that is handed on four times over: no sheet is as long.
const FURTHEST: usize = 1000000000;

// A template is no absent rule, so this is no Option.
#[derive(Clone, Copy)]
pub enum RuleHead {
    // The name and the message.
    Rule(Option<Part>, Option<Part>),
    Template,
}

// A condition's head by what follows it; the first number is the operator's where there are several.
#[derive(Clone, Copy)]
pub enum ConditionHead {
    Literal(bool),
    // An operator, and how many conditions follow.
    Many(usize, usize),
    Negation,
    One(usize),
    Two(usize),
    // Which comparison.
    Comparison(usize),
    // An operator, and the bind.
    Quantifier(usize, Part),
}

#[derive(Clone, Copy)]
pub enum ValueHead {
    // 1 null, 2 false, 3 true.
    Constant(usize),
    Number(Part),
    Text(Part),
    // How many values follow.
    Array(usize),
    // How many keys follow, each with its value.
    Object(usize),
}

// What follows an operator (docs/FORMAT.md, "The rule sheet").
#[derive(Clone, Copy)]
enum Shape {
    Literal,
    Many,
    Negation,
    One,
    Two,
    Comparison,
    Quantifier,
}

// What is in the entry after an operator: a number from `least` to `most`, and if `bound` a bind of so many bytes.
#[derive(Clone, Copy)]
struct ConditionRow {
    least: u32,
    most: u32,
    bound: bool,
}

// What follows a value's type.
#[derive(Clone, Copy)]
enum ValueKind {
    Constant,
    Number,
    Text,
    Array,
    Object,
}

// What is in the entry after a value's type: a number up to `most`, and if `texted` a text of so many bytes, if `numeric` that of a number.
#[derive(Clone, Copy)]
struct ValueRow {
    most: u32,
    texted: bool,
    numeric: bool,
}

// A rule's entry after its letter: the head, and the place after the entry, as by each reader of a head here.
fn rule_texts(s: &[u8], at: usize) -> Option<(RuleHead, usize)>
    ensures { RuleTextsAre s.now at result }
{
    let (name_len, a) = entry::text_length(s, at)?;
    let (message_len, b) = entry::text_length(s, a)?;
    if text::starts_with(s, b, b',') {
        let (name, c) = entry::optional_text(s, b + 1, name_len)?;
        let (message, end) = entry::optional_text(s, c, message_len)?;
        if text::starts_with(s, end, b'\n') {
            return Some((RuleHead::Rule(name, message), end + 1));
        }
    }
    None
}

// A rule's entry, or a template's.
pub fn rule_head(s: &[u8], at: usize) -> Option<(RuleHead, usize)>
    ensures { RuleIs s.now at result }
{
    if text::starts_with(s, at, b'R') {
        return rule_texts(s, at + 1);
    }
    if text::starts_with(s, at, b'T') {
        if text::starts_with(s, at + 1, b'\n') {
            return Some((RuleHead::Template, at + 2));
        }
    }
    None
}

// What follows an operator.
fn shape_of(op: usize) -> Shape
    ensures { shape_for result ≡ shape_of op }
{
    if op <= LITERAL {
        return Shape::Literal;
    }
    if op <= ANY {
        return Shape::Many;
    }
    if op <= NOT {
        return Shape::Negation;
    }
    if op <= EXISTS {
        return Shape::One;
    }
    if op <= ENDS_WITH {
        return Shape::Two;
    }
    if op <= COMPARE {
        return Shape::Comparison;
    }
    if op <= TRUTHY {
        return Shape::One;
    }
    Shape::Quantifier
}

// A condition's row of that table.
fn condition_row(shape: Shape) -> ConditionRow
    ensures { result ≡ condition_row (shape_for shape) }
{
    match shape {
        Shape::Literal => ConditionRow {
            least: 0,
            most: 1,
            bound: false,
        },
        Shape::Many => ConditionRow {
            least: 0,
            most: MAX_COUNT,
            bound: false,
        },
        Shape::Negation => ConditionRow {
            least: 0,
            most: 0,
            bound: false,
        },
        Shape::One => ConditionRow {
            least: 0,
            most: 0,
            bound: false,
        },
        Shape::Two => ConditionRow {
            least: 0,
            most: 0,
            bound: false,
        },
        Shape::Comparison => ConditionRow {
            least: 1,
            most: 6,
            bound: false,
        },
        Shape::Quantifier => ConditionRow {
            least: 0,
            most: MAX_TEXT,
            bound: true,
        },
    }
}

// The length of the text after the number `n`, where there is one.
fn text_len(texted: bool, n: usize) -> usize
    ensures { result ≡ cond texted n 0 }
{
    if texted { n } else { 0 }
}

fn condition_from(shape: Shape, op: usize, n: usize, bind: Part) -> ConditionHead
    ensures { result ≡ condition_from op n bind (shape_for shape) }
{
    match shape {
        Shape::Literal => ConditionHead::Literal(n == 1),
        Shape::Many => ConditionHead::Many(op, n),
        Shape::Negation => ConditionHead::Negation,
        Shape::One => ConditionHead::One(op),
        Shape::Two => ConditionHead::Two(op),
        Shape::Comparison => ConditionHead::Comparison(n),
        Shape::Quantifier => ConditionHead::Quantifier(op, bind),
    }
}

// A condition's entry.
pub fn condition_head(s: &[u8], at: usize) -> Option<(ConditionHead, usize)>
    ensures { ConditionIs s.now at result }
{
    let (op, behind) = entry::first(s, at, b'C', 1, OPERATOR_COUNT)?;
    let shape = shape_of(op);
    let row = condition_row(shape);
    let (n, end) = entry::item(s, behind, row.least, row.most)?;
    let len = text_len(row.bound, n);
    if entry::is_last_text(s, end, len) {
        let start = end + 1;
        let head = condition_from(shape, op, n, Part { start, len });
        return Some((head, start + len + 1));
    }
    None
}

// How many values follow a condition after which no conditions do, or 3 where some do.
fn values_after(shape: Shape) -> usize
    ensures { result ≡ values_after (shape_for shape) }
{
    match shape {
        Shape::Literal => 0,
        Shape::Many => 3,
        Shape::Negation => 3,
        Shape::One => 1,
        Shape::Two => 2,
        Shape::Comparison => 2,
        Shape::Quantifier => 3,
    }
}

// Whether the operator begins with 2, 3 or 4, as those do after which conditions follow. It only saves reading these twice, and promises nothing.
fn seems_to_hold(s: &[u8], at: usize) -> bool {
    if s.len() <= at {
        return true;
    }
    if s.len() - at < 3 {
        return true;
    }
    let digit = s[at + 2];
    if digit < b'2' {
        return false;
    }
    digit <= b'4'
}

// Four times the place after the entry of a condition that values follow, and no conditions, with how many; or 0. Most conditions are such, and a
// number is handed on sooner than a head.
pub fn plain_condition(s: &[u8], at: usize) -> usize
    ensures { PlainIs s.now at result }
{
    if seems_to_hold(s, at) {
        return 0;
    }
    let Some((op, behind)) = entry::first(s, at, b'C', 1, OPERATOR_COUNT) else {
        return 0;
    };
    let shape = shape_of(op);
    let values = values_after(shape);
    if 2 < values {
        return 0;
    }
    let row = condition_row(shape);
    let Some((_, end)) = entry::item(s, behind, row.least, row.most) else {
        return 0;
    };
    if FURTHEST < end {
        return 0;
    }
    if entry::is_last_text(s, end, 0) {
        return (end + 2) * 4 + values;
    }
    0
}

// Which kind of value the type's number says.
fn kind_of(number: usize) -> ValueKind
    ensures { result ≡ kind_of number }
{
    if number <= TRUE {
        return ValueKind::Constant;
    }
    if number <= NUMBER {
        return ValueKind::Number;
    }
    if number <= STRING {
        return ValueKind::Text;
    }
    if number <= ARRAY {
        return ValueKind::Array;
    }
    ValueKind::Object
}

// A value's row of that table.
fn value_row(kind: ValueKind) -> ValueRow
    ensures { result ≡ value_row kind }
{
    match kind {
        ValueKind::Constant => ValueRow {
            most: 0,
            texted: false,
            numeric: false,
        },
        ValueKind::Number => ValueRow {
            most: MAX_TEXT,
            texted: true,
            numeric: true,
        },
        ValueKind::Text => ValueRow {
            most: MAX_TEXT,
            texted: true,
            numeric: false,
        },
        ValueKind::Array => ValueRow {
            most: MAX_COUNT,
            texted: false,
            numeric: false,
        },
        ValueKind::Object => ValueRow {
            most: MAX_COUNT,
            texted: false,
            numeric: false,
        },
    }
}

// The text of a number is one.
fn is_right(numeric: bool, text: &[u8]) -> bool
    ensures { result ≡ cond numeric (is_number text.now) true }
{
    if numeric {
        number::is_number(text)
    } else {
        true
    }
}

fn value_from(kind: ValueKind, number: usize, n: usize, text: Part) -> ValueHead
    ensures { result ≡ value_from kind number n text }
{
    match kind {
        ValueKind::Constant => ValueHead::Constant(number),
        ValueKind::Number => ValueHead::Number(text),
        ValueKind::Text => ValueHead::Text(text),
        ValueKind::Array => ValueHead::Array(n),
        ValueKind::Object => ValueHead::Object(n),
    }
}

// A value's entry.
pub fn value_head(s: &[u8], at: usize) -> Option<(ValueHead, usize)>
    ensures { ValueIs s.now at result }
{
    let (number, behind) = entry::first(s, at, b'V', 1, OBJECT)?;
    let kind = kind_of(number);
    let row = value_row(kind);
    let (n, end) = entry::item(s, behind, 0, row.most)?;
    let len = text_len(row.texted, n);
    if entry::is_last_text(s, end, len) {
        let start = end + 1;
        let text = Part { start, len };
        if is_right(row.numeric, part::bytes_of(s, text)) {
            return Some((value_from(kind, number, n, text), start + len + 1));
        }
    }
    None
}

// The type's number in the entry of a value that holds no others, or 0. It is one digit, read with no loop.
fn leaf_type(s: &[u8], at: usize) -> usize
    ensures { LeafTypeIs s.now at result }
{
    if s.len() <= at {
        return 0;
    }
    if s.len() - at < 4 {
        return 0;
    }
    if s[at] != b'V' {
        return 0;
    }
    if s[at + 1] != b',' {
        return 0;
    }
    if s[at + 3] != b',' {
        return 0;
    }
    let digit = s[at + 2];
    if digit < b'1' {
        return 0;
    }
    if b'5' < digit {
        return 0;
    }
    digit as usize - 48
}

// A constant has no text.
fn leaf_most(number: usize) -> u32
    ensures { result ≡ cond (leb number 3) 0 max_text }
{
    if number <= TRUE { 0 } else { MAX_TEXT }
}

// The place after the entry of a value that holds no others, or 0. Most values are such, and a number is handed on sooner than a head.
pub fn leaf_end(s: &[u8], at: usize) -> usize
    ensures { LeafEnds s.now at result }
{
    let number = leaf_type(s, at);
    if number == 0 {
        return 0;
    }
    let most = leaf_most(number);
    let Some((len, end)) = numeral::numeral(s, at + 4, 0, most) else {
        return 0;
    };
    if entry::is_last_text(s, end, len) {
        let start = end + 1;
        if is_right(number == NUMBER, part::bytes_of(s, Part { start, len })) {
            return start + len + 1;
        }
    }
    0
}

// A key's entry: the key, and the place after the entry.
pub fn key_head(s: &[u8], at: usize) -> Option<(Part, usize)>
    ensures { KeyIs s.now at result }
{
    let (len, end) = entry::first(s, at, b'K', 0, MAX_TEXT)?;
    if entry::is_last_text(s, end, len) {
        let start = end + 1;
        return Some((Part { start, len }, start + len + 1));
    }
    None
}
