// The entries of a rule sheet, one after the other.
ghost use Rattle.std.specs.Prelude.{◌≡◌};
ghost use Rattle.sheet.specs.Places.{RuleIs, ConditionIs, PlainIs, ValueIs, LeafEnds, KeyIs};
ghost use Rattle.lines.specs.Ends.{rule_end, condition_end, plain_stop, value_end, leaf_stop, key_end};
ghost use Rattle.lines.specs.Passed.{Passed, BothRead};

use crate::{Lines, end_after, new};
use sheet::rule_heads::{ConditionHead, RuleHead, ValueHead};
use text::part::Part;

// The heads of the sheet's first entry and of a condition after it.
#[derive(Clone, Copy)]
pub struct OpeningRead {
    pub head: Option<(RuleHead, usize)>,
    pub condition: Option<(ConditionHead, usize)>,
}

// The next entry's head, with the reader moved past it.
pub fn next_rule<'s, 'a>(lines: &'s mut Lines<'a>) -> Option<(RuleHead, usize)>
    ensures { Passed RuleIs rule_end lines.old lines.new result }
{
    let read = sheet::rule_heads::rule_head(lines.sheet, lines.at);
    lines.at = end_after(read, lines.at);
    read
}

// The next entry's head, with the reader moved past it.
pub fn next_condition<'s, 'a>(lines: &'s mut Lines<'a>) -> Option<(ConditionHead, usize)>
    ensures { Passed ConditionIs condition_end lines.old lines.new result }
{
    let read = sheet::rule_heads::condition_head(lines.sheet, lines.at);
    lines.at = end_after(read, lines.at);
    read
}

// The head of the entry that starts at `at`, for callers without a reader.
pub fn condition_head(sheet: &[u8], at: usize) -> Option<(ConditionHead, usize)>
    ensures { ConditionIs sheet.now at result }
{
    let mut lines = new(sheet, at);
    next_condition(&mut lines)
}

// Where the entry after that of a condition which only values follow starts; a reader that finds none stays where it is.
fn plain_stop(read: usize, at: usize) -> usize
    ensures { result ≡ plain_stop read at }
{
    if read == 0 { at } else { read / 4 }
}

// Where the next entry ends, and how many values follow, if it is that of a condition which only values follow, with the reader moved past it.
pub fn next_plain<'s, 'a>(lines: &'s mut Lines<'a>) -> usize
    ensures { Passed PlainIs plain_stop lines.old lines.new result }
{
    let read = sheet::rule_heads::plain_condition(lines.sheet, lines.at);
    lines.at = plain_stop(read, lines.at);
    read
}

// The same of the entry that starts at `at`, for callers without a reader.
pub fn plain_condition(sheet: &[u8], at: usize) -> usize
    ensures { PlainIs sheet.now at result }
{
    let mut lines = new(sheet, at);
    next_plain(&mut lines)
}

// The next entry's head, with the reader moved past it.
pub fn next_value<'s, 'a>(lines: &'s mut Lines<'a>) -> Option<(ValueHead, usize)>
    ensures { Passed ValueIs value_end lines.old lines.new result }
{
    let read = sheet::rule_heads::value_head(lines.sheet, lines.at);
    lines.at = end_after(read, lines.at);
    read
}

// The head of the entry that starts at `at`, for callers without a reader.
pub fn value_head(sheet: &[u8], at: usize) -> Option<(ValueHead, usize)>
    ensures { ValueIs sheet.now at result }
{
    let mut lines = new(sheet, at);
    next_value(&mut lines)
}

// Where the entry after that of a value which holds no others starts; a reader that finds none stays where it is.
fn leaf_stop(read: usize, at: usize) -> usize
    ensures { result ≡ leaf_stop read at }
{
    if read == 0 { at } else { read }
}

// Where the next entry ends, if it is that of a value which holds no others, with the reader moved past it.
pub fn next_leaf<'s, 'a>(lines: &'s mut Lines<'a>) -> usize
    ensures { Passed LeafEnds leaf_stop lines.old lines.new result }
{
    let read = sheet::rule_heads::leaf_end(lines.sheet, lines.at);
    lines.at = leaf_stop(read, lines.at);
    read
}

// Where the entry that starts at `at` ends, for callers without a reader.
pub fn leaf_end(sheet: &[u8], at: usize) -> usize
    ensures { LeafEnds sheet.now at result }
{
    let mut lines = new(sheet, at);
    next_leaf(&mut lines)
}

// The next entry's head, with the reader moved past it.
pub fn next_key<'s, 'a>(lines: &'s mut Lines<'a>) -> Option<(Part, usize)>
    ensures { Passed KeyIs key_end lines.old lines.new result }
{
    let read = sheet::rule_heads::key_head(lines.sheet, lines.at);
    lines.at = end_after(read, lines.at);
    read
}

// The head of the entry that starts at `at`, for callers without a reader.
pub fn key_head(sheet: &[u8], at: usize) -> Option<(Part, usize)>
    ensures { KeyIs sheet.now at result }
{
    let mut lines = new(sheet, at);
    next_key(&mut lines)
}

// The sheet's first entry and the condition after it, read by one reader. After a template's there is none.
pub fn opening(sheet: &[u8], at: usize) -> OpeningRead
    ensures { BothRead RuleIs rule_end ConditionIs sheet.now at result.head result.condition }
{
    let mut lines = new(sheet, at);
    let head = next_rule(&mut lines);
    let condition = next_condition(&mut lines);
    OpeningRead { head, condition }
}
