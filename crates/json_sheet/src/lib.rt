// The sheet of a rule, laid while its JSON is read, and whether a key of the text occurs twice.
#![tactic(auto)]

mod comparison; // comparison.rt: the operand of compare
mod condition; // condition.rt: conditions
mod key; // key.rt: names of members
pub mod keys; // keys.rt: keys that occur twice
pub mod rule_text; // rule_text.rt: the rule's own object
mod swap; // swap.rt: blocks that move
mod texts; // texts.rt: texts where they stand
mod value; // value.rt: values
