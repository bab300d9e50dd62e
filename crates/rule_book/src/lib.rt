// Rule books: many rule sheets in one file, tallied against one schema (docs/FORMAT.md, "Rule books").
#![tactic(auto)]

pub mod sheets; // sheets.rt: the sheets of a file, one after the other
pub mod tally; // tally.rt: how often each answer came
