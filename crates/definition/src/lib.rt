// The two sheets as trees: a schema, and a rule or template (docs/FORMAT.md, "Sheets"). The code has its limits from here, each from this
// one place; the limit of texts and of counts is with the entries, in `sheet`.
#![tactic(auto)]

pub mod limits;
