// Sheets as bytes (docs/FORMAT.md, "Sheets"): a reader for the head of each entry. Every public function takes any bytes and any place in
// them; past the end there is nothing to read.
#![tactic(auto)]

pub mod entry; // entry.rt: what entries are made of
pub mod operators; // operators.rt: the operators of conditions
pub mod schema_heads; // schema_heads.rt: the entries H and F
pub mod rule_heads; // rule_heads.rt: the entries R, T, C, V and K
