// The file that the program `rulecheck` reads and the line that it prints (docs/FORMAT.md, "The program `rulecheck`"), as functions on slices.
#![tactic(auto)]

mod numeral; // numeral.rt: numerals of any length
pub mod file; // file.rt: a file taken apart
pub mod line; // line.rt: the line
