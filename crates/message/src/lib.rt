// What a defect says, in the words of the Rust (docs/FORMAT.md, "Messages").
#![tactic(auto)]
