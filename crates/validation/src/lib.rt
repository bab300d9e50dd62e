// One rule or template against its schema (docs/FORMAT.md, "The check list").
#![tactic(auto)]
