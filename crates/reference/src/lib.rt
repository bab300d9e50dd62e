// What a reference reads: names, paths through a schema, collections (docs/FORMAT.md, "References").
#![tactic(auto)]
