// When one schema is a widening of another (docs/FORMAT.md, "Widening"), and how references and collections fare under it.
#![tactic(auto)]
