// What a rule may name: the nine names, the binders in scope, references and collections (docs/FORMAT.md, "References" and "Collections").
#![tactic(auto)]

pub mod name; // name.rt: the nine names, and which kinds may read them
pub mod binder; // binder.rt: the binders in scope
pub mod root; // root.rt: what the names with a path lead into
pub mod references; // references.rt: references
pub mod collections; // collections.rt: the collections that quantifiers walk
