// Walks through a schema by its index: `walk_field_path`, `field_at`, `element_of` (docs/FORMAT.md, "References" and "Collections").
#![tactic(auto)]

pub mod answer; // answer.rt: what a walk answers
pub mod path; // path.rt: paths and their segments
pub mod step; // step.rt: one segment of a reference
pub mod field_path; // field_path.rt: a path from a field on
pub mod collection; // collection.rt: the path of an `in` value
