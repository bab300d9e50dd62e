// A schema sheet, read once: whether it is well formed, and an index of its fields in the lent scratch.
#![tactic(auto)]

pub mod index; // index.rt: the slots of the index
mod field; // field.rt: fields, with what lies below them
pub mod read; // read.rt: a sheet as a whole
pub mod lookup; // lookup.rt: a member by its name
