// What is to be said of a defect, found from its place once it is known: its scope, and the walk of its reference or collection once more.
#![tactic(auto)]

pub mod standing; // standing.rt: the binders around an entry
pub mod telling; // telling.rt: what is to be said of a reference
pub mod collection_telling; // collection_telling.rt: what is to be said of an `in` value
