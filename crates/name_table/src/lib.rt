// The name table (docs/FORMAT.md, "The name table"): which kinds may read which names, as a caller lends it.
#![tactic(auto)]

pub mod read; // read.rt: a table, entry by entry
mod loading; // loading.rt: a table copied to a lent buffer

pub use loading::load;
