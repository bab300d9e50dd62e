// Rules that are open beside a schema while fields of its record come and go (document 02, T-14).
#![tactic(auto)]

mod lent; // lent.rt: the rules that are lent
mod refusals; // refusals.rt: what is refused before a sheet is read
mod mention; // mention.rt: whether a rule mentions a field
mod marks; // marks.rt: the rules one by one
mod checked; // checked.rt: the records of those that are marked
mod sheets; // sheets.rt: schema and rules together
pub mod start; // start.rt: the call that opens a draft
pub mod step; // step.rt: the call by which a field goes
