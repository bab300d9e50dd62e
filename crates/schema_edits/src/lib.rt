// A field put into a schema sheet, or taken out of it (document 02, T-14).
#![tactic(auto)]

mod skip; // skip.rt: over a field and all that is below it
pub mod place; // place.rt: where a field is, or belongs
mod count; // count.rt: how many entries there are
pub mod size; // size.rt: whether the sheet would be too large
pub mod edit; // edit.rt: the new sheet
