// The check list of a rule or template in code: the first check that fails, and how many passed before it.
#![tactic(auto)]

pub mod depth; // depth.rt: how deep conditions nest
pub mod body; // body.rt: the checks of a condition
pub mod rules; // rules.rt: a whole rule or template
