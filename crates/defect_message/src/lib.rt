// What a defect says (docs/FORMAT.md, "Messages"), laid into a lent buffer.
#![tactic(auto)]

pub mod words; // words.rt: words that messages are made of
pub mod refusal; // refusal.rt: why a segment of a reference is refused
pub mod references; // references.rt: what is said of a reference
pub mod collections; // collections.rt: what is said of an `in` value
pub mod operator; // operator.rt: operators by number
pub mod settled; // settled.rt: what is said of a check that no schema answers
pub mod explain; // explain.rt: the whole message of a defect
