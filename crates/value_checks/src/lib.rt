// The checks of values in code: references, operands and literals. Each takes how many checks passed before it, of which none failed: a defect is answered at once.
#![tactic(auto)]

pub mod verdict; // verdict.rt: what judging answers
pub mod literal; // literal.rt: the literal pass
pub mod references; // references.rt: the references of a value
pub mod operand; // operand.rt: the operands of a condition
