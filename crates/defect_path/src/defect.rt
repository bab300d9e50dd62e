// Defects whose paths are told apart, by their numbers (docs/FORMAT.md, "Answers").
pub const MESSAGE: u32 = 12;

pub const OPERAND: u32 = 17;

pub const BIND: u32 = 21;
