// How long sheets are at most, and how many entries they have (specs/Limits.antt).
pub const MAX_SHEET_BYTES: usize = 30000;

pub const MAX_SCHEMA_ENTRIES: usize = 1024;

pub const MAX_RULE_ENTRIES: usize = 2048;

// How deep fields, conditions and values nest at most, the outermost counting 1.
pub const MAX_FIELD_NESTING: usize = 64;

pub const MAX_CONDITION_NESTING: usize = 256;

pub const MAX_VALUE_NESTING: usize = 64;

// How deep conditions may nest where they are checked; deeper ones are a defect.
pub const MAX_CONDITION_DEPTH: usize = 32;

// The innermost condition is no quantifier.
pub const MAX_BINDERS: usize = MAX_CONDITION_DEPTH - 1;

// A word of an index is where an entry starts, times this, and the number of an entry, which is below it.
pub const WORD_ENTRIES: usize = 4096;

// What a label and a key have at most, and what a caller lends at least.
pub const MAX_LABEL_BYTES: usize = 256;

pub const MAX_KEY_BYTES: usize = 512;

pub const PATH_BYTES: usize = 32768;

pub const SCRATCH_WORDS: usize = 4096;

pub const MARK_BYTES: usize = 8192;

// The longest file that the program reads.
pub const MAX_FILE_BYTES: usize = 65536;
