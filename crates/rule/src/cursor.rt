// Where reading is in a rule sheet.
ghost use Rattle.std.specs.Prelude.{◌≡◌, ◌+◌, ◌*◌, ◌≤◌};
ghost use Rattle.definition.specs.Limits.{max_sheet_bytes, max_rule_entries, word_entries};

use definition::limits::WORD_ENTRIES;

// After what has been read: the next entry's first byte, its word, and how many more entries may be announced.
#[derive(Clone, Copy)]
pub struct Cursor {
    pub at: usize,
    pub word: usize,
    pub left: usize,
}

// The word of an entry that starts there, with the word after its subtree.
pub fn word_of(start: usize, end: usize) -> u32
    requires { (start ≤ max_sheet_bytes) × (end ≤ max_rule_entries) }
    ensures { result ≡ start * word_entries + end }
{
    (start * WORD_ENTRIES + end) as u32
}
