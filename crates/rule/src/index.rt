// The words of the index. The word of entry i + 1 is at i: where the entry starts, and the word after its subtree.
ghost use Rattle.std.specs.Prelude.{◌≡◌};
ghost use Rattle.rule.specs.Index.{start_of, end_of};

use definition::limits::WORD_ENTRIES;

// Where the entry of word `i` starts in the sheet.
pub fn start_of(words: &[u32], i: usize) -> usize
    ensures { result ≡ start_of words.now i }
{
    if i < words.len() {
        return words[i] as usize / WORD_ENTRIES;
    }
    0
}

// The word after the subtree of word `i`: that of its next sibling, if it has one.
pub fn end_of(words: &[u32], i: usize) -> usize
    ensures { result ≡ end_of words.now i }
{
    if i < words.len() {
        return words[i] as usize % WORD_ENTRIES;
    }
    0
}
