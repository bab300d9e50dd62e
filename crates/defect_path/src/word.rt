// Siblings, found over the words of the index.
ghost use Rattle.std.specs.Prelude.{◌≤◌, ◌<◌};
ghost use Rattle.defect_path.specs.Siblings.{Reaches};

use rule::index::end_of;

#[derive(Clone, Copy)]
pub struct Sibling {
    pub word: usize,
    pub index: usize,
}

// The first sibling, from the one at word `from` on, whose subtree ends after word `target`.
pub fn find_sibling(words: &[u32], target: usize, from: usize) -> Sibling
    requires { from ≤ target }
    ensures { Reaches words.now target from 0 result.word result.index × (from ≤ result.word) × (result.word ≤ target) }
{
    let mut word = from;
    let mut index = 0;
    let mut end = end_of(words, word);
    while end <= target {
        if end <= word {
            return Sibling { word, index };
        }
        word = end;
        index += 1;
        end = end_of(words, word);
    }
    Sibling { word, index }
}
