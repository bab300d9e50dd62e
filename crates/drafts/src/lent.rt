// The rules that are lent: a head of sixteen bytes for each, and their labels and sheets one after another.
ghost use Rattle.std.specs.Prelude.{◌≡◌, ◌+◌, ◌*◌, ◌≤◌, min, length};
ghost use Rattle.drafts.specs.Reading.{LentAt};

use buffer::read_u32;
use text::numeral::to_size;

pub const HEAD_BYTES: usize = 16;

// A rule whose texts begin at a place that is known: its label ends at `middle`, and its sheet, which follows, at `end`.
#[derive(Clone, Copy)]
pub struct Lent {
    pub kind: u32,
    pub semantics: u32,
    pub middle: usize,
    pub end: usize,
}

fn at_most(n: u32, most: usize) -> usize
    ensures { result ≡ min n most }
{
    let size = to_size(n);
    if size < most { size } else { most }
}

// The rule of head `i`, whose texts begin at `at`.
pub fn lent_at(heads: &[u8], texts: &[u8], i: usize, at: usize) -> Lent
    requires { (16 * i + 16 ≤ length heads.now) × (at ≤ length texts.now) }
    ensures { LentAt heads.now texts.now i at result }
{
    let from = HEAD_BYTES * i;
    let kind = read_u32(heads, from);
    let semantics = read_u32(heads, from + 4);
    let middle = at + at_most(read_u32(heads, from + 8), texts.len() - at);
    let end = middle + at_most(read_u32(heads, from + 12), texts.len() - middle);
    Lent {
        kind,
        semantics,
        middle,
        end,
    }
}
