// Indexes in brackets, as a path has them.
ghost use Rattle.buffer.specs.Wrote.{Wrote};
ghost use Rattle.validation.specs.Location.{index};

use buffer::{push, put_decimal};

// Writes `[n]`; the place after it is returned.
pub fn put_index(path: &mut [u8], at: usize, n: usize) -> usize
    ensures { Wrote path.old path.new at (index n) result }
{
    let inside = push(path, at, b'[');
    let end = put_decimal(path, inside, n);
    push(path, end, b']')
}
