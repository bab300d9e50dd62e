// The marks as a list of numbers, rising.
ghost use Rattle.std.specs.Prelude.{◌≤◌, length};
ghost use Rattle.validation.specs.Openings.{max_marks};
ghost use Rattle.openings.specs.Rounds.{ListedIn};

use crate::rounds::MAX_MARKS;
use buffer::put_u32;

// Four bytes for each element.
pub const LIST_BYTES: usize = 4 * MAX_MARKS;

// Writes the entries that are marked to the start of the list, four bytes for each, least significant first; how many there are.
pub fn put_marks(marks: &[u8], list: &mut [u8]) -> u32
    requires { max_marks ≤ length marks.now }
    ensures { ListedIn marks.now list.old list.new result }
{
    let mut count: u32 = 0;
    let mut at: usize = 0;
    for e in 0..MAX_MARKS as u32 {
        if marks[e as usize] != 0 {
            at = put_u32(list, at, e);
            count += 1;
        }
    }
    count
}
