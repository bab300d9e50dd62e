// Blocks of bytes that move within a buffer.
ghost use Rattle.std.specs.Prelude.{◌≡◌, ◌++◌, ◌≤◌, length, take, drop};
ghost use Rattle.json_sheet.specs.Blocks.{Swapped};

// Of so few bytes the turn is three reversals: `rotate_left` brings room of its own, some 4 KB that each call clears.
const FEW_BYTES: usize = 128;

// The first `n` bytes go behind the others: each of the two parts is reversed, and then both as one.
fn turn(part: &mut [u8], n: usize)
    requires { n ≤ length part.old }
    ensures { part.new ≡ drop n part.old ++ take n part.old }
{
    part[..n].reverse();
    part[n..].reverse();
    part.reverse();
}

fn rotate(part: &mut [u8], n: usize)
    requires { n ≤ length part.old }
    ensures { part.new ≡ drop n part.old ++ take n part.old }
{
    if part.len() <= FEW_BYTES {
        turn(part, n);
    } else {
        part.rotate_left(n);
    }
}

// Two blocks side by side change places.
pub fn swap(out: &mut [u8], from: usize, middle: usize, end: usize)
    ensures { Swapped out.old out.new from middle end }
{
    if middle <= from {
        return;
    }
    if end <= middle {
        return;
    }
    if out.len() < end {
        return;
    }
    rotate(&mut out[from..end], middle - from);
}
