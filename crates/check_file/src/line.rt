// The line: numbers with a comma after each, the path, and the line's end. What does not fit is left out.
ghost use Rattle.std.specs.Prelude.{◌≡◌, take};
ghost use Rattle.buffer.specs.Wrote.{Wrote};
ghost use Rattle.check_file.specs.Line.{field_of, line_of, numbers};

use buffer::{push, put, put_decimal};

// Writes a number and the comma after it; the place after that is returned.
fn put_field(out: &mut [u8], at: usize, n: u32) -> usize
    ensures { Wrote out.old out.new at (field_of n) result }
{
    let next = put_decimal(out, at, n as usize);
    push(out, next, b',')
}

// The first `n` bytes, or all where there are fewer.
fn front(bytes: &[u8], n: u32) -> &[u8]
    ensures { result.now ≡ take n bytes.now }
{
    let end = n as usize;
    if end <= bytes.len() {
        return &bytes[0..end];
    }
    bytes
}

// Writes the line of a result at the start of `out`, and returns how many bytes it has there. `path` holds the path in its first `size` bytes.
pub fn write_line(
    number: u32,
    family: u32,
    detail: u32,
    place: u32,
    over: u32,
    passed: u32,
    size: u32,
    path: &[u8],
    out: &mut [u8],
) -> usize
    ensures { Wrote out.old out.new 0 (line_of (numbers number family detail place over passed size) (take size path.now)) result }
{
    let mut at = put_field(out, 0, number);
    at = put_field(out, at, family);
    at = put_field(out, at, detail);
    at = put_field(out, at, place);
    at = put_field(out, at, over);
    at = put_field(out, at, passed);
    at = put(out, at, front(path, size));
    push(out, at, b'\n')
}
