// Bytes written one after another into a lent buffer; what does not fit is left out.
#![tactic(auto)]

pub mod lay; // lay.rt: the same with the true end

ghost use Rattle.std.specs.Prelude.{[], ◌∷◌, ◌≡◌, ◌+◌, ◌≤◌, length};
ghost use Rattle.text.specs.Numeral.{decimal_of};
ghost use Rattle.buffer.specs.Wrote.{Wrote};
ghost use Rattle.buffer.specs.Bytes.{little_endian, bytes_of, number_at};

use text::wide;

// Writes one byte; the place after it is returned, as by each function here.
pub fn push(out: &mut [u8], at: usize, byte: u8) -> usize
    ensures { Wrote out.old out.new at (byte ∷ []) result }
{
    if at < out.len() {
        out[at] = byte;
        return at + 1;
    }
    at
}

pub fn put(out: &mut [u8], at: usize, bytes: &[u8]) -> usize
    ensures { Wrote out.old out.new at bytes.now result }
{
    let mut next = at;
    for &byte in bytes {
        next = push(out, next, byte);
    }
    next
}

// Writes a number without leading zeros.
pub fn put_decimal(out: &mut [u8], at: usize, n: usize) -> usize
    ensures { Wrote out.old out.new at (decimal_of n) result }
{
    if n < 10 {
        return push(out, at, 48 + n as u8);
    }
    let next = put_decimal(out, at, n / 10);
    push(out, next, 48 + (n % 10) as u8)
}

// Writes a number as four bytes, least significant first.
pub fn put_u32(out: &mut [u8], at: usize, n: u32) -> usize
    ensures { Wrote out.old out.new at (little_endian n) result }
{
    let second = push(out, at, (n % 256) as u8);
    let third = push(out, second, (n / 256 % 256) as u8);
    let fourth = push(out, third, (n / 65536 % 256) as u8);
    push(out, fourth, (n / 16777216 % 256) as u8)
}

pub fn put_numbers(out: &mut [u8], at: usize, numbers: &[u32]) -> usize
    ensures { Wrote out.old out.new at (bytes_of numbers.now) result }
{
    let mut next = at;
    for &n in numbers {
        next = put_u32(out, next, n);
    }
    next
}

// The number that four bytes stand for.
pub fn read_u32(bytes: &[u8], at: usize) -> u32
    requires { at + 4 ≤ length bytes.now }
    ensures { result ≡ number_at at bytes.now }
{
    wide(bytes[at])
        + wide(bytes[at + 1]) * 256
        + wide(bytes[at + 2]) * 65536
        + wide(bytes[at + 3]) * 16777216
}
