// Counts as bytes: numbers of eight bytes each, least significant first, and how one is read back.
ghost use Rattle.std.specs.Prelude.{◌≡◌, ◌+◌, ◌≤◌, length};
ghost use Rattle.buffer.specs.Wrote.{Wrote};
ghost use Rattle.host_numbers.specs.Counts.{eight_bytes, count_at, counts_after};

use buffer::{put_u32, read_u32};

// The lower half comes first.
fn put_u64(n: u64, at: usize, bytes: &mut [u8])
    requires { at + 8 ≤ length bytes.old }
    ensures { Wrote bytes.old bytes.new at (eight_bytes n) (at + 8) }
{
    put_u32(bytes, at, (n % 4294967296) as u32);
    put_u32(bytes, at + 4, (n / 4294967296) as u32);
}

// A buffer that is too short for all of them keeps its bytes.
pub fn write_counts(numbers: &[u64], bytes: &mut [u8])
    ensures { bytes.new ≡ counts_after numbers.now bytes.old }
{
    if bytes.len() / 8 < numbers.len() {
        return;
    }
    for i in 0..numbers.len() {
        put_u64(numbers[i], i * 8, bytes);
    }
}

// A number of eight bytes by its index, or 0 where there is none.
pub fn count_at(res: &[u8], index: u32) -> u64
    ensures { result ≡ count_at index res.now }
{
    let at = index as usize * 8;
    if res.len() < at + 8 {
        return 0;
    }
    read_u32(res, at) as u64 + read_u32(res, at + 4) as u64 * 4294967296
}
