// What a host asks besides its checks: the numbers of a result, the version, the test of a number, and the fields of an instant.
#![tactic(auto)]

pub mod counts; // counts.rt: numbers of eight bytes

ghost use Rattle.std.specs.Prelude.{◌≡◌};
ghost use Rattle.buffer.specs.Bytes.{field_at};
ghost use Rattle.host_numbers.specs.NumberTest.{finite_number};
ghost use Rattle.host_numbers.specs.Version.{version};
ghost use Rattle.host_numbers.specs.InstantEntry.{InstantAnswered};

use buffer::{put_numbers, read_u32};

const MAJOR: u32 = 0;

const MINOR: u32 = 3;

const PATCH: u32 = 0;

const INSTANT_BYTES: usize = 28;

// A number of four bytes by its index, or 0 where there is none.
pub fn field_at(res: &[u8], index: u32) -> u32
    ensures { result ≡ field_at index res.now }
{
    let at = index as usize * 4;
    if res.len() < at + 4 {
        return 0;
    }
    read_u32(res, at)
}

// Major, minor and patch, eight bits for each of the last two.
pub fn version() -> u32
    ensures { result ≡ version }
{
    (MAJOR * 256 + MINOR) * 256 + PATCH
}

// How many digits of `text` were compared, twice, and 1 more if it is a finite number.
pub fn finite_number(text: &[u8]) -> u32
    ensures { result ≡ finite_number text.now }
{
    let tested = number::test(text);
    let twice = 2 * tested.compared as u32;
    if tested.finite { twice + 1 } else { twice }
}

// Writes the fields of the instant that `text` is. A buffer keeps its bytes where the answer is not 0.
pub fn instant_fields(text: &[u8], fields: &mut [u8]) -> u32
    ensures { InstantAnswered text.now fields.old fields.new result }
{
    if fields.len() < INSTANT_BYTES {
        return 3;
    }
    let Some(found) = timestamp::parse(text) else {
        return 20;
    };
    let numbers = [
        found.year,
        found.month,
        found.day,
        found.hour,
        found.minute,
        found.second,
        found.nanoseconds,
    ];
    put_numbers(fields, 0, &numbers);
    0
}
