// A result as bytes: numbers of four bytes each, least significant first, seven of them where a rule or template was checked.
ghost use Rattle.std.specs.Prelude.{◌≡◌};
ghost use Rattle.entity_rules.specs.Entry.{numbers_after, Written};

use buffer::put_numbers;
use single_check::outcome::Outcome;

pub const RESULT_BYTES: usize = 28;

// Numbers of a result that has others. A buffer that is too short keeps its bytes.
pub fn write_numbers(numbers: &[u32], bytes: &mut [u8])
    ensures { bytes.new ≡ numbers_after numbers.now bytes.old }
{
    if bytes.len() / 4 < numbers.len() {
        return;
    }
    put_numbers(bytes, 0, numbers);
}

// A buffer that is too short keeps its bytes.
pub fn write_result(o: Outcome, bytes: &mut [u8])
    ensures { Written o bytes.old bytes.new }
{
    if bytes.len() < RESULT_BYTES {
        return;
    }
    let numbers = [
        o.number,
        o.family,
        o.detail,
        o.place,
        o.over_place,
        o.passed,
        o.path_length,
    ];
    put_numbers(bytes, 0, &numbers);
}
