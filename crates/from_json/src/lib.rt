// The sheet of a rule that is written as JSON.
#![tactic(auto)]

mod formed; // formed.rt: well-formed sheets
mod making; // making.rt: a rule's sheet

ghost use Rattle.call.specs.Call.{Meets};
ghost use Rattle.json_rule.specs.Conversion.{run_of, from_json};

use buffer::lay::lay;
use making::make_sheet;

// What lies in front of a condition has at most 1,060 bytes, and a sheet at most 30,000.
const OUT_BYTES: usize = 31100;

// The buffer is too short for the sheet.
const NO_ROOM: u32 = 33;

// A refusal's number and 0, or 0 and the length of the sheet, which then lies at the start of its buffer.
pub fn from_json(text: &[u8], sheet: &mut [u8]) -> [u32; 2]
    ensures { Meets from_json (run_of text.now sheet.old sheet.new result) }
{
    let mut out = [0u8; OUT_BYTES];
    match make_sheet(text, &mut out) {
        Ok((start, end)) => {
            if sheet.len() < end - start {
                return [NO_ROOM, 0];
            }
            lay(sheet, 0, &out[start..end]);
            [0, (end - start) as u32]
        }
        Err(number) => [number, 0],
    }
}
