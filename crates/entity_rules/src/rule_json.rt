// Rules from JSON and back for a host, with the two numbers of the result as bytes.
ghost use Rattle.json_rule.specs.Conversion.{from_json, to_json};
ghost use Rattle.entity_rules.specs.JsonEntry.{Converted};

use crate::result::write_numbers;
use from_json::from_json;
use to_json::to_json;

// Makes the sheet of a rule from JSON. `sheet` takes it, 30,000 bytes at most, and `res` at least 8.
#[unsafe(no_mangle)]
pub extern "C" fn rulecheck_from_json(text: &[u8], sheet: &mut [u8], res: &mut [u8]) -> u32
    ensures { Converted from_json text.now sheet.old sheet.new res.old res.new result }
{
    let numbers = from_json(text, sheet);
    write_numbers(&numbers, res);
    numbers[0]
}

// Turns a sheet that begins with `R` into JSON. `json` takes the text, 180,000 bytes at most, and `res` at least 8.
#[unsafe(no_mangle)]
pub extern "C" fn rulecheck_to_json(sheet: &[u8], json: &mut [u8], res: &mut [u8]) -> u32
    ensures { Converted to_json sheet.now json.old json.new res.old res.new result }
{
    let numbers = to_json(sheet, json);
    write_numbers(&numbers, res);
    numbers[0]
}
