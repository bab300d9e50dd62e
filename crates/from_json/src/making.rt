// The sheet of a rule, before it is known whether there is room for it.
ghost use Rattle.std.specs.Prelude.{◌≡◌, length};
ghost use Rattle.from_json.specs.Making.{out_bytes, OverIs, MadeIs};

use crate::formed::is_formed;
use json_sheet::keys::keys_differ;
use json_sheet::rule_text::{RuleRead, read_rule_text};

// The text is no rule's.
const NO_RULE: u32 = 31;

// Its sheet is over a limit.
const OVER_LIMIT: u32 = 32;

// The refusal of a text whose sheet is over a limit. No rule's text has a key twice.
fn over_limit(text: &[u8]) -> u32
    ensures { OverIs text.now result }
{
    if keys_differ(text) {
        return OVER_LIMIT;
    }
    NO_RULE
}

// Where the sheet lies in `out`, or the number of the refusal. A sheet that is well formed has no key twice, so only for others the keys are looked at.
pub fn make_sheet(text: &[u8], out: &mut [u8]) -> Result<(usize, usize), u32>
    requires { length out.old ≡ out_bytes }
    ensures { MadeIs text.now out.new result }
{
    match read_rule_text(text, out) {
        RuleRead::Good(start, end) => {
            if is_formed(out, start, end) {
                return Ok((start, end));
            }
            Err(over_limit(text))
        }
        RuleRead::Long => Err(over_limit(text)),
        RuleRead::Bad => Err(NO_RULE),
    }
}
