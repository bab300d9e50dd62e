// Whether a sheet is well formed, as C functions for a host. They bring a scratch of their own.
#![tactic(auto)]

ghost use Rattle.std.specs.Prelude.{◌≡◌};
ghost use Rattle.definition.specs.Decode.{decode_schema, decode_rule};
ghost use Rattle.sheet_acceptance.specs.Accepted.{accepted};

use definition::limits::SCRATCH_WORDS;

// 1 for a schema sheet that is well formed, else 0.
#[unsafe(no_mangle)]
pub extern "C" fn acceptance_schema(sheet: &[u8]) -> u32
    ensures { result ≡ accepted (decode_schema sheet.now) }
{
    let mut scratch = [0u32; SCRATCH_WORDS];
    let schema = schema::read::read_schema(sheet, &mut scratch);
    if schema.is_some() { 1 } else { 0 }
}

// 1 for a rule sheet that is well formed, else 0.
#[unsafe(no_mangle)]
pub extern "C" fn acceptance_rule(sheet: &[u8]) -> u32
    ensures { result ≡ accepted (decode_rule sheet.now) }
{
    let mut scratch = [0u32; SCRATCH_WORDS];
    let rule = rule::read_rule(sheet, &mut scratch);
    if rule.is_some() { 1 } else { 0 }
}
