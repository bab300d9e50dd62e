// A file taken apart.
ghost use Rattle.std.specs.Prelude.{◌≤◌, length};
ghost use Rattle.check_file.specs.Places.{TextsAre, TakenIs};

use crate::numeral;
use definition::limits::MAX_FILE_BYTES;
use text::numeral::to_size;
use text::part::Part;

#[derive(Clone, Copy)]
pub struct Placed {
    pub kind: u32,
    pub semantics: u32,
    pub label: Part,
    pub schema: Part,
    pub rule: Part,
}

// The texts after the numbers, from `at` on. No sum here wraps: a slice is shorter than half the address space.
fn texts(
    file: &[u8],
    at: usize,
    kind: u32,
    semantics: u32,
    label: u32,
    schema: u32,
    rule: u32,
) -> Option<Placed>
    requires { at ≤ length file.now }
    ensures { TextsAre file.now at kind semantics label schema rule result }
{
    let label_bytes = to_size(label);
    let schema_bytes = to_size(schema);
    let rule_bytes = to_size(rule);
    let line = at + label_bytes;
    let middle = line + 1 + schema_bytes;
    if middle + rule_bytes != file.len() {
        return None;
    }
    if file[line] == b'\n' {
        return Some(Placed {
            kind,
            semantics,
            label: Part {
                start: at,
                len: label_bytes,
            },
            schema: Part {
                start: line + 1,
                len: schema_bytes,
            },
            rule: Part {
                start: middle,
                len: rule_bytes,
            },
        });
    }
    None
}

// Where the parts of a file lie in it. Settings above 65,537 are answered as 65,537.
pub fn take_apart(file: &[u8]) -> Option<Placed>
    ensures { TakenIs file.now result }
{
    if MAX_FILE_BYTES < file.len() {
        return None;
    }
    let (kind, second) = numeral::field(file, 0)?;
    let (semantics, third) = numeral::field(file, second)?;
    let (label, fourth) = numeral::field(file, third)?;
    let (schema, fifth) = numeral::field(file, fourth)?;
    let (rule, behind) = numeral::field(file, fifth)?;
    texts(file, behind, kind, semantics, label, schema, rule)
}
