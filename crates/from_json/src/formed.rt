// Whether what lies in a buffer is a well-formed sheet.
ghost use Rattle.from_json.specs.Making.{IsFormed};

use definition::limits::MAX_RULE_ENTRIES;
use rule::read_rule;

pub fn is_formed(out: &[u8], start: usize, end: usize) -> bool
    ensures { IsFormed out.now start end result }
{
    if out.len() < end {
        return false;
    }
    if end < start {
        return false;
    }
    let mut scratch = [0u32; MAX_RULE_ENTRIES];
    match read_rule(&out[start..end], &mut scratch) {
        Some(_) => true,
        None => false,
    }
}
