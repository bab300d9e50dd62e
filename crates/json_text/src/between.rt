// What stands between values: names with their colons, commas and closing brackets, with the white space around them.
ghost use Rattle.std.specs.Prelude.{◌≤◌, length};
ghost use Rattle.json_text.specs.BetweenAt.{KeyIs, SeparatorIs};

use crate::string::read_string;
use crate::token::behind_spaces;
use text::starts_with;

// What is read behind a value in brackets.
#[derive(Clone, Copy)]
pub enum Separator {
    // A comma; the place of what comes next.
    More(usize),
    // The closing bracket; the place after it.
    End(usize),
}

// A name with its colon: how long the name's text is, which begins behind the quotation mark, and the place of the value.
pub fn read_key(s: &[u8], at: usize) -> Option<(usize, usize)>
    ensures { KeyIs s.now at result }
{
    if starts_with(s, at, b'"') {
        let (len, behind) = read_string(s, at + 1)?;
        let i = behind_spaces(s, behind);
        if starts_with(s, i, b':') {
            return Some((len, behind_spaces(s, i + 1)));
        }
        return None;
    }
    None
}

// None if neither a comma nor the closing bracket comes next.
pub fn read_separator(s: &[u8], at: usize, close: u8) -> Option<Separator>
    requires { at ≤ length s.now }
    ensures { SeparatorIs close s.now at result }
{
    let i = behind_spaces(s, at);
    if starts_with(s, i, b',') {
        return Some(Separator::More(behind_spaces(s, i + 1)));
    }
    if starts_with(s, i, close) {
        return Some(Separator::End(i + 1));
    }
    None
}
