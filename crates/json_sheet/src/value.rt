// Values, each laid as its entries while it is read. A reader returns the place after it, and the end of its entries.
ghost use Rattle.std.specs.Prelude.{◌≡◌, ◌≤◌, length, drop};
ghost use Rattle.json_text.specs.Grammar.{unspaced, scalar, value};
ghost use Rattle.json_sheet.specs.Places.{string_rest, number_rest, elements_rest, members_rest, LaysHeaded, ValueIs, WordIs, ElementsAre, MemberIs, MembersAre};

use buffer::lay::{lay, lay_byte, lay_decimal, recount};
use json_text::between::{Separator, read_key, read_separator};
use json_text::string::read_string;
use json_text::token::{behind_spaces, is_spelled, number_end};
use json_text::unescape::lay_text;
use text::starts_with;

// An entry that ends in the text of a string: its head, the text's length and the text.
pub fn lay_headed(head: &[u8], s: &[u8], at: usize, len: usize, out: &mut [u8], o: usize) -> usize
    requires { at ≤ length s.now }
    ensures { LaysHeaded head.now s.now at len out.old out.new o result }
{
    let a = lay(out, o, head);
    let b = lay_decimal(out, a, len);
    let c = lay_byte(out, b, b',');
    let d = lay_text(s, at, out, c);
    lay_byte(out, d, 10)
}

// A string, from behind its first quotation mark on.
fn read_text(s: &[u8], at: usize, out: &mut [u8], o: usize) -> Option<(usize, usize)>
    requires { at ≤ length s.now }
    ensures { ValueIs string_rest s.now at out.old out.new o result }
{
    let (len, next) = read_string(s, at)?;
    Some((next, lay_headed(b"V,5,", s, at, len, out, o)))
}

fn read_number(s: &[u8], at: usize, out: &mut [u8], o: usize) -> Option<(usize, usize)>
    requires { at ≤ length s.now }
    ensures { ValueIs number_rest s.now at out.old out.new o result }
{
    let end = number_end(s, at);
    if end <= at {
        return None;
    }
    let a = lay(out, o, b"V,4,");
    let b = lay_decimal(out, a, end - at);
    let c = lay_byte(out, b, b',');
    let d = lay(out, c, &s[at..end]);
    Some((end, lay_byte(out, d, 10)))
}

// A word, from behind its first letter on, and the entry that stands for it.
pub fn read_word(
    s: &[u8],
    at: usize,
    rest: &[u8],
    head: &[u8],
    out: &mut [u8],
    o: usize,
) -> Option<(usize, usize)>
    requires { at ≤ length s.now }
    ensures { WordIs rest.now head.now s.now at out.old out.new o result }
{
    if is_spelled(s, at, rest) {
        return Some((at + rest.len(), lay(out, o, head)));
    }
    None
}

// A value that holds no other.
fn read_scalar(s: &[u8], at: usize, out: &mut [u8], o: usize) -> Option<(usize, usize)>
    ensures { ValueIs scalar s.now at out.old out.new o result }
{
    if s.len() <= at {
        return None;
    }
    let b = s[at];
    if b == b'"' {
        return read_text(s, at + 1, out, o);
    }
    if b == b'n' {
        return read_word(s, at + 1, b"ull", b"V,1,0,\n", out, o);
    }
    if b == b't' {
        return read_word(s, at + 1, b"rue", b"V,3,0,\n", out, o);
    }
    if b == b'f' {
        return read_word(s, at + 1, b"alse", b"V,2,0,\n", out, o);
    }
    read_number(s, at, out, o)
}

// A value. `depth` is how deep arrays and objects may nest.
#[cycle(read_array_read_elements_read_member_read_members_read_object_read_value)]
pub fn read_value(
    s: &[u8],
    at: usize,
    depth: usize,
    out: &mut [u8],
    o: usize,
) -> Option<(usize, usize)>
    ensures { ValueIs (value depth) s.now at out.old out.new o result }
{
    if s.len() <= at {
        return None;
    }
    let b = s[at];
    if b == b'[' {
        if depth == 0 {
            return None;
        }
        return read_array(s, at + 1, depth - 1, out, o);
    }
    if b == b'{' {
        if depth == 0 {
            return None;
        }
        return read_object(s, at + 1, depth - 1, out, o);
    }
    read_scalar(s, at, out, o)
}

// An array, from behind its opening bracket on. Its count is known at last.
#[cycle(read_array_read_elements_read_member_read_members_read_object_read_value)]
fn read_array(s: &[u8], at: usize, depth: usize, out: &mut [u8], o: usize) -> Option<(usize, usize)>
    requires { at ≤ length s.now }
    ensures { ValueIs (elements_rest (value depth)) s.now at out.old out.new o result }
{
    let count = lay(out, o, b"V,6,");
    let start = lay(out, count, b"0,\n");
    let i = behind_spaces(s, at);
    if starts_with(s, i, b']') {
        return Some((i + 1, start));
    }
    let (next, end, n) = read_elements(s, i, depth, out, start)?;
    Some((next, recount(out, count, end, n)))
}

// One element at least: the place after the closing bracket, the end of the entries, and how many elements there are.
#[cycle(read_array_read_elements_read_member_read_members_read_object_read_value)]
fn read_elements(
    s: &[u8],
    at: usize,
    depth: usize,
    out: &mut [u8],
    o: usize,
) -> Option<(usize, usize, usize)>
    requires { (at ≤ length s.now) × (unspaced (drop at s.now) ≡ drop at s.now) }
    ensures { ElementsAre (value depth) s.now at out.old out.new o result }
{
    let mut i = at;
    let mut e = o;
    let mut n: usize = 0;
    loop {
        let (next, end) = read_value(s, i, depth, out, e)?;
        n += 1;
        e = end;
        match read_separator(s, next, b']')? {
            Separator::More(place) => {
                i = place;
            }
            Separator::End(place) => {
                return Some((place, e, n));
            }
        }
    }
}

// An object, from behind its opening bracket on.
#[cycle(read_array_read_elements_read_member_read_members_read_object_read_value)]
fn read_object(
    s: &[u8],
    at: usize,
    depth: usize,
    out: &mut [u8],
    o: usize,
) -> Option<(usize, usize)>
    requires { at ≤ length s.now }
    ensures { ValueIs (members_rest (value depth)) s.now at out.old out.new o result }
{
    let count = lay(out, o, b"V,7,");
    let start = lay(out, count, b"0,\n");
    let i = behind_spaces(s, at);
    if starts_with(s, i, b'}') {
        return Some((i + 1, start));
    }
    let (next, end, n) = read_members(s, i, depth, out, start)?;
    Some((next, recount(out, count, end, n)))
}

// A name and its value.
#[cycle(read_array_read_elements_read_member_read_members_read_object_read_value)]
fn read_member(
    s: &[u8],
    at: usize,
    depth: usize,
    out: &mut [u8],
    o: usize,
) -> Option<(usize, usize)>
    ensures { MemberIs (value depth) s.now at out.old out.new o result }
{
    let (len, next) = read_key(s, at)?;
    let e = lay_headed(b"K,", s, at + 1, len, out, o);
    read_value(s, next, depth, out, e)
}

// One member at least: the place after the closing bracket, the end of the entries, and how many members there are.
#[cycle(read_array_read_elements_read_member_read_members_read_object_read_value)]
fn read_members(
    s: &[u8],
    at: usize,
    depth: usize,
    out: &mut [u8],
    o: usize,
) -> Option<(usize, usize, usize)>
    requires { (at ≤ length s.now) × (unspaced (drop at s.now) ≡ drop at s.now) }
    ensures { MembersAre (value depth) s.now at out.old out.new o result }
{
    let mut i = at;
    let mut e = o;
    let mut n: usize = 0;
    loop {
        let (next, end) = read_member(s, i, depth, out, e)?;
        n += 1;
        e = end;
        match read_separator(s, next, b'}')? {
            Separator::More(place) => {
                i = place;
            }
            Separator::End(place) => {
                return Some((place, e, n));
            }
        }
    }
}
