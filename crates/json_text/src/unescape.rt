// The text of a string, laid without its escapes.
ghost use Rattle.std.specs.Prelude.{◌≤◌, ◌<◌, length};
ghost use Rattle.buffer.specs.Laid.{Laid};
ghost use Rattle.json_text.specs.Encode.{utf8_of};
ghost use Rattle.json_text.specs.Unescaped.{LaysText};

use crate::escape::char;
use crate::string::plain_end;
use buffer::lay::{lay, lay_byte};

// The UTF-8 of a code point.
pub fn lay_point(out: &mut [u8], o: usize, c: u32) -> usize
    requires { c < 0x200000 }
    ensures { Laid out.old out.new o (utf8_of c) result }
{
    if c <= 0x7F {
        return lay_byte(out, o, c as u8);
    }
    if c <= 0x7FF {
        let p = lay_byte(out, o, (0xC0 + c / 64) as u8);
        return lay_byte(out, p, (0x80 + c % 64) as u8);
    }
    if c <= 0xFFFF {
        let p = lay_byte(out, o, (0xE0 + c / 4096) as u8);
        let q = lay_byte(out, p, (0x80 + c / 64 % 64) as u8);
        return lay_byte(out, q, (0x80 + c % 64) as u8);
    }
    let p = lay_byte(out, o, (0xF0 + c / 262144) as u8);
    let q = lay_byte(out, p, (0x80 + c / 4096 % 64) as u8);
    let r = lay_byte(out, q, (0x80 + c / 64 % 64) as u8);
    lay_byte(out, r, (0x80 + c % 64) as u8)
}

// The text of the string that is read at a place, from behind its first quotation mark on. What stands for itself is laid as a block.
pub fn lay_text(s: &[u8], at: usize, out: &mut [u8], o: usize) -> usize
    requires { at ≤ length s.now }
    ensures { LaysText s.now at out.old out.new o result }
{
    let mut i = at;
    let mut e = o;
    while i < s.len() {
        let end = plain_end(s, i);
        let p = lay(out, e, &s[i..end]);
        if s.len() <= end {
            return p;
        }
        if s[end] == b'"' {
            return p;
        }
        let Some((c, next)) = char(s, end) else {
            return p;
        };
        e = lay_point(out, p, c);
        i = next;
    }
    e
}
