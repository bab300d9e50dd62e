// A string as it is written: its text in quotation marks, with the escapes.
ghost use Rattle.std.specs.Prelude.{[], ◌∷◌, ◌≡◌, ◌<◌};
ghost use Rattle.buffer.specs.Laid.{Laid};
ghost use Rattle.json_text.specs.Escaped.{short_letter, letter_of, hex_of, control_of, escaped_byte, escaped, quoted};
ghost use Rattle.json_text.specs.Quoted.{escapes_of};

use crate::string::plain_end;
use buffer::lay::{lay, lay_byte};

// Which escapes are written.
#[derive(Clone, Copy)]
pub enum Escapes {
    // A backslash before `"` and `\`, and `\u00xx`.
    Plain,
    // Also `\b`, `\t`, `\n`, `\f` and `\r`.
    Short,
}

// The letter of a short escape, or 0 where there is none.
fn short_letter(b: u8) -> u8
    ensures { result ≡ short_letter b }
{
    if b == 0x8 {
        return b'b';
    }
    if b == 0x9 {
        return b't';
    }
    if b == 0xA {
        return b'n';
    }
    if b == 0xC {
        return b'f';
    }
    if b == 0xD {
        return b'r';
    }
    0
}

fn letter_of(how: Escapes, b: u8) -> u8
    ensures { result ≡ letter_of (escapes_of how) b }
{
    match how {
        Escapes::Plain => 0,
        Escapes::Short => short_letter(b),
    }
}

fn hex_of(n: u8) -> u8
    requires { n < 16 }
    ensures { result ≡ hex_of n }
{
    if n <= 9 {
        return 48 + n;
    }
    87 + n
}

// A backslash and the byte.
fn lay_backslashed(out: &mut [u8], o: usize, b: u8) -> usize
    ensures { Laid out.old out.new o (0x5C ∷ b ∷ []) result }
{
    let p = lay_byte(out, o, b'\\');
    lay_byte(out, p, b)
}

// A byte below 20 hexadecimal.
fn lay_control(out: &mut [u8], o: usize, letter: u8, b: u8) -> usize
    ensures { Laid out.old out.new o (control_of letter b) result }
{
    if letter == 0 {
        let p = lay(out, o, b"\\u00");
        let q = lay_byte(out, p, hex_of(b / 16));
        return lay_byte(out, q, hex_of(b % 16));
    }
    lay_backslashed(out, o, letter)
}

fn lay_escaped_byte(out: &mut [u8], o: usize, b: u8, how: Escapes) -> usize
    ensures { Laid out.old out.new o (escaped_byte (escapes_of how) b) result }
{
    if b == b'"' {
        return lay_backslashed(out, o, b);
    }
    if b == b'\\' {
        return lay_backslashed(out, o, b);
    }
    if 0x20 <= b {
        return lay_byte(out, o, b);
    }
    lay_control(out, o, letter_of(how, b), b)
}

fn lay_escaped(out: &mut [u8], o: usize, text: &[u8], how: Escapes) -> usize
    ensures { Laid out.old out.new o (escaped (escapes_of how) text.now) result }
{
    let mut i = 0;
    let mut e = o;
    while i < text.len() {
        let end = plain_end(text, i);
        e = lay(out, e, &text[i..end]);
        if text.len() <= end {
            return e;
        }
        e = lay_escaped_byte(out, e, text[end], how);
        i = end + 1;
    }
    e
}

pub fn lay_quoted(out: &mut [u8], o: usize, text: &[u8], how: Escapes) -> usize
    ensures { Laid out.old out.new o (quoted (escapes_of how) text.now) result }
{
    let p = lay_byte(out, o, b'"');
    let q = lay_escaped(out, p, text, how);
    lay_byte(out, q, b'"')
}
