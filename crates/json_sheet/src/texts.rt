// Texts of strings where they stand, each from behind its first quotation mark on: the same or not, and their slots.
ghost use Rattle.std.specs.Prelude.{◌≡◌, ◌<◌};
ghost use Rattle.json_text.specs.Encode.{utf8_of};
ghost use Rattle.json_keys.specs.Texts.{SameText, stir, stirred, SlotIs};

use json_text::escape::char;
use text::starts_with;

pub fn same_text(s: &[u8], a: usize, b: usize) -> bool
    ensures { SameText s.now a b result }
{
    let mut i = a;
    let mut j = b;
    loop {
        if starts_with(s, i, b'"') {
            return starts_with(s, j, b'"');
        }
        if starts_with(s, j, b'"') {
            return false;
        }
        let Some((c, next)) = char(s, i) else {
            return false;
        };
        let Some((d, behind)) = char(s, j) else {
            return false;
        };
        if c != d {
            return false;
        }
        i = next;
        j = behind;
    }
}

// One byte more.
fn stir(h: u32, b: u32) -> u32
    ensures { result ≡ stir h b }
{
    ((h as usize + b as usize) * 1540483477 % 4294967296) as u32
}

// The UTF-8 of one code point more.
fn stir_point(h: u32, c: u32) -> u32
    requires { c < 0x200000 }
    ensures { result ≡ stirred h (utf8_of c) }
{
    if c <= 0x7F {
        return stir(h, c);
    }
    if c <= 0x7FF {
        return stir(stir(h, 0xC0 + c / 64), 0x80 + c % 64);
    }
    if c <= 0xFFFF {
        let x = stir(h, 0xE0 + c / 4096);
        return stir(stir(x, 0x80 + c / 64 % 64), 0x80 + c % 64);
    }
    let x = stir(h, 0xF0 + c / 262144);
    let y = stir(x, 0x80 + c / 4096 % 64);
    stir(stir(y, 0x80 + c / 64 % 64), 0x80 + c % 64)
}

pub fn slot_of(s: &[u8], at: usize) -> usize
    ensures { SlotIs s.now at result }
{
    let mut h: u32 = 0;
    let mut i = at;
    loop {
        if starts_with(s, i, b'"') {
            return h as usize / 262144;
        }
        let Some((c, next)) = char(s, i) else {
            return h as usize / 262144;
        };
        h = stir_point(h, c);
        i = next;
    }
}
