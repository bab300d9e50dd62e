// White space, words and numbers (RFC 8259, sections 2, 3 and 6).
ghost use Rattle.std.specs.Prelude.{◌≡◌, ◌≤◌, length};
ghost use Rattle.json_text.specs.Grammar.{is_space, is_of_number};
ghost use Rattle.json_text.specs.TokenAt.{SpacesTo, RunTo, NumberTo, SpelledAt};

use number::is_number;
use text::{is_digit, starts_with};

fn is_space(b: u8) -> bool
    ensures { result ≡ is_space b }
{
    if b == 0x20 {
        return true;
    }
    if b == 0x9 {
        return true;
    }
    if b == 0xA {
        return true;
    }
    b == 0xD
}

// The place after white space.
pub fn behind_spaces(s: &[u8], at: usize) -> usize
    requires { at ≤ length s.now }
    ensures { SpacesTo s.now at result }
{
    for i in at..s.len() {
        if !is_space(s[i]) {
            return i;
        }
    }
    s.len()
}

// Whether a byte is one of numbers.
fn is_of_number(b: u8) -> bool
    ensures { result ≡ is_of_number b }
{
    if is_digit(b) {
        return true;
    }
    if b == b'+' {
        return true;
    }
    if b == b'-' {
        return true;
    }
    if b == b'.' {
        return true;
    }
    if b == b'E' {
        return true;
    }
    b == b'e'
}

// Where the bytes of numbers end.
fn run_end(s: &[u8], at: usize) -> usize
    requires { at ≤ length s.now }
    ensures { RunTo s.now at result }
{
    for i in at..s.len() {
        if !is_of_number(s[i]) {
            return i;
        }
    }
    s.len()
}

// The place after a number, or `at` where there is none.
pub fn number_end(s: &[u8], at: usize) -> usize
    requires { at ≤ length s.now }
    ensures { NumberTo s.now at result }
{
    let end = run_end(s, at);
    if is_number(&s[at..end]) {
        return end;
    }
    at
}

// Whether a word stands at a place.
pub fn is_spelled(s: &[u8], at: usize, word: &[u8]) -> bool
    requires { at ≤ length s.now }
    ensures { SpelledAt word.now s.now at result }
{
    for i in 0..word.len() {
        if !starts_with(s, at + i, word[i]) {
            return false;
        }
    }
    true
}
