// Number text (RFC 8259, section 6), and which of it is finite. Every public function takes any bytes.
#![tactic(auto)]

mod bound;
mod grammar;
mod magnitude;

ghost use Rattle.std.specs.Prelude.{◌≡◌};
ghost use Rattle.number.specs.Grammar.{is_number};
ghost use Rattle.number.specs.Finite.{is_finite};
ghost use Rattle.number.specs.FirstDigit.{compared};

use magnitude::Tested;

// Whether `s` is a number text, all of it.
pub fn is_number(s: &[u8]) -> bool
    ensures { result ≡ is_number s.now }
{
    let Some(_) = grammar::split(s) else {
        return false;
    };
    true
}

// Whether `s` is a number text whose magnitude is below 2^1024 - 2^970, and how many of its digits were compared for that.
pub fn test(s: &[u8]) -> Tested
    ensures { (result.finite ≡ is_finite s.now) × (result.compared ≡ compared s.now) }
{
    let Some(p) = grammar::split(s) else {
        return Tested {
            finite: false,
            compared: 0,
        };
    };
    let whole = p.whole;
    let point = p.point;
    let fraction = p.fraction;
    let end = p.end;
    let exponent = p.exponent;
    magnitude::test_parts(
        &s[whole..point],
        &s[fraction..end],
        p.lowered,
        &s[exponent..],
    )
}

// Whether `s` is a number text whose magnitude is below 2^1024 - 2^970.
pub fn is_finite(s: &[u8]) -> bool
    ensures { result ≡ is_finite s.now }
{
    test(s).finite
}
