// Operators by their numbers (docs/FORMAT.md, "The rule sheet"): those that are told apart, and what they have in common.
ghost use Rattle.std.specs.Prelude.{◌≡◌};
ghost use Rattle.sheet.specs.Operators.{is_instant_test, is_affix, is_observed, is_service_operator};

pub const LITERAL: usize = 1;

pub const ANY: usize = 3;

pub const NOT: usize = 4;

pub const EXISTS: usize = 5;

pub const BEFORE: usize = 6;

pub const AFTER: usize = 7;

const EQ: usize = 8;

const CONTAINS: usize = 15;

const STARTS_WITH: usize = 16;

pub const ENDS_WITH: usize = 17;

pub const COMPARE: usize = 18;

pub const TRUTHY: usize = 19;

// Numbers go from 1 to this one, `for_any`.
pub const OPERATOR_COUNT: u32 = 21;

// Whether its values are instants.
pub fn is_instant_test(op: usize) -> bool
    ensures { result ≡ is_instant_test op }
{
    if op < BEFORE {
        return false;
    }
    op <= AFTER
}

// Whether its values are strings.
pub fn is_affix(op: usize) -> bool
    ensures { result ≡ is_affix op }
{
    if op < STARTS_WITH {
        return false;
    }
    op <= ENDS_WITH
}

// Whether the literal pass looks into its values.
pub fn is_observed(op: usize) -> bool
    ensures { result ≡ is_observed op }
{
    if COMPARE <= op {
        return op <= TRUTHY;
    }
    if op < EQ {
        return false;
    }
    op <= CONTAINS
}

// Whether it exists only under service.
pub fn is_service_operator(op: usize) -> bool
    ensures { result ≡ is_service_operator op }
{
    COMPARE <= op
}
