// The result of the checks so far, and how the next check extends it.
ghost use Rattle.std.specs.Prelude.{◌≡◌};
ghost use Rattle.value_checks.specs.Verdicts.{going, HasRoom, PassedOn, Failed, Required};

use walk::answer::{CollectionFault, ReferenceFault};

// A side of a comparison.
#[derive(Clone, Copy)]
pub enum Side {
    Left,
    Right,
}

// Why an operand of `before` or `after` is not an instant.
#[derive(Clone, Copy)]
pub enum InstantFault {
    // Text that begins with `$$`.
    Escaped,
    Unreadable,
}

// Why a check fails; docs/FORMAT.md, "Answers", from 11 on, in its order.
#[derive(Clone, Copy)]
pub enum Fault {
    Name,
    Message,
    Deep,
    Literal,
    Operator,
    Empty,
    // The side that is an array or an object.
    Operand(Side),
    // The fault, and the entry of the field that refused.
    Reference(ReferenceFault, usize),
    Affix,
    Instant(InstantFault),
    Bind,
    // The same of the `in` value.
    Collection(CollectionFault, usize),
}

// The fault, the entry that it is found at, and the entry of the `in` value of the innermost quantifier around it.
pub type Verdict = Result<(), (Fault, usize, Option<usize>)>;

#[derive(Clone, Copy)]
pub struct Progress {
    // The checks that passed, up to the first that does not.
    pub passed: usize,
    // Of that one.
    pub verdict: Verdict,
}

// No check has failed so far.
pub fn going(passed: usize) -> Progress
    ensures { result ≡ going passed }
{
    Progress {
        passed,
        verdict: Ok(()),
    }
}

// One check more, which passes.
pub fn pass(passed: usize) -> Progress
    requires { HasRoom (going passed) 1 }
    ensures { PassedOn (going passed) result }
{
    going(passed + 1)
}

// One check more, which fails: the end.
pub fn fail(passed: usize, fault: Fault, place: usize, over: Option<usize>) -> Progress
    ensures { Failed (going passed) fault place over result }
{
    Progress {
        passed,
        verdict: Err((fault, place, over)),
    }
}

// One check more, which fails with the fault where `wrong` holds.
pub fn require(
    passed: usize,
    wrong: bool,
    fault: Fault,
    place: usize,
    over: Option<usize>,
) -> Progress
    requires { HasRoom (going passed) 1 }
    ensures { Required (going passed) wrong fault place over result }
{
    if wrong {
        return fail(passed, fault, place, over);
    }
    pass(passed)
}
