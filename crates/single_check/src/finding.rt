// What a defect is called: number, family and detail of a verdict's fault; docs/FORMAT.md, "Answers".
ghost use Rattle.std.specs.Prelude.{cond, ◌≡◌};
ghost use Rattle.walk.specs.Answers.{reference_detail, collection_detail};
ghost use Rattle.validation.specs.Result.{family_in, over_place_in};
ghost use Rattle.value_checks.specs.Verdicts.{over_by, side_detail, instant_detail};
ghost use Rattle.single_check.specs.Findings.{FindingIs};

use value_checks::verdict::{Fault, InstantFault, Side};
use walk::answer::{CollectionFault, ReferenceFault};

#[derive(Clone, Copy)]
pub struct Finding {
    pub number: u32,
    // Outside all quantifier bodies.
    pub family: u32,
    pub detail: u32,
}

fn side_detail(side: Side) -> u32
    ensures { result ≡ side_detail side }
{
    match side {
        Side::Left => 1,
        Side::Right => 2,
    }
}

fn instant_detail(fault: InstantFault) -> u32
    ensures { result ≡ instant_detail fault }
{
    match fault {
        InstantFault::Escaped => 1,
        InstantFault::Unreadable => 2,
    }
}

pub fn reference_detail(fault: ReferenceFault) -> u32
    ensures { result ≡ reference_detail fault }
{
    match fault {
        ReferenceFault::EmptyPath => 1,
        ReferenceFault::UnknownRoot => 2,
        ReferenceFault::UnknownProperty => 3,
        ReferenceFault::ArrayMember => 4,
        ReferenceFault::MapMember => 5,
        ReferenceFault::AfterCount => 6,
        ReferenceFault::AfterTag => 7,
        ReferenceFault::UnionMember => 8,
        ReferenceFault::NoCount => 9,
        ReferenceFault::NoMember => 10,
        ReferenceFault::RootNotAvailable => 11,
        ReferenceFault::NoSuchReference => 12,
        ReferenceFault::TextCount => 13,
    }
}

fn collection_detail(fault: CollectionFault) -> u32
    ensures { result ≡ collection_detail fault }
{
    match fault {
        CollectionFault::NotAString => 1,
        CollectionFault::UnknownProperty => 2,
        CollectionFault::NoMember => 3,
        CollectionFault::NotACollection => 4,
        CollectionFault::NoName => 5,
    }
}

// The family of a reference that cannot be read.
fn reference_family(rule_kind: bool) -> u32
    ensures { result ≡ cond rule_kind 1 2 }
{
    if rule_kind { 1 } else { 2 }
}

fn found(number: u32, family: u32, detail: u32) -> Finding
    ensures { result ≡ record { number = number; family = family; detail = detail } }
{
    Finding {
        number,
        family,
        detail,
    }
}

pub fn find(rule_kind: bool, fault: Fault) -> Finding
    ensures { FindingIs rule_kind fault result }
{
    match fault {
        Fault::Name => found(11, 1, 0),
        Fault::Message => found(12, 1, 0),
        Fault::Deep => found(13, 4, 0),
        Fault::Literal => found(14, 1, 0),
        Fault::Operator => found(15, 3, 0),
        Fault::Empty => found(16, 1, 0),
        Fault::Operand(side) => found(17, 5, side_detail(side)),
        Fault::Reference(f, _) => found(18, reference_family(rule_kind), reference_detail(f)),
        Fault::Affix => found(19, 1, 0),
        Fault::Instant(f) => found(20, 1, instant_detail(f)),
        Fault::Bind => found(21, 6, 0),
        Fault::Collection(f, _) => found(22, 7, collection_detail(f)),
    }
}

// Family 1 is 8 inside a quantifier's body.
pub fn family_in(over: Option<usize>, family: u32) -> u32
    ensures { result ≡ family_in (over_by over) family }
{
    let Some(_) = over else {
        return family;
    };
    if family == 1 { 8 } else { family }
}

// Where the collection of the innermost quantifier is, for family 8.
pub fn over_place(over: Option<usize>, family: u32) -> usize
    ensures { result ≡ over_place_in (over_by over) family }
{
    let Some(entry) = over else {
        return 0;
    };
    if family == 1 { entry } else { 0 }
}
