// What is answered about two schema sheets, as the numbers of a result.
ghost use Rattle.std.specs.Prelude.{◌≡◌};
ghost use Rattle.schema_change.specs.Answers.{reason_of, decision_of, widens_answer_of};
ghost use Rattle.single_check.specs.Outcomes.{numbers_by};
ghost use Rattle.widening.specs.SheetDecision.{decision, reason_number, decision_numbers};
ghost use Rattle.entity_rules.specs.WidensEntry.{in_places};

use schema_change::answer::{Change, Reason};
use single_check::outcome::Outcome;

fn reason_number(reason: Reason) -> u32
    ensures { result ≡ reason_number (reason_of reason) }
{
    match reason {
        Reason::FieldMissing => 1,
        Reason::KindDiffers => 2,
        Reason::ItemsDiffer => 3,
        Reason::TagDiffers => 4,
        Reason::MarkCloses => 5,
        Reason::FieldAdded => 6,
        Reason::ArgumentsGo => 7,
    }
}

// Five numbers in the places of a result's first five.
fn in_places(number: u32, answer: u32, reason: u32, first: u32, second: u32) -> Outcome
    ensures { numbers_by result ≡ in_places (record { number = number; answer = answer; reason = reason; first = first; second = second }) }
{
    Outcome {
        number,
        family: answer,
        detail: reason,
        place: first,
        over_place: second,
        passed: 0,
        path_length: 0,
    }
}

fn told_change(change: Change) -> Outcome
    ensures { numbers_by result ≡ in_places (decision_numbers (decision (decision_of change))) }
{
    match change {
        Change::Marks => in_places(0, 1, 0, 0, 0),
        Change::Anything => in_places(0, 2, 0, 0, 0),
        Change::Refuted(reason, first, second) => {
            in_places(0, 3, reason_number(reason), first, second)
        }
    }
}

pub fn told(answer: Result<Change, u32>) -> Outcome
    ensures { numbers_by result ≡ in_places (decision_numbers (widens_answer_of answer)) }
{
    match answer {
        Err(which) => in_places(4, which, 0, 0, 0),
        Ok(change) => told_change(change),
    }
}
