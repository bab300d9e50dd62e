// What is answered about two sheets. What was found so far is handed from part to part, so that the first breach stays.
ghost use Rattle.std.specs.Prelude.{[], ◌∷◌, ◌≡◌};
ghost use Rattle.widening.specs.Decision.{growth, breach, breach_if};
ghost use Rattle.schema_change.specs.Answers.{reason_of, Goes, is_open_yet};

// Why a schema is not a widening; docs/FORMAT.md, "Is it a widening?", in its order.
#[derive(Clone, Copy)]
pub enum Reason {
    FieldMissing,
    KindDiffers,
    ItemsDiffer,
    TagDiffers,
    MarkCloses,
    FieldAdded,
    ArgumentsGo,
}

// What was found.
#[derive(Clone, Copy)]
pub enum Change {
    // At most open marks gone from 0 to 1.
    Marks,
    // More fields, or arguments that appear.
    Anything,
    // Not a widening, with the entry in each sheet, 0 where there is none.
    Refuted(Reason, u32, u32),
}

pub fn refute(found: Change, reason: Reason, first: u32, second: u32) -> Change
    ensures { Goes found (breach (reason_of reason) first second ∷ []) result }
{
    match found {
        Change::Marks => Change::Refuted(reason, first, second),
        Change::Anything => Change::Refuted(reason, first, second),
        Change::Refuted(earlier, a, b) => Change::Refuted(earlier, a, b),
    }
}

pub fn refute_if(found: Change, is: bool, reason: Reason, first: u32, second: u32) -> Change
    ensures { Goes found (breach_if is (reason_of reason) first second) result }
{
    if is {
        refute(found, reason, first, second)
    } else {
        found
    }
}

pub fn grow(found: Change) -> Change
    ensures { Goes found (growth ∷ []) result }
{
    match found {
        Change::Marks => Change::Anything,
        Change::Anything => Change::Anything,
        Change::Refuted(earlier, a, b) => Change::Refuted(earlier, a, b),
    }
}

// Whether no breach was found.
pub fn is_open_yet(found: Change) -> bool
    ensures { result ≡ is_open_yet found }
{
    match found {
        Change::Marks => true,
        Change::Anything => true,
        Change::Refuted(_, _, _) => false,
    }
}
