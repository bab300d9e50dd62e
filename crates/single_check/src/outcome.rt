// The seven numbers of a result, and the count of marks beside them.
ghost use Rattle.std.specs.Prelude.{◌≡◌};
ghost use Rattle.validation.specs.Result.{numbers_of};
ghost use Rattle.validation.specs.Result as Result;
ghost use Rattle.single_check.specs.Outcomes.{numbers_by};

#[derive(Clone, Copy)]
pub struct Outcome {
    // 0 accepted, 11 to 22 a defect, else refused.
    pub number: u32,
    pub family: u32,
    pub detail: u32,
    pub place: u32,
    pub over_place: u32,
    pub passed: u32,
    pub path_length: u32,
}

// What a check with a mark list answers: the seven numbers, and how many marks were written.
#[derive(Clone, Copy)]
pub struct Report {
    pub outcome: Outcome,
    pub marks: u32,
}

pub fn refused(number: u32) -> Outcome
    ensures { numbers_by result ≡ numbers_of (Result.refused number) }
{
    Outcome {
        number,
        family: 0,
        detail: 0,
        place: 0,
        over_place: 0,
        passed: 0,
        path_length: 0,
    }
}

pub fn accepted(passed: u32) -> Outcome
    ensures { numbers_by result ≡ numbers_of (Result.accepted passed) }
{
    Outcome {
        number: 0,
        family: 0,
        detail: 0,
        place: 0,
        over_place: 0,
        passed,
        path_length: 0,
    }
}
