// What the operations hand over; weighing hands over load's `Weighed`.
#![tactic(auto)]

ghost use Rattle.std.specs.Prelude.{◌≡◌};
ghost use Rattle.answers.specs.Code.Handing.{planned_from};

use candidates::Kept;
use refusal::{Outcome, Refusal};

// What a plan and a chart answer: how many bytes they wrote.
// Kept: this and the two below are no `Result`s: theorem `every_number` of planner says that a refusal has zeros in the other places.
#[derive(Clone, Copy)]
pub struct Planned {
    pub outcome: Outcome,
    pub written: usize,
}

impl From<Result<usize, Refusal>> for Planned {
    ghost from_gives = { λ written result. result ≡ planned_from written };

    fn from(written: Result<usize, Refusal>) -> Planned {
        match written {
            Ok(written) => Planned {
                outcome: Outcome::Done,
                written,
            },
            Err(r) => Planned {
                outcome: Outcome::Refused(r),
                written: 0,
            },
        }
    }
}

// What candidates answers: the kept pairs of the part and their count.
#[derive(Clone, Copy)]
pub struct CandidateList {
    pub outcome: Outcome,
    pub kept: Kept,
}

// What supply answers.
#[derive(Clone, Copy)]
pub struct Supplied {
    pub outcome: Outcome,
    pub ticks: u64,
}
