// Why a group cannot be joined.
ghost use Rattle.std.specs.Prelude.{◌≡◌};
ghost use Rattle.joining.specs.Outcomes.{refusal_of};

use refusals::{Refusal, refuse};

#[derive(Clone, Copy, Debug, PartialEq, Eq)]
pub enum JoinFault {
    // This part would hold more entries than it has room for.
    Overfull(usize),
    // The context would have more runs than it has room for.
    TooManyRuns,
}

// By what number, layer and place a caller is told of a fault.
impl From<JoinFault> for Refusal {
    ghost from_gives = { λ f r. r ≡ refusal_of f };

    fn from(fault: JoinFault) -> Refusal {
        match fault {
            JoinFault::Overfull(part) => refuse(33, part as u64),
            JoinFault::TooManyRuns => refuse(34, 1),
        }
    }
}
