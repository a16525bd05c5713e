// Runs: the dots of one replica from a first counter to a last one.
ghost use Rattle.std.specs.Prelude.{◌≡◌};
ghost use Rattle.causal.specs.Runs.{is_run, in_run, before};

use crate::dots::{Counter, Dot, LAST_COUNTER, is_replica_number};

#[derive(Clone, Copy, Debug, PartialEq, Eq)]
pub struct Run {
    pub replica: u8,
    pub first: Counter,
    pub last: Counter,
}

// Stands where there is no run.
pub const NO_RUN: Run = Run {
    replica: 0,
    first: 0,
    last: 0,
};

impl Run {
    pub fn is_well_formed(self) -> bool
        ensures { result ≡ is_run self }
    {
        is_replica_number(self.replica)
            && 1 <= self.first
            && self.first <= self.last
            && self.last <= LAST_COUNTER
    }

    #[tactic(auto, unfolding(crate::specs::Runs::in_run))]
    pub fn contains(self, dot: Dot) -> bool
        ensures { result ≡ in_run self dot }
    {
        self.replica == dot.replica && (self.first..=self.last).contains(&dot.counter)
    }

    // Whether this run ends before the other begins, with a dot between them that is in neither.
    #[tactic(auto, unfolding(crate::specs::Runs::before))]
    pub fn ends_before(self, other: Run) -> bool
        ensures { result ≡ before self other }
    {
        self.replica < other.replica
            || (self.replica == other.replica && other.first.saturating_sub(self.last) > 1)
    }
}
