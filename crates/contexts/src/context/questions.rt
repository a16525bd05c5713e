// What a context answers, without change.
ghost use Rattle.std.specs.Prelude.{◌≡◌, [], length};
ghost use Rattle.contexts.specs.Contexts.{runs_of};
ghost use Rattle.causal.specs.Runs.{has, highest, last};
ghost use Rattle.std.specs.List.{slice_get};

use crate::context::{Context, MOST_RUNS};
use causal::dots::{Counter, Dot};
use causal::runs::{NO_RUN, Run};

impl Context {
    pub fn empty() -> Context
        ensures { runs_of result ≡ [] }
    {
        Context {
            runs: [NO_RUN; MOST_RUNS],
            count: 0,
        }
    }

    pub fn run_count(&self) -> usize
        ensures { result ≡ length (runs_of self.now) }
    {
        self.count
    }

    // The run at a position; none past the last.
    pub fn run_at(&self, position: usize) -> Option<Run>
        ensures { result ≡ slice_get (runs_of self.now) position }
    {
        self.in_use().get(position).copied()
    }

    // The last run; none where there is no run.
    pub fn last_run(&self) -> Option<Run>
        ensures { result ≡ last (runs_of self.now) }
    {
        self.in_use().last().copied()
    }

    pub fn contains(&self, dot: Dot) -> bool
        ensures { result ≡ has (runs_of self.now) dot }
    {
        self.in_use().iter().any(|run| run.contains(dot))
    }

    // The replica's highest counter, 0 if there is none.
    pub fn highest_counter(&self, replica: u8) -> Counter
        ensures { result ≡ highest replica (runs_of self.now) }
    {
        let of_replica = self.in_use().iter().filter(|run| run.replica == replica);
        of_replica.map(|run| run.last).max().unwrap_or(0)
    }
}
