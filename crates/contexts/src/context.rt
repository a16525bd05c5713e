// A causal context: the set of dots that somebody knows of, as canonical runs.
ghost use Rattle.std.specs.Prelude.{◌≡◌, ◌≤◌, true, length, take};
ghost use Rattle.causal.specs.Runs.{canonical};

use causal::runs::Run;

pub mod questions;
pub mod union;

// A context has at most this many runs.
pub const MOST_RUNS: usize = 96;

// Why a context did not take what it was given.
#[derive(Clone, Copy, Debug, PartialEq, Eq)]
pub enum ContextFault {
    TooManyRuns,
    BadRun,
}

// The runs in front are in use. Those past them mean nothing.
// Stays as it is: an array and a count, and not an `arrayvec::ArrayVec`, since the library stands on std alone and a context is copied.
#[derive(Clone, Copy)]
pub struct Context {
    runs: [Run; MOST_RUNS],
    count: usize,
    ghost long: { length runs ≡ 96 },
    ghost few: { count ≤ 96 },
    ghost ordered: { canonical (take count runs) ≡ true },
}

impl Context {
    ghost use Rattle.contexts.specs.Contexts.{runs_of};

    fn in_use(&self) -> &[Run]
        ensures { result.now ≡ runs_of self.now }
    {
        &self.runs[..self.count]
    }
}
