// Unions of contexts: the runs of both are merged in order, and the finished list is judged.
ghost use Rattle.std.specs.Iterator.{at_most};
ghost use Rattle.std.specs.Prelude.{◌≡◌, ◌+◌, ◌<◌, ◌≤◌, true, false, List, [], length, take, MatchOption, MatchResult};
ghost use Rattle.contexts.specs.Contexts.{runs_of, too_many, union_fault, bounded_union, run_fault, with_run};
ghost use Rattle.contexts.specs.Merging.{starts_by, left_next, Takes, extended};
ghost use Rattle.causal.specs.declared.runs.Run.{Run};
ghost use Rattle.causal.specs.Runs.{canonical, union};
ghost use Rattle.contexts.specs.declared.context.ContextFault.TheVariants.{TooManyRuns};
ghost use Rattle.std.specs.Result.{result_err};

use crate::context::{Context, ContextFault, MOST_RUNS};
use causal::runs::{NO_RUN, Run};
use std::marker::Model;

impl Context {
    // Adds the dots of the other context. Where the union has too many runs, nothing changes.
    pub fn unite(&mut self, other: &Context) -> Result<(), ContextFault>
        ensures answer { result_err result ≡ union_fault (runs_of self.old) (runs_of other.now) }
        ensures after { runs_of self.new ≡ bounded_union (runs_of self.old) (runs_of other.now) }
    {
        *self = united(self.in_use(), other.in_use())?;
        Ok(())
    }

    // Adds the dots of one run. Where it is not well-formed or the union has too many runs, nothing changes.
    pub fn add_run(&mut self, run: Run) -> Result<(), ContextFault>
        ensures answer { result_err result ≡ run_fault (runs_of self.old) run }
        ensures after { runs_of self.new ≡ with_run (runs_of self.old) run }
    {
        if !run.is_well_formed() {
            return Err(ContextFault::BadRun);
        }
        *self = united(self.in_use(), &[run])?;
        Ok(())
    }
}

// The union of two canonical lists, where it has few enough runs.
fn united(xs: &[Run], ys: &[Run]) -> Result<Context, ContextFault>
    requires left { canonical xs.now ≡ true }
    requires right { canonical ys.now ≡ true }
    requires left_few { length xs.now ≤ 96 }
    requires right_few { length ys.now ≤ 96 }
    ensures { MatchResult result (λ c. (runs_of c ≡ union xs.now ys.now) × (too_many (union xs.now ys.now) ≡ false))
        (λ e. (e ≡ TooManyRuns) × (too_many (union xs.now ys.now) ≡ true)) }
{
    let rest = Rest {
        left: xs,
        right: ys,
    };
    let mut merged = Merged::empty();
    for run in rest {
        merged.add(run);
    }
    merged.to_context()
}

// What is left of two lists whose runs are taken in the order in which they start.
#[derive(Drop)]
struct Rest<'a> {
    left: &'a [Run],
    right: &'a [Run],
}

// Gives the run that is next, while either list has one.
impl Iterator for Rest<'_> {
    type Item = Run;

    ghost next_gives = { λ s r t. MatchOption r ((s.left.now ≡ []) × (s.right.now ≡ [])) (λ run. Takes s.left.now s.right.now run t.left.now t.right.now) };

    ghost remaining = { λ s. at_most (length s.left.now + length s.right.now) };

    fn next(&mut self) -> Option<Run> {
        if self.left_is_next() {
            self.left.split_off_first().copied()
        } else {
            self.right.split_off_first().copied()
        }
    }
}

impl Rest<'_> {
    fn left_is_next(&self) -> bool
        ensures { result ≡ left_next self.now.left.now self.now.right.now }
    {
        match (self.left, self.right) {
            ([], _) => false,
            (_, []) => true,
            ([l, ..], [r, ..]) => starts_no_later(*l, *r),
        }
    }
}

#[tactic(auto, unfolding(crate::specs::Merging::starts_by))]
fn starts_no_later(r: Run, s: Run) -> bool
    ensures { result ≡ starts_by r s }
{
    (r.replica, r.first) <= (s.replica, s.first)
}

// As many runs as two contexts have.
const MOST_MERGED: usize = 2 * MOST_RUNS;

// The runs that a merge has made so far, with room for those of two contexts.
// Stays as it is: an array and a count like a context's, but no type for both: a context is copied, keeps its canonical order in a ghost field, and `runs_of` reads its fields, while this is a list of one function, with a model.
#[derive(Drop)]
struct Merged {
    runs: [Run; MOST_MERGED],
    count: usize,
}

impl Model for Merged {
    ghost Value = { List Run };

    ghost view = { λ m. take m.count m.runs };

    ghost invariant = { λ m. (length m.runs ≡ 192) × (m.count ≤ 192) };
}

impl Merged {
    fn empty() -> Merged
        ensures { result ≡ [] }
    {
        Merged {
            runs: [NO_RUN; MOST_MERGED],
            count: 0,
        }
    }

    // Adds a run that starts no earlier than the last: it stands apart, or stretches that one.
    fn add(&mut self, run: Run)
        requires { length self.old < 192 }
        ensures { self.new ≡ extended self.old run }
    {
        // Stays as it is: with `last_mut` on the runs in use the proof did not close.
        if self.count > 0 {
            let last = self.runs[self.count - 1];
            if !last.ends_before(run) {
                self.runs[self.count - 1].last = last.last.max(run.last);
                return;
            }
        }
        self.runs[self.count] = run;
        self.count += 1;
    }

    // These runs as a context, where they are few enough.
    fn to_context(&self) -> Result<Context, ContextFault>
        requires { canonical self.now ≡ true }
        ensures { MatchResult result (λ c. (runs_of c ≡ self.now) × (too_many self.now ≡ false)) (λ e. (e ≡ TooManyRuns) × (too_many self.now ≡ true)) }
    {
        if self.count > MOST_RUNS {
            return Err(ContextFault::TooManyRuns);
        }
        let mut runs = [NO_RUN; MOST_RUNS];
        runs[..self.count].copy_from_slice(&self.runs[..self.count]);
        Ok(Context {
            runs,
            count: self.count,
        })
    }
}
