// How far a group has been read, and what may come next.
ghost use Rattle.contexts.specs.Contexts.{runs_of};
ghost use Rattle.reading.specs.Faults.{refusal_of};
ghost use Rattle.reading.specs.Reading.{item_in, item_follows, run_follows, entry_fault, run_fault, record_fault};
ghost use Rattle.reading.specs.Stands.{stand_at, passed};
ghost use Rattle.std.specs.Option.{option_map};
ghost use Rattle.std.specs.Prelude.{◌≡◌, Some, List, ℕ, IfOk};
ghost use Rattle.std.specs.Result.{result_ok, result_err};
ghost use Rattle.causal.specs.Runs.{last};

use crate::faults::GroupFault;
use causal::runs::Run;
use contexts::context::{Context, MOST_RUNS};
use records::record::{NotARecord, PartEntry, Record};
use stores::dot_store::DotStore;

// How many records have been read, and the last entry and the runs among them.
// Stays free of an invariant: a `Progress` can be made of any numbers, so that what is checked can be asked of any.
#[derive(Clone, Copy)]
pub struct Progress {
    pub at: usize,
    pub last_entry: Option<PartEntry>,
    pub context: Context,
}

impl Progress {
    // The record that was found next, where nothing is wrong with it. The one place that says what is checked of a record, and in
    // which order; what is no record is a fault like the others.
    pub fn check<S: DotStore>(
        &self,
        found: Result<Record, NotARecord>,
    ) -> Result<Record, GroupFault>
        ensures fault { option_map refusal_of (result_err result) ≡ record_fault S.DotStore.kinds (option_map item_in self.now.last_entry) (runs_of self.now.context) self.now.at (result_ok found) }
        ensures same { IfOk result (λ item. result_ok found ≡ Some item) }
    {
        let item = found.map_err(|_| GroupFault::BadRecord(self.at))?;
        match item {
            Record::Entry(entry) => self.check_entry::<S>(entry)?,
            Record::Run(run) => self.check_run(run)?,
            Record::Origin(_) => {}
        }
        Ok(item)
    }

    fn check_entry<S: DotStore>(&self, entry: PartEntry) -> Result<(), GroupFault>
        ensures { option_map refusal_of (result_err result) ≡ entry_fault S.DotStore.kinds (option_map item_in self.now.last_entry) (runs_of self.now.context) self.now.at (item_in entry) }
    {
        let part = usize::from(entry.part);
        if part >= S::part_count() {
            return Err(GroupFault::BadRecord(self.at));
        }
        if self.context.run_count() > 0 || !self.entry_follows(entry) {
            return Err(GroupFault::OutOfOrder(self.at));
        }
        if !S::fits(part, entry.entry.value) {
            return Err(GroupFault::BadCode(self.at));
        }
        Ok(())
    }

    // Whether the entry comes after the last one, if there is one.
    fn entry_follows(&self, entry: PartEntry) -> bool
        ensures { result ≡ item_follows (option_map item_in self.now.last_entry) (item_in entry) }
    {
        self.last_entry.is_none_or(|last| last.precedes(entry))
    }

    fn check_run(&self, run: Run) -> Result<(), GroupFault>
        ensures { option_map refusal_of (result_err result) ≡ run_fault (runs_of self.now.context) self.now.at run }
    {
        if self.context.run_count() >= MOST_RUNS || !self.run_follows(run) {
            return Err(GroupFault::OutOfOrder(self.at));
        }
        Ok(())
    }

    // Whether the run comes after the last one, if there is one, with a gap.
    fn run_follows(&self, run: Run) -> bool
        ensures { result ≡ run_follows (last (runs_of self.now.context)) run }
    {
        self.context
            .last_run()
            .is_none_or(|last| last.ends_before(run))
    }

    // Moves on by one record, this one.
    pub(crate) fn move_past(&mut self, item: Record)
        ensures { (bytes : List ℕ) → stand_at bytes self.new ≡ passed (stand_at bytes self.old) item }
    {
        match item {
            Record::Entry(entry) => self.last_entry = Some(entry),
            Record::Run(run) => {
                let _ = self.context.add_run(run);
            }
            Record::Origin(_) => {}
        }
        self.at = self.at.saturating_add(1);
    }
}
