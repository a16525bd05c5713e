// A group laid out in records: its entries, and then its runs.
ghost use Rattle.std.specs.Prelude.{◌≡◌, ◌≤◌};
ghost use Rattle.sources.specs.Layouts.{Laid, group_in, record_in};
ghost use Rattle.sources.specs.Readings.{HoldsParcel, LeadsWith};
ghost use Rattle.sources.specs.Sources.{Countable};

use crate::record_list::{InMemory, OnShelf, RecordList};
use crate::record_parts::{read_entry, read_run};
use crate::source::GroupSource;
use causal::runs::Run;
use records::record::PartEntry;

// The first `entries` records are the group's entries, and the next `runs` its runs.
#[derive(Drop)]
pub struct LaidGroup<R> {
    pub records: R,
    pub entries: usize,
    pub runs: usize,
}

// A group in memory.
pub type MemoryGroup<'a> = LaidGroup<InMemory<'a>>;

// A group in a parcel on a shelf, read record by record.
pub type ShelfGroup<'a, D> = LaidGroup<OnShelf<'a, D>>;

impl<R: RecordList> GroupSource for LaidGroup<R> {
    ghost group = { λ s. group_in (record_in (R.RecordList.bytes s.records)) s.entries s.runs };

    ghost legible = { λ s. Laid (record_in (R.RecordList.bytes s.records)) s.entries s.runs };

    ghost readable = { λ s h. h.readable };

    ghost sound = { λ s. Laid (record_in (R.RecordList.bytes s.records)) s.entries s.runs × Countable (group_in (record_in (R.RecordList.bytes s.records)) s.entries s.runs) };

    ghost writable = { λ s h. h };

    fn entry_count(&self) -> usize {
        self.entries
    }

    fn entry_at(&self, index: usize) -> Option<PartEntry> {
        if index >= self.entries {
            return None;
        }
        read_entry(self.records.nth_record(index))
    }

    fn run_count(&self) -> usize {
        self.runs
    }

    fn run_at(&self, index: usize) -> Option<Run> {
        if index >= self.runs {
            return None;
        }
        let number = self.entries.saturating_add(index);
        read_run(self.records.nth_record(number))
    }
}

// The group of a parcel's records: the entries are those that come first, and the runs all others but the last record.
pub fn lay_out<R: RecordList>(records: R) -> LaidGroup<R>
    ensures same { result.records ≡ records }
    ensures holds { HoldsParcel (R.RecordList.bytes records) result.entries result.runs }
{
    let count = records.byte_count() / 24;
    let entries = leading_entries(&records, count);
    let runs = (count - entries).saturating_sub(1);
    LaidGroup {
        records,
        entries,
        runs,
    }
}

// How many of the first `count` records are entries, before the first that is none.
fn leading_entries<R: RecordList>(records: &R, count: usize) -> usize
    ensures within { result ≤ count }
    ensures leads { LeadsWith (record_in (R.RecordList.bytes records.now)) count result }
{
    (0..count)
        .position(|i| read_entry(records.nth_record(i)).is_none())
        .unwrap_or(count)
}
