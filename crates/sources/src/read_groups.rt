// Groups that are read in memory, and those of parcels on a shelf.
ghost use Rattle.std.specs.Prelude.{◌≡◌};
ghost use Rattle.reading.specs.Reading.{first_group, parcel_group};
ghost use Rattle.sources.specs.Readings.{Answers};

use crate::laid_group::{LaidGroup, MemoryGroup};
use crate::record_list::InMemory;
use reading::faults::GroupFault;
use reading::reader::group::{read_first_group, read_parcel};
use records::record::GroupSummary;
use stores::dot_store::DotStore;

// A group that was read and found good: its origin and sizes, and where its entries and runs are. The numbers of these stand in both:
// the summary tells them, and the group is what they are read by.
#[derive(Drop)]
pub struct ReadGroup<'a> {
    pub summary: GroupSummary,
    pub group: MemoryGroup<'a>,
}

// Reads the one group of a parcel.
pub fn parcel_group<S: DotStore>(parcel: &[u8]) -> Result<ReadGroup<'_>, GroupFault>
    ensures { Answers S.DotStore.kinds parcel.now (parcel_group S.DotStore.kinds parcel.now) result }
{
    let summary = read_parcel::<S>(parcel)?;
    Ok(placed(parcel, summary))
}

// Reads the first group of a journal. What follows it is not looked at.
pub fn journal_group<S: DotStore>(journal: &[u8]) -> Result<ReadGroup<'_>, GroupFault>
    ensures { Answers S.DotStore.kinds journal.now (first_group S.DotStore.kinds journal.now) result }
{
    let summary = read_first_group::<S>(journal)?;
    Ok(placed(journal, summary))
}

// The group with this summary at the front of the memory.
fn placed(memory: &[u8], summary: GroupSummary) -> ReadGroup<'_>
    ensures summary { result.summary ≡ summary }
    ensures memory { result.group.records.memory.now ≡ memory.now }
    ensures entries { result.group.entries ≡ summary.entries }
    ensures runs { result.group.runs ≡ summary.runs }
{
    let records = InMemory { memory };
    let group = LaidGroup {
        records,
        entries: summary.entries,
        runs: summary.runs,
    };
    ReadGroup { summary, group }
}
