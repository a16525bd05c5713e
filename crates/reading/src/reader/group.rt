// A whole group.
ghost use Rattle.std.specs.Prelude.{◌≡◌};
ghost use Rattle.reading.specs.Reading.{summary, told, first_group, parcel_group};
ghost use Rattle.reading.specs.Stands.{stand_of, closed, entries_read};

use crate::faults::GroupFault;
use crate::reader::GroupReader;
use crate::reader::dots::first_stray;
use records::record::{GroupSummary, Origin, Record};
use stores::dot_store::DotStore;

// Reads the first group of a journal. What follows it is not looked at.
pub fn read_first_group<S: DotStore>(journal: &[u8]) -> Result<GroupSummary, GroupFault>
    ensures { told result ≡ summary (first_group S.DotStore.kinds journal.now) }
{
    let mut reader = GroupReader::new(journal);
    loop {
        if let Record::Origin(origin) = reader.next_record::<S>()? {
            return reader.close(origin);
        }
    }
}

// Reads the one group of a parcel.
pub fn read_parcel<S: DotStore>(parcel: &[u8]) -> Result<GroupSummary, GroupFault>
    ensures { told result ≡ summary (parcel_group S.DotStore.kinds parcel.now) }
{
    let group = read_first_group::<S>(parcel)?;
    let records = group.length / 24;
    if records < parcel.len() / 24 {
        return Err(GroupFault::TrailingRecords(records));
    }
    Ok(group)
}

impl GroupReader<'_> {
    // What the group is that ends with this origin, the last record that was read.
    fn close(&self, origin: Origin) -> Result<GroupSummary, GroupFault>
        ensures { told result ≡ closed (stand_of self.now) origin }
    {
        let (records, _) = self.bytes.as_chunks::<24>();
        let entries = self.entry_count();
        if let Some(index) = first_stray(&records[..entries], &self.progress.context) {
            return Err(GroupFault::StrayDot(index));
        }
        Ok(GroupSummary {
            origin,
            entries,
            runs: self.progress.context.run_count(),
            length: self.progress.at.saturating_mul(24),
        })
    }

    // How many records before the origin are no runs.
    fn entry_count(&self) -> usize
        ensures { result ≡ entries_read (stand_of self.now) }
    {
        let runs = self.progress.context.run_count();
        let others = self.progress.at.saturating_sub(runs + 1);
        others.min(self.bytes.len() / 24)
    }
}
