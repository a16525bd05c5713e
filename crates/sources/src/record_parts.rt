// What the 24 bytes of a record say, where one kind of record is asked for: two functions, since each asks for a variant of its own.
ghost use Rattle.std.specs.Prelude.{◌≡◌};
ghost use Rattle.sources.specs.Layouts.{entry_part, run_part};
ghost use Rattle.records.specs.Records.{decoded};

use causal::runs::Run;
use records::record::{PartEntry, Record};

// The entry; none where it is no entry record.
pub fn read_entry(bytes: [u8; 24]) -> Option<PartEntry>
    ensures { result ≡ entry_part (decoded bytes) }
{
    match Record::try_from(bytes) {
        Ok(Record::Entry(entry)) => Some(entry),
        _ => None,
    }
}

// The run; none where it is no run record.
pub fn read_run(bytes: [u8; 24]) -> Option<Run>
    ensures { result ≡ run_part (decoded bytes) }
{
    match Record::try_from(bytes) {
        Ok(Record::Run(run)) => Some(run),
        _ => None,
    }
}
