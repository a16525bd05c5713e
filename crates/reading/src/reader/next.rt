// The next record, or what is wrong with it.
ghost use Rattle.reading.specs.Faults.{refusal_of};
ghost use Rattle.reading.specs.Stands.{stand_of, start, next_fault, next_record, moved_by};
ghost use Rattle.std.specs.Option.{option_map};
ghost use Rattle.std.specs.Prelude.{◌≡◌, ◌+◌, ◌^◌, ◌<◌, true, is_ok};
ghost use Rattle.std.specs.Result.{result_ok, result_err};

use crate::faults::GroupFault;
use crate::reader::GroupReader;
use crate::reader::progress::Progress;
use contexts::context::Context;
use records::bytes::record_at;
use records::record::Record;
use stores::dot_store::DotStore;

impl<'a> GroupReader<'a> {
    pub fn new(bytes: &'a [u8]) -> Self
        ensures { stand_of result ≡ start bytes.now }
    {
        GroupReader {
            bytes,
            progress: Progress {
                at: 0,
                last_entry: None,
                context: Context::empty(),
            },
        }
    }

    // Reads the next record. Where there is a fault, the reader stays where it is.
    pub fn next_record<S: DotStore>(&mut self) -> Result<Record, GroupFault>
        ensures answer { option_map refusal_of (result_err result) ≡ next_fault S.DotStore.kinds (stand_of self.old) }
        ensures found { result_ok result ≡ next_record (next_fault S.DotStore.kinds (stand_of self.old)) (stand_of self.old) }
        ensures after { stand_of self.new ≡ moved_by (result_ok result) (stand_of self.old) }
    {
        let item = self.peek::<S>()?;
        self.progress.move_past(item);
        Ok(item)
    }

    // The next record, or what is wrong with it; nothing moves.
    fn peek<S: DotStore>(&self) -> Result<Record, GroupFault>
        ensures answer { option_map refusal_of (result_err result) ≡ next_fault S.DotStore.kinds (stand_of self.now) }
        ensures found { result_ok result ≡ next_record (next_fault S.DotStore.kinds (stand_of self.now)) (stand_of self.now) }
        ensures counts { is_ok result ≡ true → self.now.progress.at + 1 < 2 ^ 64 }
    {
        let index = self.progress.at;
        if index >= self.bytes.len() / 24 {
            return Err(GroupFault::NoOrigin(index));
        }
        self.progress
            .check::<S>(Record::try_from(record_at(self.bytes, index)))
    }
}
