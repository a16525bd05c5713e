// Writing records into lent memory.
ghost use Rattle.std.specs.Prelude.{◌≡◌, ◌/◌, length, nat_lt};
ghost use Rattle.records.specs.Written.{with_record, too_short};

use crate::record::Record;
use refusals::{Refusal, refuse};

// The memory is too short for what is to be written, which takes so many bytes.
#[derive(Clone, Copy, Debug, PartialEq, Eq)]
pub struct OutputShort {
    pub needed: usize,
}

impl From<OutputShort> for Refusal {
    ghost from_gives = { λ short refusal. refusal ≡ too_short short.needed };

    fn from(short: OutputShort) -> Refusal {
        refuse(41, short.needed as u64)
    }
}

// Writes the record with this number in a list of records. False where the memory ends before it, and then nothing changes.
// Stays a `bool`: one thing can stop it, and who writes a whole group has asked for its length before, where `OutputShort` is answered.
pub fn write_record(memory: &mut [u8], index: usize, item: Record) -> bool
    ensures room { result ≡ nat_lt index (length memory.old / 24) }
    ensures after { memory.new ≡ with_record memory.old index item }
{
    if index >= memory.len() / 24 {
        return false;
    }
    // Stays a range of bytes: the library says nothing of what a slice ends as that is written through `as_chunks_mut`.
    let start = 24 * index;
    memory[start..start + 24].copy_from_slice(&<[u8; 24]>::from(item));
    true
}
