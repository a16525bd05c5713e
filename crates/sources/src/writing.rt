// Writing a group into lent memory.
ghost use Rattle.std.specs.Prelude.{◌≡◌, ◌*◌, ◌<◌, Some};
ghost use Rattle.records.specs.Written.{records_for, record_count, written, write_answer, write_memory, write_told};
ghost use Rattle.std.specs.List.{slice_get};

use crate::source::GroupSource;
use records::record::{Origin, Record};
use records::writer::{OutputShort, write_record};

// Writes the group under the origin in front of the memory, and answers how many bytes that is. Where the memory is too short,
// nothing changes.
pub fn write_group<G: GroupSource>(
    memory: &mut [u8],
    group: &G,
    origin: Origin,
) -> Result<usize, OutputShort>
    ensures answer { G.GroupSource.sound group.now → write_told result ≡ write_answer (written (G.GroupSource.group group.now) origin) memory.old }
    ensures after { G.GroupSource.sound group.now → memory.new ≡ write_memory (written (G.GroupSource.group group.now) origin) memory.old }
{
    let needed = written_length(group);
    if memory.len() < needed {
        return Err(OutputShort { needed });
    }
    // By number: where a record stands says which of the group's lists it comes from, and a source has no walk over its runs.
    for i in 0..needed / 24 {
        write_record(memory, i, written_record(group, origin, i));
    }
    Ok(needed)
}

// How many bytes the group takes in its written form.
fn written_length<G: GroupSource>(group: &G) -> usize
    ensures { G.GroupSource.sound group.now → result ≡ 24 * record_count (G.GroupSource.group group.now) }
{
    let records = group
        .entry_count()
        .saturating_add(group.run_count())
        .saturating_add(1);
    records.saturating_mul(24)
}

// The record with this number in the written form of the group.
fn written_record<G: GroupSource>(group: &G, origin: Origin, index: usize) -> Record
    ensures { G.GroupSource.legible group.now → index < record_count (G.GroupSource.group group.now) → Some result ≡ slice_get (records_for (G.GroupSource.group group.now) origin) index }
{
    let entries = group.entry_count();
    if let Some(entry) = group.entry_at(index) {
        return Record::Entry(entry);
    }
    match group.run_at(index.saturating_sub(entries)) {
        Some(run) => Record::Run(run),
        None => Record::Origin(origin),
    }
}
