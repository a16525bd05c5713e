// What is read of a parcel, by where it lies.
ghost use Rattle.std.specs.Prelude.{◌≡◌, ℕ, length};
ghost use Rattle.shelves.specs.Layout.{byte};
ghost use Rattle.shelves.specs.Parcels.{length_of, record_of, copy_answer, copy_memory, told};
ghost use Rattle.shelves.specs.Extents.{parcel_in};

use crate::extent::Extent;
use crate::fault::ShelfFault;
use crate::round::Round;

// How many bytes it has.
pub fn extent_length(extent: Option<Extent>) -> usize
    ensures { (f : ℕ → ℕ) → result ≡ length_of (parcel_in f extent) }
{
    extent.map_or(0, |e| e.length)
}

// One of its records.
pub fn read_record(bytes: &[u8], round: Round, extent: Option<Extent>, index: usize) -> [u8; 24]
    ensures { result ≡ record_of (parcel_in (byte bytes.now round.room round.start) extent) index }
{
    let mut record = [0; 24];
    if let Some(found) = extent.and_then(|e| e.record(index)) {
        round.copy_out(bytes, found, &mut record);
    }
    record
}

// All of it, at the front of the memory.
pub fn copy_parcel(
    bytes: &[u8],
    round: Round,
    extent: Option<Extent>,
    position: usize,
    memory: &mut [u8],
) -> Result<usize, ShelfFault>
    ensures answer { told result ≡ copy_answer (parcel_in (byte bytes.now round.room round.start) extent) position (length memory.old) }
    ensures memory { memory.new ≡ copy_memory (parcel_in (byte bytes.now round.room round.start) extent) memory.old }
{
    let extent = extent.ok_or(ShelfFault::NoParcel(position))?;
    if extent.length > memory.len() {
        return Err(ShelfFault::MemoryShort(extent.length));
    }
    round.copy_out(bytes, extent, memory);
    Ok(extent.length)
}
