// What a shelf refuses.
use refusals::{Refusal, refuse};

#[derive(Clone, Copy, Debug, PartialEq, Eq)]
pub enum ShelfFault {
    // No parcel stands at this position.
    NoParcel(usize),
    // The memory is too short for a parcel of this many bytes.
    MemoryShort(usize),
    // There is no room for a parcel of this many records.
    Full(usize),
    // This many bytes are no whole number of records, or none.
    NotRecords(usize),
}

// The number, the layer and the place by which a caller is told.
impl From<ShelfFault> for Refusal {
    ghost use Rattle.std.specs.Prelude.{◌≡◌};
    ghost use Rattle.shelves.specs.Parcels.{shelf_fault};

    ghost from_gives = { λ f r. r ≡ shelf_fault f };

    fn from(fault: ShelfFault) -> Refusal {
        match fault {
            ShelfFault::NoParcel(position) => refuse(11, position as u64),
            ShelfFault::MemoryShort(needed) => refuse(12, needed as u64),
            ShelfFault::Full(records) => refuse(13, records as u64),
            ShelfFault::NotRecords(length) => refuse(14, length as u64),
        }
    }
}
