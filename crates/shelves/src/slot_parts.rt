// How many slots there are, and where they lie.
// No struct holds a size with a number of bytes: a shelf keeps the caller's size, and reads the number off its bytes.
ghost use Rattle.std.specs.Prelude.{◌≡◌, ◌*◌, ◌^◌, ◌<◌, sum_by};
ghost use Rattle.shelves.specs.declared.extent.Extent.{Extent};
ghost use Rattle.shelves.specs.Slotted.{slot_size, slot_count, slot_starts, Disjoint};

use crate::extent::Extent;
use crate::stock::MOST_PARCELS;

// The records of a slot: 0 counts as 1.
pub fn records_of(size: usize) -> usize
    ensures { result ≡ slot_size size }
{
    size.max(1)
}

// How many slots there are in so many bytes.
pub fn count_of(bytes: usize, size: usize) -> usize
    ensures { result ≡ slot_count bytes size }
{
    (bytes / 24 / records_of(size)).min(MOST_PARCELS)
}

// How many records all of them have room for.
pub fn room_of(bytes: usize, size: usize) -> usize
    ensures { result ≡ slot_count bytes size * slot_size size }
{
    count_of(bytes, size) * records_of(size)
}

// How many bytes the parcels in some slots have.
pub fn used(slots: &[Extent]) -> usize
    requires { sum_by (λ (e : Extent). e.length) slots.now < 2 ^ 64 }
    ensures { result ≡ sum_by (λ (e : Extent). e.length) slots.now }
{
    slots.iter().map(|slot| slot.length).sum()
}

// The slots, empty.
pub fn slots_in(bytes: usize, size: usize) -> [Extent; MOST_PARCELS]
    ensures { Disjoint (slot_starts result) (slot_count bytes size) (24 * slot_size size) (24 * (slot_count bytes size * slot_size size)) }
{
    let mut slots = [Extent { from: 0, length: 0 }; MOST_PARCELS];
    let records = records_of(size);
    for (i, slot) in slots[..count_of(bytes, size)].iter_mut().enumerate() {
        *slot = Extent {
            from: 24 * (i * records),
            length: 0,
        };
    }
    slots
}
