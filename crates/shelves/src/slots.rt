// A shelf with slots of one size.
ghost use Rattle.shelves.specs.Slotted.{SoundSlots, SoundSlots-prop};

use crate::extent::Extent;
use crate::fault::ShelfFault;
use crate::reading::{copy_parcel, extent_length, read_record};
use crate::round::Round;
use crate::shelf::Shelf;
use crate::slot_parts::{count_of, records_of, room_of, slots_in, used};
use crate::stock::{MOST_PARCELS, Stock};

#[derive(Drop)]
pub struct Slots<'a> {
    bytes: &'a mut [u8],
    // The records of a slot, by the caller's number.
    size: usize,
    // Where each slot begins, and how many bytes the parcel in it has: the first `count` hold one.
    // Stays an array with a count: the library uses std alone, which has no list in fixed memory, and its clauses name both.
    slots: [Extent; MOST_PARCELS],
    count: usize,
    pub ghost sound: { SoundSlots bytes.now size slots count } by { SoundSlots-prop bytes.now size slots count },
}

impl<'a> Slots<'a> {
    ghost use Rattle.std.specs.Prelude.{◌≡◌, length, []};
    ghost use Rattle.std.specs.List.{slice_get};
    ghost use Rattle.shelves.specs.Parcels.{held, misfit, refusal};
    ghost use Rattle.shelves.specs.Extents.{parcel_in};
    ghost use Rattle.shelves.specs.Layout.{byte};
    ghost use Rattle.shelves.specs.Meanings.{slots_memory, parcels_of_slots, sizes_of_slots};

    // Empty slots of `size` records over the memory.
    pub fn new(bytes: &'a mut [u8], size: usize) -> Self
        ensures memory { slots_memory result ≡ bytes.old }
        ensures size { result.size ≡ size }
        ensures empty { parcels_of_slots result ≡ [] }
    {
        let slots = slots_in(bytes.len(), size);
        Slots {
            bytes,
            size,
            slots,
            count: 0,
        }
    }

    // The memory, from its front to its end.
    fn round(&self) -> Round
        ensures room { result.room ≡ length (slots_memory self.now) }
        ensures start { result.start ≡ 0 }
    {
        Round {
            room: self.bytes.len(),
            start: 0,
        }
    }

    // Where the parcel at a position lies.
    fn place(&self, position: usize) -> Option<Extent>
        ensures { parcel_in (byte (slots_memory self.now) (length (slots_memory self.now)) 0) result ≡ slice_get (parcels_of_slots self.now) position }
    {
        self.slots[..self.count].get(position).copied()
    }

    // Refuses a new parcel of so many bytes where it does not fit.
    // Stays beside the ring's, which differs in `held` alone: a function for both would take a `Shelf`, and the check of a method covers no call that leads back to the impl it stands in.
    fn check(&self, bytes: usize) -> Result<(), ShelfFault>
        ensures { refusal result ≡ misfit (sizes_of_slots self.now) (length (parcels_of_slots self.now)) (held (parcels_of_slots self.now)) bytes }
    {
        let stock = Stock {
            most: self.most_parcels(),
            longest: self.longest_parcel(),
            room: self.room(),
            count: self.count,
            held: used(&self.slots[..self.count]) / 24,
        };
        stock.check(bytes)
    }
}

// Stays beside the ring's: what is alike is one call in each method; the last lines of `remove` work on an array of another type, and a function for both would say again what `rotate_left` says.
impl<'a> Shelf for Slots<'a> {
    ghost use Rattle.std.specs.Prelude.{◌≡◌};
    ghost use Rattle.shelves.specs.Parcels.{refusal, remove_refusal, after_remove};
    ghost use Rattle.shelves.specs.Meanings.{slots_memory, parcels_of_slots, sizes_of_slots, spare_of_slots};

    ghost parcels = { parcels_of_slots };

    ghost sizes = { sizes_of_slots };

    ghost spare = { spare_of_slots };

    ghost within = { λ s. s.sound.within };

    fn most_parcels(&self) -> usize {
        count_of(self.bytes.len(), self.size)
    }

    fn longest_parcel(&self) -> usize {
        records_of(self.size)
    }

    fn room(&self) -> usize {
        room_of(self.bytes.len(), self.size)
    }

    fn count(&self) -> usize {
        self.count
    }

    fn length_at(&self, position: usize) -> usize {
        extent_length(self.place(position))
    }

    fn record_at(&self, position: usize, index: usize) -> [u8; 24] {
        read_record(self.bytes, self.round(), self.place(position), index)
    }

    fn copy(&self, position: usize, memory: &mut [u8]) -> Result<usize, ShelfFault> {
        copy_parcel(
            self.bytes,
            self.round(),
            self.place(position),
            position,
            memory,
        )
    }

    fn append(&mut self, parcel: &[u8]) -> Result<(), ShelfFault> {
        self.check(parcel.len())?;
        let round = self.round();
        let from = self.slots[self.count].from;
        round.write_in(self.bytes, from, parcel);
        self.slots[self.count] = Extent {
            from,
            length: parcel.len(),
        };
        self.count += 1;
        Ok(())
    }

    // The last clause is theirs alone: removing moves no byte.
    fn remove(&mut self, position: usize) -> Result<(), ShelfFault>
        ensures sizes { sizes_of_slots self.new ≡ sizes_of_slots self.old }
        ensures answer { refusal result ≡ remove_refusal (parcels_of_slots self.old) position }
        ensures after { parcels_of_slots self.new ≡ after_remove (parcels_of_slots self.old) position }
        ensures spare { spare_of_slots self.new ≡ spare_of_slots self.old }
        ensures still { slots_memory self.new ≡ slots_memory self.old }
    {
        let count = self.count;
        if position >= count {
            return Err(ShelfFault::NoParcel(position));
        }
        self.slots[position..count].rotate_left(1);
        self.count = count - 1;
        Ok(())
    }
}
