// A shelf that uses its memory all round.
ghost use Rattle.shelves.specs.Rings.{SoundRing, SoundRing-prop};

use crate::extent::Extent;
use crate::fault::ShelfFault;
use crate::reading::{copy_parcel, extent_length, read_record};
use crate::ring_parts::{close_up, place_of, total};
use crate::round::Round;
use crate::shelf::Shelf;
use crate::stock::{MOST_PARCELS, Stock};

#[derive(Drop)]
pub struct Ring<'a> {
    bytes: &'a mut [u8],
    // Where the first parcel begins.
    start: usize,
    // How many bytes each of the first `count` parcels has.
    // Stays an array with a count: the library uses std alone, which has no list in fixed memory, and its clauses name both.
    lengths: [usize; MOST_PARCELS],
    count: usize,
    pub ghost sound: { SoundRing bytes.now start lengths count } by { SoundRing-prop bytes.now start lengths count },
}

impl<'a> Ring<'a> {
    ghost use Rattle.std.specs.Prelude.{◌≡◌, ◌*◌, ◌<◌, length, take, sum, [], IfSome, OnOk};
    ghost use Rattle.std.specs.List.{slice_get};
    ghost use Rattle.shelves.specs.Parcels.{held, misfit, refusal};
    ghost use Rattle.shelves.specs.Extents.{parcel_in, Placed};
    ghost use Rattle.shelves.specs.Layout.{byte};
    ghost use Rattle.shelves.specs.Rings.{ring_room};
    ghost use Rattle.shelves.specs.Meanings.{ring_memory, parcels_of_ring, sizes_of_ring};

    // An empty ring over the memory.
    pub fn new(bytes: &'a mut [u8]) -> Self
        ensures memory { ring_memory result ≡ bytes.old }
        ensures empty { parcels_of_ring result ≡ [] }
    {
        Ring {
            bytes,
            start: 0,
            lengths: [0; MOST_PARCELS],
            count: 0,
        }
    }

    // How its bytes lie in the memory.
    fn round(&self) -> Round
        ensures room { result.room ≡ ring_room (length (ring_memory self.now)) }
        ensures start { result.start ≡ self.now.start }
    {
        Round {
            room: 24 * self.longest_parcel(),
            start: self.start,
        }
    }

    // How many bytes all parcels have.
    fn used(&self) -> usize
        ensures bytes { result ≡ sum (take self.now.count self.now.lengths) }
        ensures records { result ≡ 24 * held (parcels_of_ring self.now) }
    {
        total(&self.lengths[..self.count])
    }

    // Where the parcel at a position lies.
    fn place(&self, position: usize) -> Option<Extent>
        ensures parcel { parcel_in (byte (ring_memory self.now) (ring_room (length (ring_memory self.now))) self.now.start) result ≡ slice_get (parcels_of_ring self.now) position }
        ensures there { IfSome result (λ e. Placed (take self.now.count self.now.lengths) position e) }
    {
        place_of(&self.lengths[..self.count], position)
    }

    // Refuses a new parcel of so many bytes where it does not fit.
    fn check(&self, bytes: usize) -> Result<(), ShelfFault>
        ensures answer { refusal result ≡ misfit (sizes_of_ring self.now) (length (parcels_of_ring self.now)) (held (parcels_of_ring self.now)) bytes }
        ensures fewer { OnOk result (self.now.count < MOST_PARCELS) }
    {
        let stock = Stock {
            most: self.most_parcels(),
            longest: self.longest_parcel(),
            room: self.room(),
            count: self.count,
            held: self.used() / 24,
        };
        stock.check(bytes)
    }
}

impl<'a> Shelf for Ring<'a> {
    ghost use Rattle.std.specs.Prelude.{◌≡◌};
    ghost use Rattle.shelves.specs.Parcels.{refusal, remove_refusal, after_remove};
    ghost use Rattle.shelves.specs.Meanings.{ring_memory, parcels_of_ring, sizes_of_ring, spare_of_ring};

    ghost parcels = { parcels_of_ring };

    ghost sizes = { sizes_of_ring };

    ghost spare = { spare_of_ring };

    ghost within = { λ r. r.sound.within };

    fn most_parcels(&self) -> usize {
        MOST_PARCELS
    }

    fn longest_parcel(&self) -> usize {
        self.bytes.len() / 24
    }

    fn room(&self) -> usize {
        self.longest_parcel()
    }

    fn count(&self) -> usize {
        self.count
    }

    fn length_at(&self, position: usize) -> usize {
        extent_length(self.place(position))
    }

    fn record_at(&self, position: usize, index: usize) -> [u8; 24] {
        read_record(self.bytes, self.round(), self.place(position), index)
    }

    fn copy(&self, position: usize, memory: &mut [u8]) -> Result<usize, ShelfFault> {
        copy_parcel(
            self.bytes,
            self.round(),
            self.place(position),
            position,
            memory,
        )
    }

    fn append(&mut self, parcel: &[u8]) -> Result<(), ShelfFault> {
        self.check(parcel.len())?;
        let round = self.round();
        let used = self.used();
        round.write_in(self.bytes, used, parcel);
        self.lengths[self.count] = parcel.len();
        self.count += 1;
        Ok(())
    }

    // The last clause is the ring's own: removing the first parcel moves none of the others' bytes.
    fn remove(&mut self, position: usize) -> Result<(), ShelfFault>
        ensures sizes { sizes_of_ring self.new ≡ sizes_of_ring self.old }
        ensures answer { refusal result ≡ remove_refusal (parcels_of_ring self.old) position }
        ensures after { parcels_of_ring self.new ≡ after_remove (parcels_of_ring self.old) position }
        ensures spare { spare_of_ring self.new ≡ spare_of_ring self.old }
        ensures front { position ≡ 0 → ring_memory self.new ≡ ring_memory self.old }
    {
        let extent = self.place(position).ok_or(ShelfFault::NoParcel(position))?;
        let round = self.round();
        let used = self.used();
        self.start = close_up(self.bytes, round, extent, used);
        let count = self.count;
        self.lengths[position..count].rotate_left(1);
        self.count = count - 1;
        Ok(())
    }
}
