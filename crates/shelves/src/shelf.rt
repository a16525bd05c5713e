// The interface of a shelf: a list of parcels, each a whole number of 24-byte records, and three fixed numbers.
ghost use Rattle.std.specs.Prelude.{◌≡◌, ℕ, List, length};
ghost use Rattle.std.specs.List.{slice_get};
ghost use Rattle.shelves.specs.Parcels.{Sizes, Within, length_of, record_of, copy_answer, copy_memory, told, refusal, append_refusal, after_append, remove_refusal, after_remove};

use crate::fault::ShelfFault;

// That `sizes` and `spare` stay is about a shelf before and after a call, which no law of one shelf can say: so each call that changes a shelf says it.
pub trait Shelf {
    // The parcels, from the first to the last.
    ghost parcels: { Self → List (List ℕ) };

    // The most parcels, the most records in one, and the most records in all.
    ghost sizes: { Self → Sizes };

    // The lent bytes past those that the shelf may use.
    ghost spare: { Self → List ℕ };

    // A shelf holds no more than its numbers say, and whole records.
    ghost within: { (s : Self) → Within (sizes s) (parcels s) };

    // The most parcels.
    fn most_parcels(&self) -> usize
        ensures { result ≡ (sizes self.now).most };

    // The most records in one parcel.
    fn longest_parcel(&self) -> usize
        ensures { result ≡ (sizes self.now).longest };

    // The most records in all.
    fn room(&self) -> usize
        ensures { result ≡ (sizes self.now).room };

    // How many parcels there are.
    fn count(&self) -> usize
        ensures { result ≡ length (parcels self.now) };

    // How many bytes the parcel at a position has; 0 where there is none.
    // 0 here, and 24 bytes 0 below, are the answers of docs/SHELVES.md, so that a caller needs no case for them.
    fn length_at(&self, position: usize) -> usize
        ensures { result ≡ length_of (slice_get (parcels self.now) position) };

    // One record of a parcel; 24 bytes 0 where there is none.
    fn record_at(&self, position: usize, index: usize) -> [u8; 24]
        ensures { result ≡ record_of (slice_get (parcels self.now) position) index };

    // Copies a parcel to the front of the memory, and answers its length.
    fn copy(&self, position: usize, memory: &mut [u8]) -> Result<usize, ShelfFault>
        ensures answer { told result ≡ copy_answer (slice_get (parcels self.now) position) position (length memory.old) }
        ensures memory { memory.new ≡ copy_memory (slice_get (parcels self.now) position) memory.old };

    // Appends a parcel at the end.
    fn append(&mut self, parcel: &[u8]) -> Result<(), ShelfFault>
        ensures sizes { sizes self.new ≡ sizes self.old }
        ensures answer { refusal result ≡ append_refusal (sizes self.old) (parcels self.old) parcel.now }
        ensures after { parcels self.new ≡ after_append (sizes self.old) (parcels self.old) parcel.now }
        ensures spare { spare self.new ≡ spare self.old };

    // Removes the parcel at a position; the others keep their order.
    fn remove(&mut self, position: usize) -> Result<(), ShelfFault>
        ensures sizes { sizes self.new ≡ sizes self.old }
        ensures answer { refusal result ≡ remove_refusal (parcels self.old) position }
        ensures after { parcels self.new ≡ after_remove (parcels self.old) position }
        ensures spare { spare self.new ≡ spare self.old };
}
