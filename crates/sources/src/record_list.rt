// Records of 24 bytes, by number, wherever they lie.
ghost use Rattle.std.specs.Prelude.{◌≡◌, ℕ, List, length};
ghost use Rattle.records.specs.Records.{record_at};
ghost use Rattle.sources.specs.Layouts.{parcel_bytes};
ghost use Rattle.std.specs.List.{slice_get};

use records::bytes::record_at;
use shelves::shelf::Shelf;

pub trait RecordList {
    // The bytes of the records, end to end.
    ghost bytes: { Self → List ℕ };

    // How many bytes there are.
    fn byte_count(&self) -> usize
        ensures { result ≡ length (bytes self.now) };

    // The record with this number; 24 bytes 0 past the last.
    fn nth_record(&self, index: usize) -> [u8; 24]
        ensures { result ≡ record_at index (bytes self.now) };
}

// Records in memory.
#[derive(Clone, Copy)]
pub struct InMemory<'a> {
    pub memory: &'a [u8],
}

impl RecordList for InMemory<'_> {
    ghost bytes = { λ s. s.memory.now };

    fn byte_count(&self) -> usize {
        self.memory.len()
    }

    fn nth_record(&self, index: usize) -> [u8; 24] {
        record_at(self.memory, index)
    }
}

// The records of one parcel on a shelf; none where there is no such parcel.
#[derive(Drop)]
pub struct OnShelf<'a, D> {
    pub shelf: &'a D,
    pub position: usize,
}

impl<D: Shelf> RecordList for OnShelf<'_, D> {
    ghost bytes = { λ s. parcel_bytes (slice_get (D.Shelf.parcels s.shelf.now) s.position) };

    fn byte_count(&self) -> usize {
        self.shelf.length_at(self.position)
    }

    fn nth_record(&self, index: usize) -> [u8; 24] {
        self.shelf.record_at(self.position, index)
    }
}
