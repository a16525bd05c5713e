// Whether a shelf has room for a parcel.
ghost use Rattle.std.specs.Prelude.{◌≡◌, ◌<◌, ◌≤◌, OnOk};
ghost use Rattle.shelves.specs.Parcels.{misfit, refusal};

use crate::fault::ShelfFault;

// The most parcels on a ring or in slots.
pub const MOST_PARCELS: usize = 128;

// What the test of a new parcel goes by: the shelf's numbers, and what it holds.
#[derive(Clone, Copy)]
pub struct Stock {
    pub most: usize,
    pub longest: usize,
    pub room: usize,
    pub count: usize,
    pub held: usize,
    ghost within: { held ≤ room },
}

impl Stock {
    // Refuses a new parcel of so many bytes where it does not fit.
    pub fn check(self, bytes: usize) -> Result<(), ShelfFault>
        ensures answer { refusal result ≡ misfit (record { most = self.most; longest = self.longest; room = self.room }) self.count self.held bytes }
        ensures fewer { OnOk result (self.count < self.most) }
    {
        if bytes == 0 || bytes % 24 != 0 {
            return Err(ShelfFault::NotRecords(bytes));
        }
        let records = bytes / 24;
        if self.count >= self.most || records > self.longest || records > self.room - self.held {
            return Err(ShelfFault::Full(records));
        }
        Ok(())
    }
}
