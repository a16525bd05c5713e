// What may be wrong with a group, each with the record at which it was found.
ghost use Rattle.std.specs.Prelude.{◌≡◌};
ghost use Rattle.reading.specs.Faults.{refusal_of};

use refusals::{Refusal, refuse};

// Stays six variants with one number each: docs/REFUSALS.md has a number for each, which stands once, beside its variant below.
#[derive(Clone, Copy, Debug, PartialEq, Eq)]
pub enum GroupFault {
    // A byte or a field of the record is not as it should be.
    BadRecord(usize),
    // The record is not above the one before it, or is a run too many.
    OutOfOrder(usize),
    // The entry's code is not of its part's kind.
    BadCode(usize),
    // The entry's dot is in no run, or is that of an earlier entry.
    StrayDot(usize),
    // The whole records, so many, end before an origin.
    NoOrigin(usize),
    // A parcel goes on after the origin.
    TrailingRecords(usize),
}

impl From<GroupFault> for Refusal {
    ghost from_gives = { λ fault refusal. refusal ≡ refusal_of fault };

    fn from(fault: GroupFault) -> Refusal {
        match fault {
            GroupFault::BadRecord(n) => refuse(21, n as u64),
            GroupFault::OutOfOrder(n) => refuse(22, n as u64),
            GroupFault::BadCode(n) => refuse(23, n as u64),
            GroupFault::StrayDot(n) => refuse(24, n as u64),
            GroupFault::NoOrigin(n) => refuse(25, n as u64),
            GroupFault::TrailingRecords(n) => refuse(26, n as u64),
        }
    }
}
