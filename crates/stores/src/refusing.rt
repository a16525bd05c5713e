// Faults of a store as refusals.
ghost use Rattle.std.specs.Prelude.{◌≡◌};
ghost use Rattle.stores.specs.Faults.{refusal_of, renumbered};

use crate::faults::StoreFault;
use refusals::{Refusal, refuse};

// The number, layer and place of the refusal that each fault is.
impl From<StoreFault> for Refusal {
    ghost from_gives = { λ fault refusal. refusal ≡ refusal_of fault };

    fn from(fault: StoreFault) -> Refusal {
        match fault {
            StoreFault::Address => refuse(35, 0),
            StoreFault::Unfit => refuse(23, 0),
            StoreFault::Full(part) => refuse(33, part as u64),
        }
    }
}

impl StoreFault {
    // The same fault, where the part that is full has this number.
    pub fn renumber(self, part: usize) -> StoreFault
        ensures { result ≡ renumbered part self }
    {
        match self {
            StoreFault::Full(_) => StoreFault::Full(part),
            _ => self,
        }
    }
}
