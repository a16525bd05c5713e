// The phases of a socket: bits 0, 1 and 2 for L1, L2 and L3. Of two, all that either has.
ghost use Rattle.std.specs.Prelude.{◌≤◌};
ghost use Rattle.kinds.specs.Models.{lines_kind};
ghost use Rattle.std.proofs.lemmas.Bool.{le-leb};

use crate::kind::Kind;

// All three phases.
const ALL_LINES: u64 = 7;

#[derive(Clone, Copy, Debug, PartialEq, Eq)]
pub struct Lines {
    bits: u8,
    ghost ok: { bits ≤ 7 },
}

impl Kind for Lines {
    ghost kind = { lines_kind };

    ghost code = { λ v. v.bits };

    ghost fits = { λ v. le-leb v.bits 7 v.ok };

    fn read(number: u64) -> Option<Lines> {
        if number <= ALL_LINES {
            Some(Lines { bits: number as u8 })
        } else {
            None
        }
    }

    fn to_code(&self) -> u64 {
        u64::from(self.bits)
    }

    #[tactic(auto, using(crate::specs::Models::or_fits))]
    fn join(self, other: Lines) -> Lines {
        Lines {
            bits: self.bits | other.bits,
        }
    }
}
