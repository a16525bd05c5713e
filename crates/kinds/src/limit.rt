// A feeder's limit in whole amps, 0 to 4,000. Of two the smaller stands.
ghost use Rattle.std.specs.Prelude.{◌≤◌};
ghost use Rattle.kinds.specs.Models.{limit_kind};
ghost use Rattle.std.proofs.lemmas.Bool.{le-leb};

use crate::kind::Kind;

// The highest limit.
const MOST_AMPS: u64 = 4000;

#[derive(Clone, Copy, Debug, PartialEq, Eq, PartialOrd, Ord)]
pub struct Limit {
    amps: u16,
    ghost ok: { amps ≤ 4000 },
}

impl Kind for Limit {
    ghost kind = { limit_kind };

    ghost code = { λ v. v.amps };

    ghost fits = { λ v. le-leb v.amps 4000 v.ok };

    fn read(number: u64) -> Option<Limit> {
        if number <= MOST_AMPS {
            Some(Limit {
                amps: number as u16,
            })
        } else {
            None
        }
    }

    fn to_code(&self) -> u64 {
        u64::from(self.amps)
    }

    fn join(self, other: Limit) -> Limit {
        self.min(other)
    }
}
