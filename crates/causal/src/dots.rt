// Dots: each names one put by one replica.
ghost use Rattle.std.specs.Prelude.{◌≡◌};
ghost use Rattle.causal.specs.Dots.{is_dot, is_replica, dot_order};

use std::cmp::Ordering;

// The width of a counter, and the last one. Records hold a counter in two bytes, which is this width.
pub type Counter = u16;

pub const LAST_COUNTER: Counter = 65535;

// Replicas are numbered from 1 to this.
pub const LAST_REPLICA: u8 = 16;

// In order by replica, and then by counter.
#[derive(Clone, Copy, Debug, PartialEq, Eq, PartialOrd, Ord)]
pub struct Dot {
    pub replica: u8,
    pub counter: Counter,
}

pub fn is_replica_number(replica: u8) -> bool
    ensures { result ≡ is_replica replica }
{
    (1..=LAST_REPLICA).contains(&replica)
}

impl Dot {
    pub fn is_well_formed(self) -> bool
        ensures { result ≡ is_dot self }
    {
        is_replica_number(self.replica) && (1..=LAST_COUNTER).contains(&self.counter)
    }
}

// States which order of dots the derived one is, since a derive has no clause.
#[tactic(auto, unfolding(crate::specs::Dots::dot_less))]
pub fn compare_dots(d: Dot, e: Dot) -> Ordering
    ensures { result ≡ dot_order d e }
{
    d.cmp(&e)
}
