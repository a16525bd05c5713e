// Places: paths of up to four keys, as feeder 12, socket 1.
ghost use Rattle.std.specs.Prelude.{◌≡◌};
ghost use Rattle.causal.specs.Places.{keys, depth_of, is_place, is_under, place_order};

use std::cmp::Ordering;

// In order by the first key that differs.
// Stays as it is: four fields and not an array, since callers name the keys one by one (feeder, socket), and so do the clauses of the crates above.
#[derive(Clone, Copy, Debug, PartialEq, Eq, PartialOrd, Ord, Default)]
pub struct Place {
    pub first: u16,
    pub second: u16,
    pub third: u16,
    pub fourth: u16,
}

impl Place {
    fn keys(self) -> [u16; 4]
        ensures { result ≡ keys self }
    {
        [self.first, self.second, self.third, self.fourth]
    }

    // How many keys stand before the first 0.
    pub fn depth(self) -> usize
        ensures { result ≡ depth_of self }
    {
        match self.keys() {
            [0, ..] => 0,
            [_, 0, ..] => 1,
            [_, _, 0, _] => 2,
            [_, _, _, 0] => 3,
            _ => 4,
        }
    }

    // Whether after a key 0 only 0 follows.
    pub fn is_well_formed(self) -> bool
        ensures { result ≡ is_place self }
    {
        matches!(
            self.keys(),
            [_, 0, 0, 0] | [(1..), _, 0, 0] | [(1..), (1..), _, 0] | [(1..), (1..), (1..), _]
        )
    }

    // Whether the first keys are those of `other`, to its depth.
    pub fn lies_under(self, other: Place) -> bool
        ensures { result ≡ is_under self other }
    {
        match other.depth() {
            0 => true,
            1 => self.first == other.first,
            2 => (self.first, self.second) == (other.first, other.second),
            3 => (self.first, self.second, self.third) == (other.first, other.second, other.third),
            _ => self == other,
        }
    }
}

// States which order of places the derived one is, since a derive has no clause.
#[tactic(auto, unfolding(crate::specs::Places::place_less))]
pub fn compare_places(p: Place, q: Place) -> Ordering
    ensures { result ≡ place_order p q }
{
    p.cmp(&q)
}
