// The order of entries, by place and then by dot; when two dots are one; and when two places are.
ghost use Rattle.std.specs.Prelude.{◌≡◌};
ghost use Rattle.causal.specs.Dots.{same_dot};
ghost use Rattle.causal.specs.Places.{same_place};
ghost use Rattle.stores.specs.Items.{spot_less};

use causal::dots::Dot;
use causal::places::Place;

// Whether an entry at p with the dot d stands before one at q with the dot e. Stays beside `<`, to state which order that is: a derived
// one has no clause.
#[tactic(auto, unfolding(causal::specs::Dots::dot_less, causal::specs::Places::place_less, causal::specs::Places::same_place))]
pub fn stands_before(p: Place, d: Dot, q: Place, e: Dot) -> bool
    ensures { result ≡ spot_less p d q e }
{
    (p, d) < (q, e)
}

// Whether the two dots are one. Stays beside `==`, to state which equality that is: a derived one has no clause.
#[tactic(auto, unfolding(causal::specs::Dots::same_dot))]
pub fn dots_equal(d: Dot, e: Dot) -> bool
    ensures { result ≡ same_dot d e }
{
    d == e
}

// Whether the two places are one. Stays beside `==`, to state which equality that is: a derived one has no clause.
#[tactic(auto, unfolding(causal::specs::Places::same_place))]
pub fn places_equal(p: Place, q: Place) -> bool
    ensures { result ≡ same_place p q }
{
    p == q
}
