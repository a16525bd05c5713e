// Where an entry may stand.
ghost use Rattle.std.specs.Prelude.{◌≡◌};
ghost use Rattle.stores.specs.Puts.{is_address};

use causal::dots::Dot;
use causal::places::Place;

// Whether the place is well-formed and has a key, and the dot is well-formed. Takes these two and no entry, since they are all of an
// address: an entry's value, of whatever type, has no say.
pub fn is_entry_address(place: Place, dot: Dot) -> bool
    ensures { result ≡ is_address place dot }
{
    place.is_well_formed() && place.depth() != 0 && dot.is_well_formed()
}
