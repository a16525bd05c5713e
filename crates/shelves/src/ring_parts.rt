// Where a ring's parcels lie, and how the place of one is closed up.
ghost use Rattle.std.specs.Prelude.{◌≡◌, ℕ, ◌+◌, ◌-◌, ◌^◌, ◌<◌, ◌≤◌, length, drop, IfSome, if◌then◌else◌, sum, nat_lt};
ghost use Rattle.std.specs.List.{slice_get};
ghost use Rattle.shelves.specs.Layout.{byte, pieces};
ghost use Rattle.shelves.specs.Extents.{parcel_in, Placed};

use crate::extent::Extent;
use crate::round::Round;

// The sum of some numbers.
pub fn total(numbers: &[usize]) -> usize
    requires { sum numbers.now < 2 ^ 64 }
    ensures { result ≡ sum numbers.now }
{
    numbers.iter().sum()
}

// Where the parcel at a position lies, of those that lie one after another.
pub fn place_of(lengths: &[usize], position: usize) -> Option<Extent>
    requires { sum lengths.now < 2 ^ 64 }
    ensures parcel { (f : ℕ → ℕ) → parcel_in f result ≡ slice_get (pieces f 0 lengths.now) position }
    ensures there { IfSome result (λ e. Placed lengths.now position e) }
{
    let length = lengths.get(position).copied()?;
    let from = total(&lengths[..position]);
    Some(Extent { from, length })
}

// Closes up the place of a parcel that is taken out, where `held` bytes are in use, and answers where the first parcel then begins.
pub fn close_up(bytes: &mut [u8], round: Round, extent: Extent, held: usize) -> usize
    requires memory { round.room ≤ length bytes.old }
    requires held { held ≤ round.room }
    requires inside { extent.from + extent.length ≤ held }
    ensures moved { (i : ℕ) → i < held - extent.length
        → byte bytes.new round.room result i ≡ byte bytes.old round.room round.start (if nat_lt i extent.from then i else i + extent.length) }
    ensures begins { result ≤ round.room }
    ensures spare { drop round.room bytes.new ≡ drop round.room bytes.old }
    ensures front { extent.from ≡ 0 → bytes.new ≡ bytes.old }
{
    if extent.from == 0 {
        return round.place(extent.length);
    }
    let end = extent.from + extent.length;
    round.slide_down(bytes, extent.from, extent.length, held - end);
    round.start
}
