// What a call answers when it refuses: a number, the layer that refuses, and a place.
#![tactic(auto)]

ghost use Rattle.std.specs.Prelude.{◌≡◌};
ghost use Rattle.refusals.specs.Table.{refused};

// Stays as it is: a number and not an enum, since callers are told the numbers of docs/REFUSALS.md, which belong to several crates.
// The layer follows from the number, and is a field all the same: a caller is told all three.
#[derive(Clone, Copy, Debug, PartialEq, Eq)]
pub struct Refusal {
    pub number: u8,
    pub layer: u8,
    pub place: u64,
}

// The refusal of this number at this place. Its layer goes by the number.
pub fn refuse(number: u8, place: u64) -> Refusal
    ensures { result ≡ refused number place }
{
    let layer = match number {
        ..20 => 1,
        20..30 => 2,
        _ => 3,
    };
    Refusal {
        number,
        layer,
        place,
    }
}
