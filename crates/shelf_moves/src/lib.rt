// What is done with shelves of any make: written once against their interface.
#![tactic(auto)]

ghost use Rattle.std.specs.Prelude.{◌≡◌, ◌++◌, length, take, drop, if◌then◌else◌, MatchResult};
ghost use Rattle.std.specs.List.{slice_get};
ghost use Rattle.shelves.specs.Parcels.{copy_memory, told, append_refusal, after_append};
ghost use Rattle.shelf_moves.specs.Moves.{first_passes, first_fits, MovedOn, append_and_copy_answer};
ghost use Rattle.shelf_moves.specs.Laws.{OrderKept};

use shelves::fault::ShelfFault;
use shelves::shelf::Shelf;

// Moves the first parcel to the end of the other shelf, through the memory, and says whether it fitted.
// A bool, here and in `send_to_back`: whether it fitted is all that a caller asks, whatever the shelf's fault was.
// What each clause says of `sizes` and `spare`, here and below, is about a shelf before and after, which no invariant of one shelf can say.
pub fn move_first<A: Shelf, B: Shelf>(from: &mut A, to: &mut B, memory: &mut [u8]) -> bool
    ensures sizes { (A.Shelf.sizes from.new ≡ A.Shelf.sizes from.old) × (B.Shelf.sizes to.new ≡ B.Shelf.sizes to.old) }
    ensures answer { result ≡ first_passes (B.Shelf.sizes to.old) (length memory.old) (B.Shelf.parcels to.old) (A.Shelf.parcels from.old) }
    ensures from { A.Shelf.parcels from.new ≡ (if result then drop 1 (A.Shelf.parcels from.old) else A.Shelf.parcels from.old) }
    ensures to { B.Shelf.parcels to.new ≡ (if result then B.Shelf.parcels to.old ++ take 1 (A.Shelf.parcels from.old) else B.Shelf.parcels to.old) }
    ensures memory { memory.new ≡ copy_memory (slice_get (A.Shelf.parcels from.old) 0) memory.old }
    ensures spare { (A.Shelf.spare from.new ≡ A.Shelf.spare from.old) × (B.Shelf.spare to.new ≡ B.Shelf.spare to.old) }
{
    let Ok(length) = from.copy(0, memory) else {
        return false;
    };
    to.append(&memory[..length]).is_ok() && from.remove(0).is_ok()
}

// Moves every parcel to the end of the other shelf, the first first, while the next one fits, and answers how many were moved.
pub fn move_parcels<A: Shelf, B: Shelf>(from: &mut A, to: &mut B, memory: &mut [u8]) -> usize
    ensures sizes { (A.Shelf.sizes from.new ≡ A.Shelf.sizes from.old) × (B.Shelf.sizes to.new ≡ B.Shelf.sizes to.old) }
    ensures spare { (A.Shelf.spare from.new ≡ A.Shelf.spare from.old) × (B.Shelf.spare to.new ≡ B.Shelf.spare to.old) }
    ensures moved { MovedOn (B.Shelf.sizes to.old) (A.Shelf.parcels from.old) (B.Shelf.parcels to.old) memory.old
        result (A.Shelf.parcels from.new) (B.Shelf.parcels to.new) memory.new }
{
    let count = from.count();
    // Stays a loop: with a closure in `position` that changes both shelves, nothing is known of them after it.
    for i in 0..count {
        if !move_first(from, to, memory) {
            return i;
        }
    }
    count
}

// Appends a parcel and copies it back: what is copied is what was appended.
pub fn append_and_copy<S: Shelf>(
    shelf: &mut S,
    parcel: &[u8],
    memory: &mut [u8],
) -> Result<usize, ShelfFault>
    ensures sizes { S.Shelf.sizes shelf.new ≡ S.Shelf.sizes shelf.old }
    ensures answer { told result ≡ append_and_copy_answer (append_refusal (S.Shelf.sizes shelf.old) (S.Shelf.parcels shelf.old) parcel.now) parcel.now (length memory.old) }
    ensures copied { MatchResult result (λ _. memory.new ≡ parcel.now ++ drop (length parcel.now) memory.old) (λ _. memory.new ≡ memory.old) }
    ensures after { S.Shelf.parcels shelf.new ≡ after_append (S.Shelf.sizes shelf.old) (S.Shelf.parcels shelf.old) parcel.now }
    ensures spare { S.Shelf.spare shelf.new ≡ S.Shelf.spare shelf.old }
{
    let position = shelf.count();
    shelf.append(parcel)?;
    shelf.copy(position, memory)
}

// Removing and appending keep the order of the other parcels, and a refusal changes nothing.
pub fn order_is_kept()
    ensures { OrderKept }
{}

// Puts the first parcel behind the others, through the memory, and says whether it fitted the memory: removing and appending keep the order of the others.
pub fn send_to_back<S: Shelf>(shelf: &mut S, memory: &mut [u8]) -> bool
    ensures sizes { S.Shelf.sizes shelf.new ≡ S.Shelf.sizes shelf.old }
    ensures answer { result ≡ first_fits (length memory.old) (S.Shelf.parcels shelf.old) }
    ensures after { S.Shelf.parcels shelf.new ≡ (if result then drop 1 (S.Shelf.parcels shelf.old) ++ take 1 (S.Shelf.parcels shelf.old) else S.Shelf.parcels shelf.old) }
    ensures memory { memory.new ≡ copy_memory (slice_get (S.Shelf.parcels shelf.old) 0) memory.old }
    ensures spare { S.Shelf.spare shelf.new ≡ S.Shelf.spare shelf.old }
{
    let Ok(length) = shelf.copy(0, memory) else {
        return false;
    };
    shelf.remove(0).is_ok() && shelf.append(&memory[..length]).is_ok()
}
