// What a store of entries by dot is. Each entry stands in a part, at a place; the parts are numbered from 0.
ghost use Rattle.std.specs.Prelude.{◌≡◌, ℕ, List, [], length, slice_index};
ghost use Rattle.std.specs.Option.{option_map};
ghost use Rattle.std.specs.Result.{result_err};
ghost use Rattle.kinds.specs.Kinds.{ValueKind};
ghost use Rattle.stores.specs.Items.{Item, count_part, entry_at, find, item_at, strike_items};
ghost use Rattle.stores.specs.Faults.{refusal_of};
ghost use Rattle.stores.specs.Puts.{fits_part, misfit, put_refusal, put_after};
ghost use Rattle.stores.specs.Sound.{FewParts, Roomy, Orderly};

use crate::address::is_entry_address;
use crate::entries::Entry;
use crate::faults::StoreFault;
use causal::dots::Dot;

// A store has this many parts at most.
pub const MOST_PARTS: usize = 8;

// A part has room for this many entries at most.
pub const MOST_ENTRIES: usize = 4096;

// A list of entries that ascends by part, place and dot, no dot twice.
pub trait DotStore {
    // The kind of each part.
    ghost kinds: { List ValueKind };

    // There are one to eight parts.
    ghost parts: { FewParts kinds };

    // How many entries each part has room for.
    ghost capacities: { Self → List ℕ };

    ghost roomy: { (s : Self) → Roomy kinds (capacities s) };

    // What the store holds.
    ghost entries: { Self → List Item };

    // They stand in order, no dot twice, each at a good place and dot with a code of its part's kind, and no part is over its capacity.
    ghost orderly: { (s : Self) → Orderly kinds (capacities s) (entries s) };

    // How many parts there are.
    fn part_count() -> usize
        ensures { result ≡ length kinds };

    // Whether the code is one of the part's kind.
    fn fits(part: usize, code: u64) -> bool
        ensures { result ≡ fits_part kinds part code };

    // Refuses an entry with which something is wrong, whatever the store holds. Stays with the part beside the entry: a part is any
    // number here, and `PartEntry`, with a part of one byte, belongs to records, above this crate.
    fn check(part: usize, entry: Entry<u64>) -> Result<(), StoreFault>
        ensures { option_map refusal_of (result_err result) ≡ misfit kinds part entry }
    {
        if part >= Self::part_count() || !is_entry_address(entry.place, entry.dot) {
            return Err(StoreFault::Address);
        }
        if !Self::fits(part, entry.value) {
            return Err(StoreFault::Unfit);
        }
        Ok(())
    }

    // How many entries the part holds.
    fn count(&self, part: usize) -> usize
        ensures { result ≡ count_part part (entries self.now) };

    // How many entries the part has room for.
    fn capacity(&self, part: usize) -> usize
        ensures { result ≡ slice_index (capacities self.now) part };

    // The entry at this position of the part.
    fn entry(&self, part: usize, position: usize) -> Option<Entry<u64>>
        ensures { option_map (item_at part) result ≡ entry_at part position (entries self.now) };

    // The entry with the dot, and its part.
    fn find(&self, dot: Dot) -> Option<(usize, Entry<u64>)>
        ensures { option_map (λ x. item_at x.0 x.1) result ≡ find dot (entries self.now) };

    // The calls below leave the capacities as they are: each says so in a clause, since that is about two states of the store, and an
    // invariant about one.

    // Puts the entry in; joins its code to that of an entry with the dot at that part and place; leaves one elsewhere.
    fn put(&mut self, part: usize, entry: Entry<u64>) -> Result<(), StoreFault>
        ensures room { capacities self.new ≡ capacities self.old }
        ensures answer { option_map refusal_of (result_err result) ≡ put_refusal kinds (capacities self.old) (entries self.old) part entry }
        ensures after { entries self.new ≡ put_after kinds (capacities self.old) (entries self.old) part entry };

    // Takes the entry with the dot out, if any.
    fn strike(&mut self, dot: Dot)
        ensures room { capacities self.new ≡ capacities self.old }
        ensures after { entries self.new ≡ strike_items dot (entries self.old) };

    // Takes every entry out.
    fn clear(&mut self)
        ensures room { capacities self.new ≡ capacities self.old }
        ensures after { entries self.new ≡ [] };
}
