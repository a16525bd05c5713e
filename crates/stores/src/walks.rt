// Walks over a store's entries, for every store.
ghost use Rattle.std.specs.Prelude.{◌≡◌, length, filter};
ghost use Rattle.stores.specs.Items.{in_part};
ghost use Rattle.stores.specs.Walks.{put_each, count_under};

use crate::dot_store::DotStore;
use crate::part_entries::entries_of;
use causal::places::Place;

// How many entries the store holds, in all its parts.
pub fn count_all<S: DotStore>(store: &S) -> usize
    ensures { result ≡ length (S.DotStore.entries store.now) }
{
    (0..S::part_count()).map(|part| store.count(part)).sum()
}

// How many entries of the part stand under the place.
pub fn count_under<S: DotStore>(store: &S, part: usize, place: Place) -> usize
    ensures { result ≡ count_under part place (S.DotStore.entries store.now) }
{
    entries_of(store, part)
        .filter(|entry| entry.place.lies_under(place))
        .count()
}

// Puts each entry of a part of one store into that part of another; one that is refused is left out.
pub fn copy_part<S: DotStore, R: DotStore>(into: &mut S, from: &R, part: usize)
    ensures room { S.DotStore.capacities into.new ≡ S.DotStore.capacities into.old }
    ensures after { S.DotStore.entries into.new
        ≡ put_each S.DotStore.kinds (S.DotStore.capacities into.old) part (S.DotStore.entries into.old) (filter (in_part part) (R.DotStore.entries from.now)) }
{
    for entry in entries_of(from, part) {
        let _ = into.put(part, entry);
    }
}
