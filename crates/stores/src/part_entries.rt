// The entries of one part of a store, one after another.
ghost use Rattle.std.specs.Prelude.{◌≡◌};
ghost use Rattle.std.specs.Iterator.{YieldsFirst, item_count};
ghost use Rattle.stores.specs.Walks.{entries_in};
ghost use Rattle.stores.specs.PartEntries.{entries_left};

use crate::dot_store::DotStore;
use crate::entries::Entry;

// Those of `part` in `store`, from `position` on.
#[derive(Drop)]
pub struct PartEntries<'s, S> {
    store: &'s S,
    part: usize,
    position: usize,
}

// The entries of the part, in order.
pub fn entries_of<S: DotStore>(store: &S, part: usize) -> PartEntries<'_, S>
    ensures { entries_left S.DotStore.entries result ≡ entries_in part (S.DotStore.entries store.now) }
{
    PartEntries {
        store,
        part,
        position: 0,
    }
}

impl<'s, S: DotStore> Iterator for PartEntries<'s, S> {
    type Item = Entry<u64>;

    ghost next_gives = { YieldsFirst (entries_left S.DotStore.entries) };

    ghost remaining = { item_count (entries_left S.DotStore.entries) };

    fn next(&mut self) -> Option<Entry<u64>> {
        let entry = self.store.entry(self.part, self.position)?;
        self.position += 1;
        Some(entry)
    }
}
