// Taking out of a store what a group knows and does not have.
ghost use Rattle.std.specs.Prelude.{◌≡◌, ℕ};
ghost use Rattle.joining.specs.Questions.{struck};
ghost use Rattle.joining.specs.Strikes.{remaining, Unstruck};

use crate::known::KnownGroup;
use crate::search::has_entry;
use records::record::PartEntry;
use sources::source::GroupSource;
use sources::store_group::entry_of_part;
use stores::dot_store::DotStore;

impl<G: GroupSource> KnownGroup<'_, G> {
    // Whether the group knows the entry's dot and has no entry for it.
    pub fn strikes(&self, entry: PartEntry) -> bool
        ensures { G.GroupSource.legible self.now.group.now → result ≡ struck (G.GroupSource.group self.now.group.now) entry.entry.dot }
    {
        self.dots.contains(entry.entry.dot) && !has_entry(self.group, entry)
    }

    // Takes out of the store every entry that the group strikes.
    pub fn strike_from<S: DotStore>(&self, store: &mut S)
        ensures room { S.DotStore.capacities store.new ≡ S.DotStore.capacities store.old }
        ensures after { G.GroupSource.legible self.now.group.now
            → S.DotStore.entries store.new ≡ remaining (G.GroupSource.group self.now.group.now) (S.DotStore.entries store.old) }
    {
        for part in 0..S::part_count() {
            self.strike_from_part(store, part);
        }
    }

    // The same for one part. The entries of the other parts stay, or go as they would at their own turn.
    fn strike_from_part<S: DotStore>(&self, store: &mut S, part: usize)
        ensures room { S.DotStore.capacities store.new ≡ S.DotStore.capacities store.old }
        ensures after { G.GroupSource.legible self.now.group.now
            → (remaining (G.GroupSource.group self.now.group.now) (S.DotStore.entries store.new) ≡ remaining (G.GroupSource.group self.now.group.now) (S.DotStore.entries store.old))
            × Unstruck (G.GroupSource.group self.now.group.now) part (S.DotStore.entries store.new)
            × ((q : ℕ) → Unstruck (G.GroupSource.group self.now.group.now) q (S.DotStore.entries store.old) → Unstruck (G.GroupSource.group self.now.group.now) q (S.DotStore.entries store.new)) }
    {
        // By number: the walk goes backwards over a store that it changes, so it borrows nothing of it.
        for i in (0..store.count(part)).rev() {
            if let Some(found) = entry_of_part(store, part, i) {
                if self.strikes(found) {
                    store.strike(found.entry.dot);
                }
            }
        }
    }
}
