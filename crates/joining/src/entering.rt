// Putting a group's entries into a store.
ghost use Rattle.std.specs.Prelude.{◌≡◌, ℕ, ◌≤◌, slice_index};
ghost use Rattle.contexts.specs.Contexts.{runs_of};
ghost use Rattle.joining.specs.Entering.{shut, enter_all};
ghost use Rattle.std.specs.List.{AllByRecursion};
ghost use Rattle.stores.specs.Items.{count_part, stands};
ghost use Rattle.stores.specs.Sound.{Proper};

use crate::known::KnownGroup;
use crate::search::is_listed;
use crate::store_part::StorePart;
use contexts::context::Context;
use records::record::PartEntry;
use sources::group_entries::group_entries;
use sources::source::GroupSource;
use stores::dot_store::DotStore;

impl<G: GroupSource> KnownGroup<'_, G> {
    // Puts in every entry of the group whose dot the context lacks or the store has. Where each part has room for the outcome, each put is done.
    pub fn enter_into<S: DotStore>(&self, store: &mut S, context: &Context)
        ensures room { S.DotStore.capacities store.new ≡ S.DotStore.capacities store.old }
        ensures after { G.GroupSource.legible self.now.group.now → AllByRecursion (Proper S.DotStore.kinds) (G.GroupSource.group self.now.group.now).items
            → ((p : ℕ) → count_part p (enter_all S.DotStore.kinds (runs_of context.now) (S.DotStore.entries store.old) (G.GroupSource.group self.now.group.now).items) ≤ slice_index (S.DotStore.capacities store.old) p)
            → S.DotStore.entries store.new ≡ enter_all S.DotStore.kinds (runs_of context.now) (S.DotStore.entries store.old) (G.GroupSource.group self.now.group.now).items }
    {
        for found in group_entries(self.group) {
            if !is_shut(store, context, found) {
                let _ = store.put(found.part as usize, found.entry);
            }
        }
    }
}

// Whether the context knows the entry's dot and the store does not have it.
fn is_shut<S: DotStore>(store: &S, context: &Context, entry: PartEntry) -> bool
    ensures { result ≡ shut (runs_of context.now) entry.entry.dot (S.DotStore.entries store.now) }
{
    context.contains(entry.entry.dot) && !is_held(store, entry)
}

// Whether the store has the entry's dot. It is looked for where the entry would stand in its part, and only then in the whole store.
fn is_held<S: DotStore>(store: &S, entry: PartEntry) -> bool
    ensures { result ≡ stands entry.entry.dot (S.DotStore.entries store.now) }
{
    let part = usize::from(entry.part);
    is_listed(&StorePart { store, part }, entry) || store.find(entry.entry.dot).is_some()
}
