// A store and a context, read as a group.
ghost use Rattle.std.specs.Prelude.{◌≡◌};
ghost use Rattle.contexts.specs.Contexts.{runs_of};
ghost use Rattle.sources.specs.Sources.{book, book_readable, book_countable};
ghost use Rattle.reading.specs.Reading.{item_in};
ghost use Rattle.std.specs.List.{slice_get};
ghost use Rattle.std.specs.Option.{option_map};
ghost use Rattle.stores.specs.Items.{entry_at};

use crate::source::GroupSource;
use causal::runs::Run;
use contexts::context::Context;
use records::record::PartEntry;
use stores::dot_store::DotStore;
use stores::walks::count_all;

#[derive(Drop)]
pub struct StoreGroup<'s, 'c, S> {
    pub store: &'s S,
    pub context: &'c Context,
}

impl<S: DotStore> GroupSource for StoreGroup<'_, '_, S> {
    ghost group = { λ s. book (S.DotStore.entries s.store.now) (runs_of s.context.now) };

    ghost legible = { λ _. Unit {0} };

    ghost readable = { λ s _. book_readable (S.DotStore.entries s.store.now) s.context.now };

    ghost sound = { λ _. Unit {0} };

    ghost writable = { λ s _. (tt, book_countable S.DotStore.kinds (S.DotStore.capacities s.store.now) (S.DotStore.entries s.store.now) s.context.now S.DotStore.parts (S.DotStore.roomy s.store.now) (S.DotStore.orderly s.store.now)) };

    fn entry_count(&self) -> usize {
        count_all(self.store)
    }

    fn entry_at(&self, index: usize) -> Option<PartEntry> {
        entry_in_order(self.store, index)
    }

    fn run_count(&self) -> usize {
        self.context.run_count()
    }

    fn run_at(&self, index: usize) -> Option<Run> {
        self.context.run_at(index)
    }
}

// The entry at an index, counted through all parts.
fn entry_in_order<S: DotStore>(store: &S, index: usize) -> Option<PartEntry>
    ensures { option_map item_in result ≡ slice_get (S.DotStore.entries store.now) index }
{
    let mut left = index;
    // By number: there is nothing else to walk over in the parts of a store, here and wherever parts are numbered.
    for part in 0..S::part_count() {
        let count = store.count(part);
        if left < count {
            return entry_of_part(store, part, left);
        }
        left -= count;
    }
    None
}

// The entry at a position of the part, with the part.
pub fn entry_of_part<S: DotStore>(store: &S, part: usize, position: usize) -> Option<PartEntry>
    ensures { option_map item_in result ≡ entry_at part position (S.DotStore.entries store.now) }
{
    if part >= S::part_count() {
        return None;
    }
    let entry = store.entry(part, position)?;
    Some(PartEntry {
        part: part as u8,
        entry,
    })
}
