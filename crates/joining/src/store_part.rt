// One part of a store, read as a group.
ghost use Rattle.joining.specs.StoreParts.{part_of, part_readable};

use causal::runs::Run;
use records::record::PartEntry;
use sources::source::GroupSource;
use sources::store_group::entry_of_part;
use stores::dot_store::DotStore;

// The entries of `part` in `store`, and no runs: so a dot is looked for among them by the search that looks in a group. By a search in
// the whole store, each step would ask up to all parts for their counts.
#[derive(Drop)]
pub(crate) struct StorePart<'s, S> {
    pub store: &'s S,
    pub part: usize,
}

impl<S: DotStore> GroupSource for StorePart<'_, S> {
    ghost group = { λ s. part_of s.part (S.DotStore.entries s.store.now) };

    ghost legible = { λ _. Unit {0} };

    ghost readable = { λ s _. part_readable s.part (S.DotStore.entries s.store.now) };

    // A part is looked through, and never written.
    ghost sound = { λ _. ⊥ };

    ghost writable = { λ _ h. absurd h };

    fn entry_count(&self) -> usize {
        self.store.count(self.part)
    }

    fn entry_at(&self, index: usize) -> Option<PartEntry> {
        entry_of_part(self.store, self.part, index)
    }

    fn run_count(&self) -> usize {
        0
    }

    fn run_at(&self, _: usize) -> Option<Run> {
        None
    }
}
