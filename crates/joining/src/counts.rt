// How many entries a part has after a join: those of the store that stay, and those of the group that come.
ghost use Rattle.std.specs.Prelude.{◌≡◌, length, filter};
ghost use Rattle.contexts.specs.Contexts.{runs_of};
ghost use Rattle.joining.specs.Questions.{arrives};
ghost use Rattle.joining.specs.Strikes.{spared};
ghost use Rattle.stores.specs.Items.{in_part};

use crate::known::KnownGroup;
use contexts::context::Context;
use records::record::PartEntry;
use sources::group_entries::group_entries;
use sources::source::GroupSource;
use stores::dot_store::DotStore;
use stores::part_entries::entries_of;

impl<G: GroupSource> KnownGroup<'_, G> {
    // How many entries of the store's part the group does not strike.
    pub fn count_spared<S: DotStore>(&self, store: &S, part: u8) -> usize
        ensures { G.GroupSource.legible self.now.group.now
            → result ≡ length (filter (spared (G.GroupSource.group self.now.group.now)) (filter (in_part part) (S.DotStore.entries store.now))) }
    {
        entries_of(store, usize::from(part))
            .filter(|&entry| !self.strikes(PartEntry { part, entry }))
            .count()
    }

    // How many of the group's entries are of the part, with a dot that the context lacks.
    pub fn count_new(&self, context: &Context, part: u8) -> usize
        ensures { G.GroupSource.legible self.now.group.now → result ≡ length (filter (arrives (runs_of context.now) part) (G.GroupSource.group self.now.group.now).items) }
    {
        group_entries(self.group)
            .filter(|found| found.part == part && !context.contains(found.entry.dot))
            .count()
    }
}
