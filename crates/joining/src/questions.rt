// What a join would come to, asked before anything changes.
ghost use Rattle.std.specs.Prelude.{◌≡◌};
ghost use Rattle.contexts.specs.Contexts.{runs_of};
ghost use Rattle.groups.specs.Groups.{joined};
ghost use Rattle.joining.specs.Questions.{overfull, fitting_union, elsewhere, first_elsewhere};
ghost use Rattle.reading.specs.Reading.{item_in};
ghost use Rattle.sources.specs.Sources.{book};
ghost use Rattle.std.specs.Option.{option_map};

use crate::known::KnownGroup;
use contexts::context::Context;
use records::record::PartEntry;
use sources::group_entries::group_entries;
use sources::source::GroupSource;
use stores::dot_store::DotStore;

// The lowest part that would hold more than its capacity. It is told as a part and not as a fault, since it is asked beforehand.
pub fn overfull_part<S: DotStore, G: GroupSource>(
    store: &S,
    context: &Context,
    group: &G,
) -> Option<usize>
    ensures { G.GroupSource.legible group.now
        → result ≡ overfull S.DotStore.kinds (S.DotStore.capacities store.now) (joined S.DotStore.kinds (book (S.DotStore.entries store.now) (runs_of context.now)) (G.GroupSource.group group.now)).items }
{
    KnownGroup::new(group).part_overfilled(store, context)
}

// The dots that the context and the group know; none where they have too many runs for a context.
pub fn united_context<G: GroupSource>(context: &Context, group: &G) -> Option<Context>
    ensures { G.GroupSource.legible group.now → option_map runs_of result ≡ fitting_union (runs_of context.now) (G.GroupSource.group group.now).runs }
{
    KnownGroup::new(group).united_with(context)
}

// The lowest of the group's entries whose dot stands in the store at another part or place.
pub fn first_elsewhere<S: DotStore, G: GroupSource>(store: &S, group: &G) -> Option<usize>
    ensures { G.GroupSource.legible group.now → result ≡ first_elsewhere (S.DotStore.entries store.now) (G.GroupSource.group group.now) }
{
    group_entries(group).position(|found| stands_elsewhere(store, found))
}

// Whether the entry's dot stands in the store at another part or place.
#[tactic(auto, unfolding(causal::specs::Places::same_place))]
fn stands_elsewhere<S: DotStore>(store: &S, found: PartEntry) -> bool
    ensures { result ≡ elsewhere (S.DotStore.entries store.now) (item_in found) }
{
    store.find(found.entry.dot).is_some_and(|(part, held)| {
        part != usize::from(found.part) || held.place != found.entry.place
    })
}

impl<G: GroupSource> KnownGroup<'_, G> {
    // The lowest part that would hold more than its capacity.
    pub fn part_overfilled<S: DotStore>(&self, store: &S, context: &Context) -> Option<usize>
        ensures { G.GroupSource.legible self.now.group.now
            → result ≡ overfull S.DotStore.kinds (S.DotStore.capacities store.now) (joined S.DotStore.kinds (book (S.DotStore.entries store.now) (runs_of context.now)) (G.GroupSource.group self.now.group.now)).items }
    {
        for part in 0..S::part_count() as u8 {
            let staying = self.count_spared(store, part);
            let coming = self.count_new(context, part);
            let part = usize::from(part);
            if staying.saturating_add(coming) > store.capacity(part) {
                return Some(part);
            }
        }
        None
    }

    // The dots that the context and the group know; none where they have too many runs for a context.
    pub fn united_with(&self, context: &Context) -> Option<Context>
        ensures { G.GroupSource.legible self.now.group.now → option_map runs_of result ≡ fitting_union (runs_of context.now) (G.GroupSource.group self.now.group.now).runs }
    {
        let mut united = *context;
        united.unite(&self.dots).ok()?;
        Some(united)
    }
}
