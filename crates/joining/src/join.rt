// The join of a group into a store and a context.
ghost use Rattle.std.specs.Prelude.{◌≡◌};
ghost use Rattle.contexts.specs.Contexts.{runs_of};
ghost use Rattle.groups.specs.Groups.{Formed, joined};
ghost use Rattle.joining.specs.Outcomes.{refusal_of, outcome_refusal, after_join};
ghost use Rattle.sources.specs.Sources.{book};
ghost use Rattle.std.specs.Option.{option_map};
ghost use Rattle.std.specs.Result.{result_err};

use crate::faults::JoinFault;
use crate::known::KnownGroup;
use contexts::context::Context;
use sources::source::GroupSource;
use stores::dot_store::DotStore;

// Joins the group to the book of the store and the context. Where the outcome has no room, nothing changes. The store and
// the context are two parameters, here and in the questions, since who owns them may keep them apart.
pub fn join_group<S: DotStore, G: GroupSource>(
    store: &mut S,
    context: &mut Context,
    group: &G,
) -> Result<(), JoinFault>
    ensures room { S.DotStore.capacities store.new ≡ S.DotStore.capacities store.old }
    ensures answer { G.GroupSource.legible group.now → option_map refusal_of (result_err result)
        ≡ outcome_refusal S.DotStore.kinds (S.DotStore.capacities store.old) (joined S.DotStore.kinds (book (S.DotStore.entries store.old) (runs_of context.old)) (G.GroupSource.group group.now)) }
    ensures after { G.GroupSource.legible group.now
        → Formed S.DotStore.kinds (book (S.DotStore.entries store.old) (runs_of context.old)) → Formed S.DotStore.kinds (G.GroupSource.group group.now)
        → book (S.DotStore.entries store.new) (runs_of context.new)
        ≡ after_join S.DotStore.kinds (S.DotStore.capacities store.old) (book (S.DotStore.entries store.old) (runs_of context.old)) (G.GroupSource.group group.now) }
{
    let known = KnownGroup::new(group);
    if let Some(part) = known.part_overfilled(store, context) {
        return Err(JoinFault::Overfull(part));
    }
    let Some(united) = known.united_with(context) else {
        return Err(JoinFault::TooManyRuns);
    };
    known.strike_from(store);
    known.enter_into(store, context);
    *context = united;
    Ok(())
}
