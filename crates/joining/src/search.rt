// Looking for a dot in a group.
ghost use Rattle.std.specs.Prelude.{◌≡◌, true};
ghost use Rattle.stores.specs.Items.{stands};

use causal::dots::Dot;
use records::record::PartEntry;
use sources::group_entries::group_entries;
use sources::source::GroupSource;

// Whether an entry of the group has the dot; it may stand anywhere.
fn has_dot<G: GroupSource>(group: &G, dot: Dot) -> bool
    ensures { G.GroupSource.legible group.now → result ≡ stands dot (G.GroupSource.group group.now).items }
{
    group_entries(group).any(|found| found.entry.dot == dot)
}

// A search for the entry's dot where the entry would stand in the group's order. It may miss a dot that stands elsewhere.
pub(crate) fn is_listed<G: GroupSource>(group: &G, wanted: PartEntry) -> bool
    ensures { G.GroupSource.legible group.now → result ≡ true → stands wanted.entry.dot (G.GroupSource.group group.now).items ≡ true }
{
    // By hand: a group gives its entries by number, so there is no slice that the library could search.
    let mut low = 0;
    let mut high = group.entry_count();
    while low < high {
        let middle = low + (high - low) / 2;
        let Some(found) = group.entry_at(middle) else {
            return false;
        };
        if found.entry.dot == wanted.entry.dot {
            return true;
        }
        if found.precedes(wanted) {
            low = middle + 1;
        } else {
            high = middle;
        }
    }
    false
}

// Whether an entry of the group has the dot of the wanted one. It is looked for at the wanted one's part and place first.
pub(crate) fn has_entry<G: GroupSource>(group: &G, wanted: PartEntry) -> bool
    ensures { G.GroupSource.legible group.now → result ≡ stands wanted.entry.dot (G.GroupSource.group group.now).items }
{
    is_listed(group, wanted) || has_dot(group, wanted.entry.dot)
}
