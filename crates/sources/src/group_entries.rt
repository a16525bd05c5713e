// The entries of a group, one after another.
ghost use Rattle.std.specs.Prelude.{◌≡◌, ◌-◌, length};
ghost use Rattle.std.specs.Iterator.{at_most};
ghost use Rattle.sources.specs.Walks.{GivesEntry};

use crate::source::GroupSource;
use records::record::PartEntry;

// Those that are still to come: from the next one on, up to the end.
#[derive(Drop)]
pub struct GroupEntries<'g, G: GroupSource> {
    group: &'g G,
    next: usize,
    end: usize,
    ghost whole: { G.GroupSource.legible group.now → end ≡ length (G.GroupSource.group group.now).items },
}

// All entries of the group, in order.
pub fn group_entries<G: GroupSource>(group: &G) -> GroupEntries<'_, G>
    ensures group { result.group.now ≡ group.now }
    ensures first { result.next ≡ 0 }
{
    let end = group.entry_count();
    GroupEntries {
        group,
        next: 0,
        end,
    }
}

impl<G: GroupSource> Iterator for GroupEntries<'_, G> {
    type Item = PartEntry;

    ghost next_gives = { λ s r t. (t.group ≡ s.group) × GivesEntry (G.GroupSource.legible s.group.now) (G.GroupSource.group s.group.now).items s.next r t.next };

    ghost remaining = { λ s. at_most (s.end - s.next) };

    fn next(&mut self) -> Option<PartEntry> {
        if self.next >= self.end {
            return None;
        }
        let entry = self.group.entry_at(self.next)?;
        self.next += 1;
        Some(entry)
    }
}
