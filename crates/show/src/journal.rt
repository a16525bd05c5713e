// The groups of a journal, joined into a store one after another.
use contexts::context::Context;
use joining::join::join_group;
use refusals::Refusal;
use sources::read_groups::journal_group;
use std::fmt;
use stores::dot_store::DotStore;

// Why the joining of a journal came to an end, and at which of its groups.
#[derive(Clone, Copy, Debug, PartialEq, Eq)]
pub struct Stop {
    pub refusal: Refusal,
    pub group: usize,
}

// The number, the place and the group.
impl fmt::Display for Stop {
    fn fmt<W: fmt::Write>(&self, f: &mut fmt::Formatter<W>) -> fmt::Result {
        let Refusal { number, place, .. } = self.refusal;
        let group = self.group;
        write!(f, "refused {number} {place} {group}")
    }
}

// Joins every group of the journal, up to the first that cannot be read or has no room. The groups are counted, for a stop tells which
// one; no group is empty, so there are no more of them than bytes.
pub fn join_journal<S: DotStore>(
    store: &mut S,
    context: &mut Context,
    journal: &[u8],
) -> Result<(), Stop> {
    let mut rest = journal;
    for group in 0..journal.len() {
        if rest.is_empty() {
            break;
        }
        let length = join_first(store, context, rest).map_err(|refusal| Stop { refusal, group })?;
        rest = rest.get(length..).unwrap_or(&[]);
    }
    Ok(())
}

// Joins the first group of a journal, and answers its length.
fn join_first<S: DotStore>(
    store: &mut S,
    context: &mut Context,
    journal: &[u8],
) -> Result<usize, Refusal> {
    let read = journal_group::<S>(journal)?;
    join_group(store, context, &read.group)?;
    Ok(read.summary.length)
}

#[cfg(test)]
mod tests {
    use super::{Stop, join_journal};
    use causal::dots::Dot;
    use causal::places::Place;
    use causal::runs::Run;
    use contexts::context::Context;
    use kinds::kind::Kind;
    use kinds::limit::Limit;
    use records::record::{Origin, PartEntry, Record};
    use records::writer::write_record;
    use refusals::refuse;
    use std::test::Fail;
    use stores::dot_store::DotStore;
    use stores::entries::Entry;
    use tables::table::Table;

    // Writes a group of three records: a limit at feeder 12 under the replica's dot 1, its run, and its origin.
    fn write_limit(memory: &mut [u8], at: usize, replica: u8, amps: u64) {
        let entry = limit(replica, amps);
        write_record(memory, at, Record::Entry(PartEntry { part: 0, entry }));
        let run = Run {
            replica,
            first: 1,
            last: 1,
        };
        write_record(memory, at.saturating_add(1), Record::Run(run));
        let origin = Origin {
            sender: replica,
            since: 0,
            until: 1,
        };
        write_record(memory, at.saturating_add(2), Record::Origin(origin));
    }

    fn limit(replica: u8, value: u64) -> Entry<u64> {
        let place = Place {
            first: 12,
            second: 0,
            third: 0,
            fourth: 0,
        };
        let dot = Dot {
            replica,
            counter: 1,
        };
        Entry { place, dot, value }
    }

    // Joins the first so many bytes of a journal of three groups into a table for two limits: how many it then holds, and what stopped it.
    fn joined(bytes: usize) -> Result<(usize, Result<(), Stop>), Fail> {
        let row = Entry {
            place: limit(1, 0).place,
            dot: limit(1, 0).dot,
            value: Limit::read(0).ok_or("a code that fits")?,
        };
        let mut rows = [row; 2];
        let mut table = Table::new(&mut rows);
        let mut context = Context::empty();
        let mut memory = [0; 216];
        write_limit(&mut memory, 0, 1, 160);
        write_limit(&mut memory, 3, 2, 125);
        write_limit(&mut memory, 6, 3, 80);
        let answer = join_journal(&mut table, &mut context, &memory[0..bytes.min(216)]);
        Ok((table.count(0), answer))
    }

    fn stopped(number: u8, place: u64, group: usize) -> Result<(), Stop> {
        let refusal = refuse(number, place);
        Err(Stop { refusal, group })
    }

    #[test]
    fn groups_are_joined_in_turn(rt: HostRuntime) -> Result<(), Fail> {
        assert_eq!(rt; joined(0)?, (0, Ok(())));
        assert_eq!(rt; joined(72)?, (1, Ok(())));
        assert_eq!(rt; joined(144)?, (2, Ok(())));
        Ok(())
    }

    #[test]
    fn the_first_that_cannot_be_read_or_joined_ends_it(rt: HostRuntime) -> Result<(), Fail> {
        // bytes left over, a group without its origin, and no room for a third limit
        assert_eq!(rt; joined(77)?, (1, stopped(25, 0, 1)));
        assert_eq!(rt; joined(143)?, (1, stopped(25, 2, 1)));
        assert_eq!(rt; joined(216)?, (2, stopped(33, 0, 2)));
        Ok(())
    }
}
