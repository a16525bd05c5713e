// The listing: a line for each entry.
use causal::places::Place;
use records::record::PartEntry;
use sources::group_entries::group_entries;
use sources::source::GroupSource;
use std::{fmt, io};

// Prints every entry of the group, in order.
pub fn list_entries<G: GroupSource>(rt: &HostRuntime, group: &G) -> io::Result<()> {
    for found in group_entries(group) {
        println!(rt; "{}", EntryLine(found))?;
    }
    Ok(())
}

// The part of the sockets' lines.
const LINES: u8 = 1;

#[derive(Clone, Copy)]
struct EntryLine(PartEntry);

// The part, the place, the dot and the code, and in part 1 the number of phases.
impl fmt::Display for EntryLine {
    fn fmt<W: fmt::Write>(&self, f: &mut fmt::Formatter<W>) -> fmt::Result {
        let PartEntry { part, entry } = self.0;
        let place = Keys(entry.place);
        let replica = entry.dot.replica;
        let counter = entry.dot.counter;
        let code = entry.value;
        write!(f, "{part} {place} {replica}:{counter} {code}")?;
        if part == LINES {
            let phases = code.count_ones();
            write!(f, " {phases}")?;
        }
        Ok(())
    }
}

#[derive(Clone, Copy)]
struct Keys(Place);

// The keys up to the first 0, with points between.
impl fmt::Display for Keys {
    fn fmt<W: fmt::Write>(&self, f: &mut fmt::Formatter<W>) -> fmt::Result {
        let place = self.0;
        let first = place.first;
        write!(f, "{first}")?;
        let rest = [place.second, place.third, place.fourth];
        for key in rest.iter().take(place.depth().saturating_sub(1)) {
            write!(f, ".{key}")?;
        }
        Ok(())
    }
}
