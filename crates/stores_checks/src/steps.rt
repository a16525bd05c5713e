// Calls on any store, with what each should answer.
use causal::dots::Dot;
use causal::places::Place;
use refusals::Refusal;
use stores::dot_store::DotStore;
use stores::entries::Entry;
use stores::faults::StoreFault;
use stores::walks::{count_all, count_under};

// Numbers in their order: part, feeder, counter (of a dot of replica 1), code, unless a line says otherwise.
#[derive(Clone, Copy)]
pub enum Step {
    // A put that is accepted.
    Put(usize, u16, u16, u64),
    // A put that is refused; and then the refusal's number and place.
    Refused(usize, u16, u16, u64, u8, u64),
    // A put that is accepted, and one that is refused, of a whole entry.
    PutEntry(usize, Entry<u64>),
    RefusedEntry(usize, Entry<u64>, u8),
    // By counter.
    Strike(u16),
    Clear,
    // An entry of the part, at this position.
    At(usize, usize, u16, u16, u64),
    // A part, and a position where it has no entry.
    NoneAt(usize, usize),
    // A counter, the part where its dot is found, and the code.
    Found(u16, usize, u64),
    Absent(u16),
    // A part and its count, a part and its capacity.
    Count(usize, usize),
    Capacity(usize, usize),
    // A part and a code that fits it, or does not.
    Fits(usize, u64),
    Unfit(usize, u64),
    // How many parts, and how many entries in all.
    Parts(usize),
    All(usize),
    // A part, a feeder, and how many entries stand under it.
    Under(usize, u16, usize),
}

fn feeder(first: u16) -> Place {
    Place {
        first,
        second: 0,
        third: 0,
        fourth: 0,
    }
}

fn entry(first: u16, counter: u16, value: u64) -> Entry<u64> {
    Entry {
        place: feeder(first),
        dot: Dot {
            replica: 1,
            counter,
        },
        value,
    }
}

// A row that holds something before a table is made of it.
pub fn used_row<V>(value: V) -> Entry<V> {
    Entry {
        place: feeder(9),
        dot: Dot {
            replica: 9,
            counter: 9,
        },
        value,
    }
}

// Whether the answer is a refusal with this number and place, in layer 2 for 23 and else in 3.
fn is_refused(answer: Result<(), StoreFault>, number: u8, place: u64) -> bool {
    let Err(fault) = answer else {
        return false;
    };
    let refusal = Refusal::from(fault);
    let layer = if number == 23 { 2 } else { 3 };
    refusal.number == number && refusal.layer == layer && refusal.place == place
}

fn is_entry(found: Option<Entry<u64>>, first: u16, counter: u16, code: u64) -> bool {
    found.is_some_and(|entry| {
        entry.place.first == first && entry.dot.counter == counter && entry.value == code
    })
}

fn is_found(found: Option<(usize, Entry<u64>)>, part: usize, code: u64) -> bool {
    found.is_some_and(|(other, entry)| other == part && entry.value == code)
}

// Takes the step, and says whether all was as it should be. Stays a `match`: a test lists its calls as data, and the answer of each call
// is judged in its own way.
fn goes<S: DotStore>(store: &mut S, step: Step) -> bool {
    match step {
        Step::Put(part, first, counter, code) => store
            .put(part, entry(first, counter, code))
            .is_ok(),
        Step::Refused(part, first, counter, code, number, place) => {
            is_refused(store.put(part, entry(first, counter, code)), number, place)
        }
        Step::PutEntry(part, entry) => store.put(part, entry).is_ok(),
        Step::RefusedEntry(part, entry, number) => is_refused(store.put(part, entry), number, 0),
        Step::Strike(counter) => {
            store.strike(Dot {
                replica: 1,
                counter,
            });
            true
        }
        Step::Clear => {
            store.clear();
            true
        }
        _ => stands(store, step),
    }
}

// Whether the store is as the step says.
fn stands<S: DotStore>(store: &S, step: Step) -> bool {
    match step {
        Step::At(part, position, first, counter, code) => is_entry(
            store.entry(part, position),
            first,
            counter,
            code,
        ),
        Step::NoneAt(part, position) => store.entry(part, position).is_none(),
        Step::Found(counter, part, code) => is_found(
            store.find(Dot {
                replica: 1,
                counter,
            }),
            part,
            code,
        ),
        Step::Absent(counter) => store
            .find(Dot {
                replica: 1,
                counter,
            })
            .is_none(),
        Step::Count(part, count) => store.count(part) == count,
        Step::Capacity(part, capacity) => store.capacity(part) == capacity,
        Step::Fits(part, code) => S::fits(part, code),
        Step::Unfit(part, code) => !S::fits(part, code),
        Step::Parts(parts) => S::part_count() == parts,
        Step::All(count) => count_all(store) == count,
        Step::Under(part, first, count) => count_under(store, part, feeder(first)) == count,
        _ => false,
    }
}

// How many steps go as they should, up to the first that does not.
pub fn walk<S: DotStore>(store: &mut S, steps: &[Step]) -> usize {
    steps
        .iter()
        .position(|step| !goes(store, *step))
        .unwrap_or(steps.len())
}
