// Entries: a value at a place, named by its dot.
use causal::dots::Dot;
use causal::places::Place;

// Over codes, `Entry<u64>`; in a table, over the values of its kind.
#[derive(Clone, Copy, Debug, PartialEq, Eq)]
pub struct Entry<V> {
    pub place: Place,
    pub dot: Dot,
    pub value: V,
}
