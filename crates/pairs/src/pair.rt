// Two stores as one: the parts of the first, then those of the second, the first eight of them.
ghost use Rattle.std.specs.Prelude.{◌≡◌, [], length};
ghost use Rattle.stores.specs.Sound.{Orderly, Orderly-prop};
ghost use Rattle.pairs.specs.Pairs.{both, paired, paired_few, paired_roomy};

use causal::dots::Dot;
use stores::dot_store::{DotStore, MOST_PARTS};
use stores::entries::Entry;
use stores::faults::StoreFault;

// Two stores, in which no dot stands twice.
#[derive(Drop)]
pub struct Pair<A: DotStore, B: DotStore> {
    first: A,
    second: B,
    pub ghost orderly: { Orderly (paired A.DotStore.kinds B.DotStore.kinds) (paired (A.DotStore.capacities first) (B.DotStore.capacities second)) (both (length A.DotStore.kinds) (A.DotStore.entries first) (B.DotStore.entries second)) } by { Orderly-prop },
}

impl<A: DotStore, B: DotStore> Pair<A, B> {
    // The two stores, emptied, as one.
    pub fn new(mut low: A, mut high: B) -> Self
        ensures room { (A.DotStore.capacities result.first ≡ A.DotStore.capacities low) × (B.DotStore.capacities result.second ≡ B.DotStore.capacities high) }
        ensures empty { (A.DotStore.entries result.first ≡ []) × (B.DotStore.entries result.second ≡ []) }
    {
        low.clear();
        high.clear();
        Pair {
            first: low,
            second: high,
        }
    }
}

// Which half has a part stays a condition in each call: a function would answer in an enum that each call takes apart again.
impl<A: DotStore, B: DotStore> DotStore for Pair<A, B> {
    ghost kinds = { paired A.DotStore.kinds B.DotStore.kinds };

    ghost parts = { paired_few A.DotStore.kinds B.DotStore.kinds A.DotStore.parts };

    ghost capacities = { λ p. paired (A.DotStore.capacities p.first) (B.DotStore.capacities p.second) };

    ghost roomy = { λ p. paired_roomy A.DotStore.kinds B.DotStore.kinds (A.DotStore.capacities p.first) (B.DotStore.capacities p.second) (A.DotStore.roomy p.first) (B.DotStore.roomy p.second) };

    ghost entries = { λ p. both (length A.DotStore.kinds) (A.DotStore.entries p.first) (B.DotStore.entries p.second) };

    ghost orderly = { λ p. p.orderly };

    fn part_count() -> usize {
        (A::part_count() + B::part_count()).min(MOST_PARTS)
    }

    fn fits(part: usize, code: u64) -> bool {
        let parts = A::part_count();
        if part < parts {
            return A::fits(part, code);
        }
        if part >= MOST_PARTS {
            return false;
        }
        B::fits(part - parts, code)
    }

    fn count(&self, part: usize) -> usize {
        let parts = A::part_count();
        if part < parts {
            self.first.count(part)
        } else {
            self.second.count(part - parts)
        }
    }

    fn capacity(&self, part: usize) -> usize {
        let parts = A::part_count();
        if part < parts {
            return self.first.capacity(part);
        }
        if part >= MOST_PARTS {
            return 0;
        }
        self.second.capacity(part - parts)
    }

    fn entry(&self, part: usize, position: usize) -> Option<Entry<u64>> {
        let parts = A::part_count();
        if part < parts {
            self.first.entry(part, position)
        } else {
            self.second.entry(part - parts, position)
        }
    }

    fn find(&self, dot: Dot) -> Option<(usize, Entry<u64>)> {
        if let Some(found) = self.first.find(dot) {
            return Some(found);
        }
        let (part, entry) = self.second.find(dot)?;
        Some((A::part_count() + part, entry))
    }

    fn put(&mut self, part: usize, entry: Entry<u64>) -> Result<(), StoreFault> {
        Self::check(part, entry)?;
        let parts = A::part_count();
        if part < parts {
            if self.second.find(entry.dot).is_some() {
                return Ok(());
            }
            return self.first.put(part, entry);
        }
        if self.first.find(entry.dot).is_some() {
            return Ok(());
        }
        self.second
            .put(part - parts, entry)
            .map_err(|fault| fault.renumber(part))
    }

    fn strike(&mut self, dot: Dot) {
        self.first.strike(dot);
        self.second.strike(dot);
    }

    fn clear(&mut self) {
        self.first.clear();
        self.second.clear();
    }
}
