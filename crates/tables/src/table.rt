// A store of one part, over rows that its owner lends.
ghost use Rattle.std.specs.Prelude.{◌≡◌, ◌≤◌, [], ◌∷◌, length, take};
ghost use Rattle.stores.specs.Sound.{Orderly, Orderly-prop};
ghost use Rattle.tables.specs.Rows.{items, usable, one_part, one_roomy};

use crate::rows::{insert_at, position, remove_at, seek};
use crate::table_rows::{find_row, join_at, row_at};
use causal::dots::Dot;
use kinds::kind::Kind;
use stores::address::is_entry_address;
use stores::dot_store::{DotStore, MOST_ENTRIES};
use stores::entries::Entry;
use stores::faults::StoreFault;

// Entries of one kind, in the first `len` rows, in order. Stays as rows with a count: the memory is lent, and has room past those in use.
#[derive(Drop)]
pub struct Table<'a, K: Kind> {
    rows: &'a mut [Entry<K>],
    len: usize,
    pub ghost within: { len ≤ length rows.now },
    pub ghost orderly: { Orderly (K.Kind.kind ∷ []) (usable (length rows.now) ∷ []) (items K.Kind.code (take len rows.now)) } by { Orderly-prop },
}

impl<'a, K: Kind> Table<'a, K> {
    // An empty table in these rows, whatever they hold.
    pub fn new(rows: &'a mut [Entry<K>]) -> Self
        ensures empty { result.len ≡ 0 }
        ensures rows { result.rows.now ≡ rows.old }
    {
        Table { rows, len: 0 }
    }

    // The rows in use.
    fn used(&self) -> &[Entry<K>]
        ensures { result.now ≡ take self.now.len self.now.rows.now }
    {
        &self.rows[..self.len]
    }
}

impl<'a, K: Kind> DotStore for Table<'a, K> {
    ghost use Rattle.std.specs.Prelude.{◌≡◌, [], ◌∷◌, length, take, drop, MatchResult};
    ghost use Rattle.std.specs.Option.{option_map};
    ghost use Rattle.std.specs.Result.{result_err};
    ghost use Rattle.stores.specs.Faults.{refusal_of};
    ghost use Rattle.stores.specs.Items.{strike_items};
    ghost use Rattle.stores.specs.Puts.{put_refusal, put_after};

    ghost kinds = { K.Kind.kind ∷ [] };

    ghost parts = { one_part K.Kind.kind };

    ghost capacities = { λ t. usable (length t.rows.now) ∷ [] };

    ghost roomy = { λ t. one_roomy K.Kind.kind (length t.rows.now) };

    ghost entries = { λ t. items K.Kind.code (take t.len t.rows.now) };

    ghost orderly = { λ t. t.orderly };

    fn part_count() -> usize {
        1
    }

    fn fits(part: usize, code: u64) -> bool {
        part == 0 && K::read(code).is_some()
    }

    fn count(&self, part: usize) -> usize {
        if part == 0 { self.len } else { 0 }
    }

    fn capacity(&self, part: usize) -> usize {
        if part == 0 {
            self.rows.len().min(MOST_ENTRIES)
        } else {
            0
        }
    }

    fn entry(&self, part: usize, position: usize) -> Option<Entry<u64>> {
        if part != 0 {
            return None;
        }
        row_at(self.used(), position)
    }

    fn find(&self, dot: Dot) -> Option<(usize, Entry<u64>)> {
        find_row(self.used(), dot).map(|entry| (0, entry))
    }

    // The last clause is the table's own: rows past those in use stay as they were, and where the put is refused, all rows do.
    fn put(&mut self, part: usize, entry: Entry<u64>) -> Result<(), StoreFault>
        ensures room { usable (length self.new.rows.now) ∷ [] ≡ usable (length self.old.rows.now) ∷ [] }
        ensures answer { option_map refusal_of (result_err result) ≡ put_refusal (K.Kind.kind ∷ []) (usable (length self.old.rows.now) ∷ []) (items K.Kind.code (take self.old.len self.old.rows.now)) part entry }
        ensures after { items K.Kind.code (take self.new.len self.new.rows.now) ≡ put_after (K.Kind.kind ∷ []) (usable (length self.old.rows.now) ∷ []) (items K.Kind.code (take self.old.len self.old.rows.now)) part entry }
        ensures rest { MatchResult result (λ _. drop self.new.len self.new.rows.now ≡ drop self.new.len self.old.rows.now) (λ _. self.new.rows.now ≡ self.old.rows.now) }
    {
        // Judged here and not by `check`, which would read the code once more.
        if part != 0 || !is_entry_address(entry.place, entry.dot) {
            return Err(StoreFault::Address);
        }
        let value = K::read(entry.value).ok_or(StoreFault::Unfit)?;
        let row = Entry {
            place: entry.place,
            dot: entry.dot,
            value,
        };
        if let Some(found) = seek(self.used(), row.dot) {
            join_at(self.rows, found, row);
            return Ok(());
        }
        if self.len >= self.capacity(0) {
            return Err(StoreFault::Full(0));
        }
        let at = position(self.used(), row.place, row.dot);
        insert_at(self.rows, self.len, at, row);
        self.len += 1;
        Ok(())
    }

    // The last clause is the table's own: rows past those that are then in use stay as they were.
    fn strike(&mut self, dot: Dot)
        ensures room { usable (length self.new.rows.now) ∷ [] ≡ usable (length self.old.rows.now) ∷ [] }
        ensures after { items K.Kind.code (take self.new.len self.new.rows.now) ≡ strike_items dot (items K.Kind.code (take self.old.len self.old.rows.now)) }
        ensures rest { drop self.new.len self.new.rows.now ≡ drop self.new.len self.old.rows.now }
    {
        if let Some(found) = seek(self.used(), dot) {
            remove_at(self.rows, self.len, found);
            self.len -= 1;
        }
    }

    fn clear(&mut self) {
        self.len = 0;
    }
}
