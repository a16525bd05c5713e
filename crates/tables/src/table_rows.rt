// The rows of a table, one at a time.
ghost use Rattle.std.specs.Prelude.{◌≡◌, ◌+◌, ◌<◌, length, drop};
ghost use Rattle.std.specs.List.{slice_get};
ghost use Rattle.std.specs.Option.{option_map};
ghost use Rattle.stores.specs.Items.{item_of, item_at, find, merge};
ghost use Rattle.tables.specs.Rows.{items, adjust};

use crate::rows::seek;
use causal::dots::Dot;
use kinds::kind::Kind;
use stores::entries::Entry;

// The row at `at`, with its value as a code.
pub fn row_at<K: Kind>(rows: &[Entry<K>], at: usize) -> Option<Entry<u64>>
    ensures { option_map (item_at 0) result ≡ slice_get (items K.Kind.code rows.now) at }
{
    rows.get(at).map(|row| Entry {
        place: row.place,
        dot: row.dot,
        value: row.value.to_code(),
    })
}

// The row with the dot.
pub fn find_row<K: Kind>(rows: &[Entry<K>], dot: Dot) -> Option<Entry<u64>>
    ensures { option_map (item_at 0) result ≡ find dot (items K.Kind.code rows.now) }
{
    row_at(rows, seek(rows, dot)?)
}

// Joins the value of `row` to that of the row at `at`, if both have one place. The other rows stay.
pub fn join_at<K: Kind>(rows: &mut [Entry<K>], at: usize, row: Entry<K>)
    requires { at < length rows.old }
    ensures joined { items K.Kind.code rows.new ≡ adjust (merge K.Kind.kind (item_of K.Kind.code 0 row)) at (items K.Kind.code rows.old) }
    ensures rest { drop (at + 1) rows.new ≡ drop (at + 1) rows.old }
{
    let old = rows[at];
    if old.place == row.place {
        rows[at].value = old.value.join(row.value);
    }
}
