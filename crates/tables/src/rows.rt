// Searching and shifting rows of entries.
ghost use Rattle.std.specs.Prelude.{◌≡◌, ◌+◌, ◌-◌, ◌<◌, ◌≤◌, length, take, drop};
ghost use Rattle.std.specs.List.{insert, remove};
ghost use Rattle.tables.specs.Rows.{lead, Falls, ahead, first_at};

use causal::dots::Dot;
use causal::places::Place;
use stores::entries::Entry;
use stores::order::stands_before;

// How many rows stand before the place and the dot, by halving: the rows should be in order. Takes these two, and no row: by them alone rows
// stand in order.
pub fn position<K: Copy>(rows: &[Entry<K>], place: Place, dot: Dot) -> usize
    ensures within { result ≤ length rows.now }
    ensures rank { Falls (ahead place dot) rows.now → result ≡ lead (ahead place dot) rows.now }
{
    rows.partition_point(|row| stands_before(row.place, row.dot, place, dot))
}

// The index of the first row with the dot.
pub fn seek<K: Copy>(rows: &[Entry<K>], dot: Dot) -> Option<usize>
    ensures { result ≡ first_at dot rows.now }
{
    rows.iter().position(|row| row.dot == dot)
}

// Puts a row in at `at` among the first `len`; the rows past those stay.
// Takes the count beside the rows, since the row past those in use is written, too, and those past it stay.
pub fn insert_at<K: Copy>(rows: &mut [Entry<K>], len: usize, at: usize, row: Entry<K>)
    requires within { at ≤ len }
    requires room { len < length rows.old }
    ensures used { take (len + 1) rows.new ≡ insert (take len rows.old) at row }
    ensures rest { drop (len + 1) rows.new ≡ drop (len + 1) rows.old }
{
    rows.copy_within(at..len, at + 1);
    rows[at] = row;
}

// Takes the row at `at` out of the first `len`; the rows past those left stay. Takes the count beside them, as `insert_at` does.
pub fn remove_at<K: Copy>(rows: &mut [Entry<K>], len: usize, at: usize)
    requires within { at < len }
    requires room { len ≤ length rows.old }
    ensures used { take (len - 1) rows.new ≡ remove (take len rows.old) at }
    ensures rest { drop (len - 1) rows.new ≡ drop (len - 1) rows.old }
{
    rows.copy_within(at + 1..len, at);
}
