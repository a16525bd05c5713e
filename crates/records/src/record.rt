// What a record says, and its 24 bytes.
ghost use Rattle.std.specs.Prelude.{◌≡◌};
ghost use Rattle.std.specs.Result.{result_ok};
ghost use Rattle.stores.specs.Items.{item_at, precedes};
ghost use Rattle.records.specs.Records.{is_origin, is_entry_record, is_run_record, is_origin_record, entry_in, run_in, origin_in, record_of, fields_for, decoded, encoded};

use crate::fields::Fields;
use causal::dots::{Dot, is_replica_number};
use causal::places::Place;
use causal::runs::Run;
use stores::address::is_entry_address;
use stores::entries::Entry;

// Whose steps a group covers: those after `since`, up to `until`.
#[derive(Clone, Copy, Debug, PartialEq, Eq)]
pub struct Origin {
    pub sender: u8,
    pub since: u32,
    pub until: u32,
}

// An entry with its part; its value is a code.
#[derive(Clone, Copy, Debug, PartialEq, Eq)]
pub struct PartEntry {
    pub part: u8,
    pub entry: Entry<u64>,
}

// What a group is, once it has been read: whose steps, how many entries and runs, and how many bytes.
#[derive(Clone, Copy, Debug, PartialEq, Eq)]
pub struct GroupSummary {
    pub origin: Origin,
    pub entries: usize,
    pub runs: usize,
    pub length: usize,
}

#[derive(Clone, Copy, Debug, PartialEq, Eq)]
pub enum Record {
    Entry(PartEntry),
    Run(Run),
    Origin(Origin),
}

// The first byte of each record.
#[derive(Clone, Copy)]
enum Tag {
    Entry = 1,
    Run = 2,
    Origin = 3,
}

// A byte or a field is not as it should be in a record.
#[derive(Clone, Copy, Debug, PartialEq, Eq)]
pub struct NotARecord;

impl PartEntry {
    // Whether this entry stands before the other: by part, then by place, then by dot.
    #[tactic(auto, unfolding(causal::specs::Dots::dot_less, causal::specs::Places::place_less, causal::specs::Places::same_place))]
    pub fn precedes(self, other: PartEntry) -> bool
        ensures { result ≡ precedes (item_at self.part self.entry) (item_at other.part other.entry) }
    {
        let (one, two) = (self.entry, other.entry);
        (self.part, one.place, one.dot) < (other.part, two.place, two.dot)
    }
}

impl Origin {
    pub fn is_well_formed(self) -> bool
        ensures { result ≡ is_origin self }
    {
        is_replica_number(self.sender) && self.since <= self.until
    }
}

// The record in 24 bytes.
impl TryFrom<[u8; 24]> for Record {
    type Error = NotARecord;

    ghost try_from_gives = { λ bytes r. result_ok r ≡ decoded bytes };

    fn try_from(bytes: [u8; 24]) -> Result<Record, NotARecord> {
        Record::try_from(Fields::from(bytes))
    }
}

// The 24 bytes of a record.
impl From<Record> for [u8; 24] {
    ghost from_gives = { λ item bytes. bytes ≡ encoded item };

    fn from(item: Record) -> [u8; 24] {
        Fields::from(item).into()
    }
}

// The record of these fields.
// Stays without a match on the tag: it is one of the fields that a record asks for, beside those that it asks to be 0.
impl TryFrom<Fields> for Record {
    type Error = NotARecord;

    ghost try_from_gives = { λ f r. result_ok r ≡ record_of f };

    fn try_from(f: Fields) -> Result<Record, NotARecord> {
        if is_entry_record(f) {
            Ok(Record::Entry(entry_in(f)))
        } else if is_run_record(f) {
            Ok(Record::Run(run_in(f)))
        } else if is_origin_record(f) {
            Ok(Record::Origin(origin_in(f)))
        } else {
            Err(NotARecord)
        }
    }
}

#[tactic(auto, unfolding(crate::specs::Records::is_entry_record))]
fn is_entry_record(f: Fields) -> bool
    ensures { result ≡ is_entry_record f }
{
    let entry = entry_in(f).entry;
    f.tag == Tag::Entry as u8
        && f.spare == 0
        && f.high == 0
        && is_entry_address(entry.place, entry.dot)
}

#[tactic(auto, unfolding(crate::specs::Records::is_run_record))]
fn is_run_record(f: Fields) -> bool
    ensures { result ≡ is_run_record f }
{
    f.tag == Tag::Run as u8
        && f.part == 0
        && f.spare == 0
        && f.place == Place::default()
        && f.code == 0
        && run_in(f).is_well_formed()
}

#[tactic(auto, unfolding(crate::specs::Records::is_origin_record))]
fn is_origin_record(f: Fields) -> bool
    ensures { result ≡ is_origin_record f }
{
    f.tag == Tag::Origin as u8
        && f.part == 0
        && f.spare == 0
        && f.low == 0
        && f.high == 0
        && f.code == 0
        && origin_in(f).is_well_formed()
}

fn entry_in(f: Fields) -> PartEntry
    ensures { result ≡ entry_in f }
{
    let dot = Dot {
        replica: f.replica,
        counter: f.low,
    };
    let entry = Entry {
        place: f.place,
        dot,
        value: f.code,
    };
    PartEntry {
        part: f.part,
        entry,
    }
}

fn run_in(f: Fields) -> Run
    ensures { result ≡ run_in f }
{
    Run {
        replica: f.replica,
        first: f.low,
        last: f.high,
    }
}

// Both numbers have four bytes each, where an entry has its keys: two keys are the upper and the lower half of one number.
// Stays arithmetic, here and where an origin's fields are made: the halves of a number are its quotient and remainder by 65536.
fn origin_in(f: Fields) -> Origin
    ensures { result ≡ origin_in f }
{
    let since = u32::from(f.place.first) * 65536 + u32::from(f.place.second);
    let until = u32::from(f.place.third) * 65536 + u32::from(f.place.fourth);
    Origin {
        sender: f.replica,
        since,
        until,
    }
}

// The fields of a record.
impl From<Record> for Fields {
    ghost from_gives = { λ item f. f ≡ fields_for item };

    fn from(item: Record) -> Fields {
        match item {
            Record::Entry(e) => Fields {
                tag: Tag::Entry as u8,
                part: e.part,
                replica: e.entry.dot.replica,
                spare: 0,
                low: e.entry.dot.counter,
                high: 0,
                place: e.entry.place,
                code: e.entry.value,
            },
            Record::Run(r) => Fields {
                tag: Tag::Run as u8,
                part: 0,
                replica: r.replica,
                spare: 0,
                low: r.first,
                high: r.last,
                place: Place::default(),
                code: 0,
            },
            Record::Origin(o) => Fields {
                tag: Tag::Origin as u8,
                part: 0,
                replica: o.sender,
                spare: 0,
                low: 0,
                high: 0,
                place: Place {
                    first: (o.since / 65536) as u16,
                    second: (o.since % 65536) as u16,
                    third: (o.until / 65536) as u16,
                    fourth: (o.until % 65536) as u16,
                },
                code: 0,
            },
        }
    }
}
