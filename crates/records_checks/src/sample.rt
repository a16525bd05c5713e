// The group of 96 bytes: 160 at 12 and 7 at 12.1 under the dots 1:1 and 1:2, run 1:1–2, origin (1, 0, 1).
use reading::faults::GroupFault;
use reading::reader::group::{read_first_group, read_parcel};
use records::record::GroupSummary;
use refusals::Refusal;
use site_books::site_book::SiteBook;

pub const ENTRY_POWER: [u8; 24] = [
    1, 0, 1, 0, 0, 1, 0, 0, 0, 12, 0, 0, 0, 0, 0, 0, 0, 0, 0, 0, 0, 0, 0, 160,
];

pub const ENTRY_LINES: [u8; 24] = [
    1, 1, 1, 0, 0, 2, 0, 0, 0, 12, 0, 1, 0, 0, 0, 0, 0, 0, 0, 0, 0, 0, 0, 7,
];

pub const RUN: [u8; 24] = [
    2, 0, 1, 0, 0, 1, 0, 2, 0, 0, 0, 0, 0, 0, 0, 0, 0, 0, 0, 0, 0, 0, 0, 0,
];

pub const ORIGIN: [u8; 24] = [
    3, 0, 1, 0, 0, 0, 0, 0, 0, 0, 0, 0, 0, 0, 0, 1, 0, 0, 0, 0, 0, 0, 0, 0,
];

pub fn sample() -> [[u8; 24]; 4] {
    [ENTRY_POWER, ENTRY_LINES, RUN, ORIGIN]
}

// The length of the group that these records are, end to end, or the refusal.
pub fn as_parcel(records: &[[u8; 24]]) -> Result<usize, Refusal> {
    said(read_parcel::<SiteBook<'static>>(records.as_flattened()))
}

// The length of the first group in these bytes, or the refusal.
pub fn as_journal(bytes: &[u8]) -> Result<usize, Refusal> {
    said(read_first_group::<SiteBook<'static>>(bytes))
}

fn said(answer: Result<GroupSummary, GroupFault>) -> Result<usize, Refusal> {
    Ok(answer?.length)
}
