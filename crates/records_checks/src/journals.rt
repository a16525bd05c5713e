// Records in and out of order, what ends a group, and the most runs.
use crate::sample::{ENTRY_LINES, ENTRY_POWER, ORIGIN, RUN, as_journal, as_parcel};
use refusals::{Refusal, refuse};
use std::process::Abort;

// A limit at a feeder, with a dot of replica 1 or another.
fn limit(feeder: u8, replica: u8, counter: u8) -> [u8; 24] {
    let mut bytes = ENTRY_POWER;
    bytes[2] = replica;
    bytes[5] = counter;
    bytes[9] = feeder;
    bytes
}

fn run(replica: u8, first: u8, last: u8) -> [u8; 24] {
    let mut bytes = RUN;
    bytes[2] = replica;
    bytes[5] = first;
    bytes[7] = last;
    bytes
}

// Two entries, a run of the first replica's counters up to 9, and the origin, as a parcel.
fn check_entries(
    rt: &impl Abort,
    first: [u8; 24],
    second: [u8; 24],
    expected: Result<usize, Refusal>,
) {
    let records = [first, second, run(1, 1, 9), ORIGIN];
    assert_eq!(rt; as_parcel(&records), expected);
}

#[test]
fn entries_in_order(rt: HostRuntime) {
    check_entries(&rt, ENTRY_POWER, ENTRY_LINES, Ok(96));
    // by part, by place, by counter; the same again
    check_entries(&rt, ENTRY_LINES, ENTRY_POWER, Err(refuse(22, 1)));
    check_entries(&rt, limit(12, 1, 1), limit(13, 1, 2), Ok(96));
    check_entries(&rt, limit(13, 1, 1), limit(12, 1, 2), Err(refuse(22, 1)));
    check_entries(&rt, limit(12, 1, 1), limit(12, 1, 2), Ok(96));
    check_entries(&rt, limit(12, 1, 2), limit(12, 1, 1), Err(refuse(22, 1)));
    check_entries(&rt, limit(12, 1, 1), limit(12, 1, 1), Err(refuse(22, 1)));
    // by replica before counter; no run has 2:1
    check_entries(&rt, limit(12, 2, 1), limit(12, 1, 9), Err(refuse(22, 1)));
    check_entries(&rt, limit(12, 1, 9), limit(12, 2, 1), Err(refuse(24, 1)));
    // one dot at two places
    check_entries(&rt, limit(12, 1, 1), limit(13, 1, 1), Err(refuse(24, 1)));
}

// Two runs and the origin, as a parcel.
fn check_runs(
    rt: &impl Abort,
    first: [u8; 24],
    second: [u8; 24],
    expected: Result<usize, Refusal>,
) {
    assert_eq!(rt; as_parcel(&[first, second, ORIGIN]), expected);
}

#[test]
fn runs_in_order(rt: HostRuntime) {
    check_runs(&rt, run(1, 1, 2), run(1, 4, 4), Ok(72));
    // they touch, overlap, are equal, the other way round
    check_runs(&rt, run(1, 1, 2), run(1, 3, 4), Err(refuse(22, 1)));
    check_runs(&rt, run(1, 1, 4), run(1, 3, 6), Err(refuse(22, 1)));
    check_runs(&rt, run(1, 1, 2), run(1, 1, 2), Err(refuse(22, 1)));
    check_runs(&rt, run(1, 4, 4), run(1, 1, 2), Err(refuse(22, 1)));
    // of two replicas
    check_runs(&rt, run(1, 1, 9), run(2, 1, 1), Ok(72));
    check_runs(&rt, run(2, 1, 1), run(1, 9, 9), Err(refuse(22, 1)));
}

#[test]
fn orders(rt: HostRuntime) {
    let exchanged = [ENTRY_LINES, ENTRY_POWER, RUN, ORIGIN];
    assert_eq!(rt; as_parcel(&exchanged), Err(refuse(22, 1)));
    let twice = [ENTRY_POWER, ENTRY_POWER, ENTRY_LINES, RUN, ORIGIN];
    assert_eq!(rt; as_parcel(&twice), Err(refuse(22, 1)));
    let late = [ENTRY_POWER, RUN, ENTRY_LINES, ORIGIN];
    assert_eq!(rt; as_parcel(&late), Err(refuse(22, 2)));
    // the run 1:1–2 again touches the one before it
    let touching = [ENTRY_POWER, ENTRY_LINES, RUN, RUN, ORIGIN];
    assert_eq!(rt; as_parcel(&touching), Err(refuse(22, 3)));
}

#[test]
fn an_entry_after_a_run(rt: HostRuntime) {
    let late = [ENTRY_POWER, RUN, ENTRY_LINES, ORIGIN];
    assert_eq!(rt; as_parcel(&late), Err(refuse(22, 2)));
    let first = [RUN, ENTRY_POWER, ORIGIN];
    assert_eq!(rt; as_parcel(&first), Err(refuse(22, 1)));
}

#[test]
fn missing_origin(rt: HostRuntime) {
    let records = [ENTRY_POWER, ENTRY_LINES, RUN, ORIGIN];
    let open = records.as_flattened();
    assert_eq!(rt; as_journal(&open[0..72]), Err(refuse(25, 3)));
    assert_eq!(rt; as_journal(&open[0..80]), Err(refuse(25, 3)));
    assert_eq!(rt; as_journal(&open[0..23]), Err(refuse(25, 0)));
    assert_eq!(rt; as_journal(&open[0..0]), Err(refuse(25, 0)));
}

#[test]
fn more_records(rt: HostRuntime) {
    let longer = [ENTRY_POWER, ENTRY_LINES, RUN, ORIGIN, ORIGIN];
    assert_eq!(rt; as_parcel(&longer), Err(refuse(26, 4)));
    assert_eq!(rt; as_journal(longer.as_flattened()), Ok(96));
    // a stray dot comes before what follows the origin
    let stray = [ENTRY_POWER, ENTRY_LINES, ORIGIN, ORIGIN];
    assert_eq!(rt; as_parcel(&stray), Err(refuse(24, 0)));
}

#[test]
fn lone_origin(rt: HostRuntime) {
    let lone = [ORIGIN];
    assert_eq!(rt; as_parcel(&lone), Ok(24));
}

#[test]
fn a_lone_origin_and_what_follows_it(rt: HostRuntime) {
    let lone = [ORIGIN];
    assert_eq!(rt; as_parcel(&lone), Ok(24));
    // what follows it in a journal, and bytes left over
    let two = [ORIGIN, ENTRY_POWER];
    assert_eq!(rt; as_journal(two.as_flattened()), Ok(24));
    assert_eq!(rt; as_journal(&two.as_flattened()[0..31]), Ok(24));
    assert_eq!(rt; as_parcel(&two), Err(refuse(26, 1)));
}

// The runs 1:1–1, 1:3–3 and so on, up to 97 of them, and an origin last.
fn lone_runs<const N: usize>() -> [[u8; 24]; N] {
    let mut records = [ORIGIN; N];
    let runs = N.saturating_sub(1).min(97);
    for (i, record) in records[..runs].iter_mut().enumerate() {
        let counter = (2 * i + 1) as u8;
        *record = run(1, counter, counter);
    }
    records
}

#[test]
fn most_runs(rt: HostRuntime) {
    assert_eq!(rt; as_parcel(&lone_runs::<97>()), Ok(2328));
    assert_eq!(rt; as_parcel(&lone_runs::<98>()), Err(refuse(22, 96)));
}

#[test]
fn the_run_past_the_most(rt: HostRuntime) {
    assert_eq!(rt; as_parcel(&lone_runs::<97>()), Ok(2328));
    assert_eq!(rt; as_parcel(&lone_runs::<98>()), Err(refuse(22, 96)));
    // the 97th is one too many also where it would touch the one before it; a byte that is no run's comes first
    let mut records = lone_runs::<98>();
    records[96][5] = 192;
    records[96][7] = 192;
    assert_eq!(rt; as_parcel(&records), Err(refuse(22, 96)));
    records[96][1] = 1;
    assert_eq!(rt; as_parcel(&records), Err(refuse(21, 96)));
}
