// One byte of one record changed, and what is answered then.
use crate::sample::{as_parcel, sample};
use refusals::{Refusal, refuse};
use std::process::Abort;

// The sample with one byte of a record changed, read as a parcel, is answered so.
pub fn check_damage(
    rt: &impl Abort,
    record: usize,
    byte: usize,
    value: u8,
    expected: Result<usize, Refusal>,
) {
    assert!(rt; record < 4 && byte < 24);
    let mut records = sample();
    records[record][byte] = value;
    assert_eq!(rt; as_parcel(&records), expected);
}

#[test]
fn unchanged(rt: HostRuntime) {
    assert_eq!(rt; as_parcel(&sample()), Ok(96));
}

#[test]
fn entry_bytes(rt: HostRuntime) {
    check_damage(&rt, 0, 0, 0, Err(refuse(21, 0)));
    check_damage(&rt, 0, 0, 4, Err(refuse(21, 0)));
    check_damage(&rt, 1, 1, 3, Err(refuse(21, 1)));
    check_damage(&rt, 0, 2, 0, Err(refuse(21, 0)));
    check_damage(&rt, 0, 2, 17, Err(refuse(21, 0)));
    check_damage(&rt, 1, 3, 1, Err(refuse(21, 1)));
    check_damage(&rt, 0, 5, 0, Err(refuse(21, 0)));
    check_damage(&rt, 0, 6, 1, Err(refuse(21, 0)));
    check_damage(&rt, 0, 7, 1, Err(refuse(21, 0)));
}

#[test]
fn entry_places(rt: HostRuntime) {
    // no key at all, and a key after a 0
    check_damage(&rt, 0, 9, 0, Err(refuse(21, 0)));
    check_damage(&rt, 0, 13, 5, Err(refuse(21, 0)));
    // 4,001 amps and phase bit 3
    check_damage(&rt, 0, 22, 16, Err(refuse(23, 0)));
    check_damage(&rt, 1, 23, 8, Err(refuse(23, 1)));
}

#[test]
fn entry_order(rt: HostRuntime) {
    // the second entry in part 0 at 12.1 still follows; the first in part 2 has a code that is no mark's, which is found first
    check_damage(&rt, 1, 1, 0, Ok(96));
    check_damage(&rt, 0, 1, 2, Err(refuse(23, 0)));
    // the first at 13 in part 0 comes before part 1 all the same
    check_damage(&rt, 0, 9, 13, Ok(96));
}

#[test]
fn run_bytes(rt: HostRuntime) {
    check_damage(&rt, 2, 1, 1, Err(refuse(21, 2)));
    check_damage(&rt, 2, 2, 0, Err(refuse(21, 2)));
    check_damage(&rt, 2, 3, 1, Err(refuse(21, 2)));
    // 1:3–2, and a counter 0
    check_damage(&rt, 2, 5, 3, Err(refuse(21, 2)));
    check_damage(&rt, 2, 5, 0, Err(refuse(21, 2)));
    check_damage(&rt, 2, 8, 1, Err(refuse(21, 2)));
    check_damage(&rt, 2, 23, 1, Err(refuse(21, 2)));
}

#[test]
fn stray_dots(rt: HostRuntime) {
    // the run 1:1–1 lacks the second entry's dot, 1:2–2 the first's, and a run of replica 2 both
    check_damage(&rt, 2, 7, 1, Err(refuse(24, 1)));
    check_damage(&rt, 2, 5, 2, Err(refuse(24, 0)));
    check_damage(&rt, 2, 2, 2, Err(refuse(24, 0)));
    // the dot of the first entry again
    check_damage(&rt, 1, 5, 1, Err(refuse(24, 1)));
}

#[test]
fn origin_bytes(rt: HostRuntime) {
    check_damage(&rt, 3, 0, 5, Err(refuse(21, 3)));
    check_damage(&rt, 3, 1, 1, Err(refuse(21, 3)));
    check_damage(&rt, 3, 2, 0, Err(refuse(21, 3)));
    check_damage(&rt, 3, 4, 1, Err(refuse(21, 3)));
    // since 2, until 1; since = until is lawful
    check_damage(&rt, 3, 11, 2, Err(refuse(21, 3)));
    check_damage(&rt, 3, 11, 1, Ok(96));
    check_damage(&rt, 3, 23, 1, Err(refuse(21, 3)));
}
