// Each field of each record at its edges, and each byte that no field names.
use crate::damaged::check_damage;
use crate::sample::{as_parcel, sample};
use refusals::refuse;

#[test]
fn tags(rt: HostRuntime) {
    for record in 0..4 {
        check_damage(&rt, record, 0, 0, Err(refuse(21, record as u64)));
        check_damage(&rt, record, 0, 4, Err(refuse(21, record as u64)));
        check_damage(&rt, record, 0, 255, Err(refuse(21, record as u64)));
    }
}

// Every byte that a record does not name.
#[test]
fn unnamed_bytes(rt: HostRuntime) {
    const IN_ENTRY: [usize; 3] = [3, 6, 7];
    const IN_RUN: [usize; 18] = [
        1, 3, 8, 9, 10, 11, 12, 13, 14, 15, 16, 17, 18, 19, 20, 21, 22, 23,
    ];
    const IN_ORIGIN: [usize; 14] = [1, 3, 4, 5, 6, 7, 16, 17, 18, 19, 20, 21, 22, 23];
    for byte in IN_ENTRY {
        check_damage(&rt, 0, byte, 1, Err(refuse(21, 0)));
        check_damage(&rt, 1, byte, 128, Err(refuse(21, 1)));
    }
    for byte in IN_RUN {
        check_damage(&rt, 2, byte, 1, Err(refuse(21, 2)));
    }
    for byte in IN_ORIGIN {
        check_damage(&rt, 3, byte, 1, Err(refuse(21, 3)));
    }
}

#[test]
fn entry_fields(rt: HostRuntime) {
    // part 2 is the last; a line's code 7 is no mark's
    check_damage(&rt, 1, 1, 3, Err(refuse(21, 1)));
    check_damage(&rt, 1, 1, 2, Err(refuse(23, 1)));
    // replicas 1 to 16 and counters from 1; a good dot that no run has is another fault
    check_damage(&rt, 0, 2, 0, Err(refuse(21, 0)));
    check_damage(&rt, 0, 2, 17, Err(refuse(21, 0)));
    check_damage(&rt, 0, 2, 16, Err(refuse(24, 0)));
    check_damage(&rt, 0, 5, 0, Err(refuse(21, 0)));
    check_damage(&rt, 0, 4, 255, Err(refuse(24, 0)));
    // the highest key, four keys, no key at all, and a key after a 0
    check_damage(&rt, 0, 8, 255, Ok(96));
    check_damage(&rt, 0, 11, 1, Ok(96));
    check_damage(&rt, 0, 9, 0, Err(refuse(21, 0)));
    check_damage(&rt, 0, 13, 5, Err(refuse(21, 0)));
    check_damage(&rt, 0, 15, 5, Err(refuse(21, 0)));
}

#[test]
fn codes(rt: HostRuntime) {
    // 416 amps; 4,000 (0fa0) is the last and 4,001 too much, as is anything in an upper byte
    check_damage(&rt, 0, 22, 1, Ok(96));
    check_damage(&rt, 0, 22, 15, Ok(96));
    let mut records = sample();
    records[0][22] = 15;
    records[0][23] = 161;
    assert_eq!(rt; as_parcel(&records), Err(refuse(23, 0)));
    check_damage(&rt, 0, 16, 1, Err(refuse(23, 0)));
    // no phase at all, and a fourth
    check_damage(&rt, 1, 23, 0, Ok(96));
    check_damage(&rt, 1, 23, 8, Err(refuse(23, 1)));
}

#[test]
fn run_fields(rt: HostRuntime) {
    check_damage(&rt, 2, 2, 0, Err(refuse(21, 2)));
    check_damage(&rt, 2, 2, 17, Err(refuse(21, 2)));
    // 1:3–2, a counter 0, and 1:1–65,282
    check_damage(&rt, 2, 5, 3, Err(refuse(21, 2)));
    check_damage(&rt, 2, 5, 0, Err(refuse(21, 2)));
    check_damage(&rt, 2, 7, 0, Err(refuse(21, 2)));
    check_damage(&rt, 2, 6, 255, Ok(96));
}

#[test]
fn origin_fields(rt: HostRuntime) {
    check_damage(&rt, 3, 2, 0, Err(refuse(21, 3)));
    check_damage(&rt, 3, 2, 17, Err(refuse(21, 3)));
    check_damage(&rt, 3, 2, 16, Ok(96));
    // since 2, until 1; since = until is lawful; until may be as large as its bytes
    check_damage(&rt, 3, 11, 2, Err(refuse(21, 3)));
    check_damage(&rt, 3, 11, 1, Ok(96));
    check_damage(&rt, 3, 8, 1, Err(refuse(21, 3)));
    check_damage(&rt, 3, 12, 255, Ok(96));
}

// A fault of a record comes before those of the records after it, whatever their numbers.
#[test]
fn the_first_record_decides(rt: HostRuntime) {
    let mut records = sample();
    records[0][22] = 16;
    records[1][0] = 9;
    assert_eq!(rt; as_parcel(&records), Err(refuse(23, 0)));
    records[0][3] = 1;
    assert_eq!(rt; as_parcel(&records), Err(refuse(21, 0)));
}
