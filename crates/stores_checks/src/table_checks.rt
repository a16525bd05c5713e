// A table of each kind.
use crate::steps::{Step, used_row, walk};
use causal::dots::Dot;
use causal::places::Place;
use kinds::kind::Kind;
use kinds::limit::Limit;
use kinds::lines::Lines;
use kinds::mark::Mark;
use std::test::Fail;
use stores::entries::Entry;
use stores::part_entries::entries_of;
use tables::table::Table;

// How many of these steps go as they should, in a fresh table of these rows.
fn walk_table<K: Kind>(rows: &mut [Entry<K>], steps: &[Step]) -> usize {
    let mut table = Table::new(rows);
    walk(&mut table, steps)
}

#[test]
fn a_fresh_table_is_empty(rt: HostRuntime) -> Result<(), Fail> {
    let limit = Limit::read(7).ok_or("a code that fits")?;
    let mut rows = [used_row(limit); 3];
    const STEPS: [Step; 7] = [
        Step::Parts(1),
        Step::Capacity(0, 3),
        Step::Capacity(1, 0),
        Step::Count(0, 0),
        Step::Count(1, 0),
        Step::NoneAt(0, 0),
        Step::All(0),
    ];
    assert_eq!(rt; walk_table(&mut rows, &STEPS), 7);
    Ok(())
}

#[test]
fn limits_stand_in_order_and_the_smaller_is_kept(rt: HostRuntime) -> Result<(), Fail> {
    let limit = Limit::read(7).ok_or("a code that fits")?;
    let mut rows = [used_row(limit); 4];
    const STEPS: [Step; 13] = [
        Step::Put(0, 12, 2, 160),
        Step::Put(0, 5, 3, 4000),
        Step::At(0, 0, 5, 3, 4000),
        Step::At(0, 1, 12, 2, 160),
        Step::NoneAt(0, 2),
        Step::Put(0, 12, 2, 200),
        Step::Found(2, 0, 160),
        Step::Put(0, 12, 2, 100),
        Step::Found(2, 0, 100),
        Step::Count(0, 2),
        // One dot, elsewhere: it stays.
        Step::Put(0, 13, 2, 50),
        Step::At(0, 1, 12, 2, 100),
        Step::Count(0, 2),
    ];
    assert_eq!(rt; walk_table(&mut rows, &STEPS), 13);
    Ok(())
}

#[test]
fn equal_places_go_by_dots(rt: HostRuntime) -> Result<(), Fail> {
    let limit = Limit::read(7).ok_or("a code that fits")?;
    let mut rows = [used_row(limit); 4];
    const PLACE: Place = Place {
        first: 12,
        second: 0,
        third: 0,
        fourth: 0,
    };
    const OTHER: Dot = Dot {
        replica: 2,
        counter: 1,
    };
    const STEPS: [Step; 8] = [
        Step::Put(0, 12, 3, 30),
        Step::Put(0, 12, 1, 10),
        Step::PutEntry(
            0,
            Entry {
                place: PLACE,
                dot: OTHER,
                value: 20,
            },
        ),
        Step::Put(0, 12, 2, 15),
        Step::At(0, 0, 12, 1, 10),
        Step::At(0, 1, 12, 2, 15),
        Step::At(0, 2, 12, 3, 30),
        Step::At(0, 3, 12, 1, 20),
    ];
    assert_eq!(rt; walk_table(&mut rows, &STEPS), 8);
    Ok(())
}

#[test]
fn addresses_are_judged_before_codes(rt: HostRuntime) -> Result<(), Fail> {
    let limit = Limit::read(7).ok_or("a code that fits")?;
    let mut rows = [used_row(limit); 2];
    const PLACE: Place = Place {
        first: 1,
        second: 0,
        third: 0,
        fourth: 0,
    };
    const GAP: Place = Place {
        first: 0,
        second: 1,
        third: 0,
        fourth: 0,
    };
    const DOT: Dot = Dot {
        replica: 1,
        counter: 1,
    };
    const NOBODY: Dot = Dot {
        replica: 0,
        counter: 1,
    };
    const STRANGER: Dot = Dot {
        replica: 17,
        counter: 1,
    };
    const STEPS: [Step; 8] = [
        Step::Refused(1, 1, 1, 4001, 35, 0),
        Step::Refused(0, 0, 1, 4001, 35, 0),
        Step::Refused(0, 1, 0, 1, 35, 0),
        Step::RefusedEntry(
            0,
            Entry {
                place: GAP,
                dot: DOT,
                value: 1,
            },
            35,
        ),
        Step::RefusedEntry(
            0,
            Entry {
                place: PLACE,
                dot: NOBODY,
                value: 1,
            },
            35,
        ),
        Step::RefusedEntry(
            0,
            Entry {
                place: PLACE,
                dot: STRANGER,
                value: 4001,
            },
            35,
        ),
        Step::Refused(0, 1, 1, 4001, 23, 0),
        Step::Count(0, 0),
    ];
    assert_eq!(rt; walk_table(&mut rows, &STEPS), 8);
    Ok(())
}

#[test]
fn a_full_table_still_joins(rt: HostRuntime) -> Result<(), Fail> {
    let limit = Limit::read(7).ok_or("a code that fits")?;
    let mut rows = [used_row(limit); 1];
    const STEPS: [Step; 11] = [
        Step::Put(0, 1, 1, 160),
        Step::Refused(0, 1, 2, 10, 33, 0),
        Step::Refused(0, 1, 2, 4001, 23, 0),
        Step::Refused(0, 0, 2, 10, 35, 0),
        Step::Put(0, 1, 1, 90),
        Step::Put(0, 2, 1, 80),
        Step::Found(1, 0, 90),
        Step::Strike(1),
        Step::Count(0, 0),
        Step::Put(0, 1, 2, 10),
        Step::Found(2, 0, 10),
    ];
    assert_eq!(rt; walk_table(&mut rows, &STEPS), 11);
    Ok(())
}

#[test]
fn a_table_of_no_rows_takes_nothing(rt: HostRuntime) -> Result<(), Fail> {
    let limit = Limit::read(7).ok_or("a code that fits")?;
    let mut rows = [used_row(limit); 0];
    const STEPS: [Step; 4] = [
        Step::Capacity(0, 0),
        Step::Refused(0, 1, 1, 160, 33, 0),
        Step::Refused(0, 1, 1, 4001, 23, 0),
        Step::Count(0, 0),
    ];
    assert_eq!(rt; walk_table(&mut rows, &STEPS), 4);
    Ok(())
}

#[test]
fn strikes_take_one_dot_out(rt: HostRuntime) -> Result<(), Fail> {
    let limit = Limit::read(7).ok_or("a code that fits")?;
    let mut rows = [used_row(limit); 3];
    const STEPS: [Step; 13] = [
        Step::Put(0, 1, 1, 10),
        Step::Put(0, 2, 2, 20),
        Step::Put(0, 3, 3, 30),
        Step::Strike(4),
        Step::Count(0, 3),
        Step::Strike(2),
        Step::At(0, 0, 1, 1, 10),
        Step::At(0, 1, 3, 3, 30),
        Step::NoneAt(0, 2),
        Step::Absent(2),
        Step::Clear,
        Step::Count(0, 0),
        Step::Absent(1),
    ];
    assert_eq!(rt; walk_table(&mut rows, &STEPS), 13);
    Ok(())
}

#[test]
fn rows_past_the_entries_stay(rt: HostRuntime) -> Result<(), Fail> {
    let limit = Limit::read(7).ok_or("a code that fits")?;
    let mut rows = [used_row(limit); 3];
    const STEPS: [Step; 1] = [Step::Put(0, 1, 1, 10)];
    assert_eq!(rt; walk_table(&mut rows, &STEPS), 1);
    let counters = [
        rows[0].dot.counter,
        rows[1].dot.counter,
        rows[2].dot.counter,
    ];
    assert_eq!(rt; counters, [1, 9, 9]);
    Ok(())
}

#[test]
fn lines_join_to_all_that_either_has(rt: HostRuntime) -> Result<(), Fail> {
    let lines = Lines::read(7).ok_or("a code that fits")?;
    let mut rows = [used_row(lines); 2];
    const STEPS: [Step; 7] = [
        Step::Put(0, 1, 1, 1),
        Step::Put(0, 1, 1, 4),
        Step::Found(1, 0, 5),
        Step::Refused(0, 1, 1, 8, 23, 0),
        Step::Fits(0, 7),
        Step::Unfit(0, 8),
        Step::Unfit(1, 7),
    ];
    assert_eq!(rt; walk_table(&mut rows, &STEPS), 7);
    Ok(())
}

#[test]
fn marks_have_the_code_0_alone(rt: HostRuntime) -> Result<(), Fail> {
    let mark = Mark::read(0).ok_or("a code that fits")?;
    let mut rows = [used_row(mark); 2];
    const STEPS: [Step; 5] = [
        Step::Put(0, 1, 1, 0),
        Step::Put(0, 1, 1, 0),
        Step::Count(0, 1),
        Step::Found(1, 0, 0),
        Step::Refused(0, 1, 2, 1, 23, 0),
    ];
    assert_eq!(rt; walk_table(&mut rows, &STEPS), 5);
    Ok(())
}

#[test]
fn entries_come_in_order(rt: HostRuntime) -> Result<(), Fail> {
    let limit = Limit::read(7).ok_or("a code that fits")?;
    let mut rows = [used_row(limit); 3];
    let mut table = Table::new(&mut rows);
    const PUTS: [Step; 2] = [Step::Put(0, 12, 2, 160), Step::Put(0, 5, 3, 4000)];
    assert_eq!(rt; walk(&mut table, &PUTS), 2);
    let mut codes = entries_of(&table, 0).map(|entry| entry.value);
    assert_eq!(rt; codes.next(), Some(4000));
    assert_eq!(rt; codes.next(), Some(160));
    assert_eq!(rt; codes.next(), None);
    Ok(())
}

#[test]
fn walks_count_a_table(rt: HostRuntime) -> Result<(), Fail> {
    let limit = Limit::read(7).ok_or("a code that fits")?;
    let mut rows = [used_row(limit); 3];
    const SOCKET: Place = Place {
        first: 2,
        second: 1,
        third: 0,
        fourth: 0,
    };
    const DOT: Dot = Dot {
        replica: 1,
        counter: 3,
    };
    const STEPS: [Step; 8] = [
        Step::Put(0, 1, 1, 10),
        Step::Put(0, 2, 2, 20),
        Step::PutEntry(
            0,
            Entry {
                place: SOCKET,
                dot: DOT,
                value: 30,
            },
        ),
        Step::All(3),
        Step::Under(0, 2, 2),
        Step::Under(0, 0, 3),
        Step::Under(0, 3, 0),
        Step::Under(1, 2, 0),
    ];
    assert_eq!(rt; walk_table(&mut rows, &STEPS), 8);
    Ok(())
}
