// The three-part book.
use crate::steps::{Step, used_row, walk};
use kinds::kind::Kind;
use kinds::limit::Limit;
use kinds::lines::Lines;
use kinds::mark::Mark;
use site_books::site_book::new_site_book;
use std::test::Fail;
use stores::walks::copy_part;
use tables::table::Table;

// How many of these steps go as they should, in a book with room for two limits, one set of lines and no mark.
fn walk_book(steps: &[Step]) -> Result<usize, Fail> {
    let limit = Limit::read(7).ok_or("a code that fits")?;
    let lines = Lines::read(7).ok_or("a code that fits")?;
    let mark = Mark::read(0).ok_or("a code that fits")?;
    let mut limits = [used_row(limit); 2];
    let mut sockets = [used_row(lines); 1];
    let mut marks = [used_row(mark); 0];
    let mut book = new_site_book(&mut limits, &mut sockets, &mut marks);
    Ok(walk(&mut book, steps))
}

#[test]
fn a_book_has_three_parts(rt: HostRuntime) -> Result<(), Fail> {
    const STEPS: [Step; 13] = [
        Step::Parts(3),
        Step::Capacity(0, 2),
        Step::Capacity(1, 1),
        Step::Capacity(2, 0),
        Step::Capacity(3, 0),
        Step::Fits(0, 4000),
        Step::Unfit(0, 4001),
        Step::Fits(1, 7),
        Step::Unfit(1, 8),
        Step::Fits(2, 0),
        Step::Unfit(2, 1),
        Step::Unfit(3, 0),
        Step::All(0),
    ];
    assert_eq!(rt; walk_book(&STEPS)?, 13);
    Ok(())
}

#[test]
fn each_part_keeps_its_own(rt: HostRuntime) -> Result<(), Fail> {
    const STEPS: [Step; 17] = [
        Step::Put(0, 2, 1, 160),
        Step::Put(1, 1, 2, 5),
        Step::Put(0, 1, 3, 90),
        Step::At(0, 0, 1, 3, 90),
        Step::At(0, 1, 2, 1, 160),
        Step::At(1, 0, 1, 2, 5),
        Step::NoneAt(3, 0),
        Step::Found(1, 0, 160),
        Step::Found(2, 1, 5),
        Step::Absent(4),
        Step::Under(0, 1, 1),
        Step::Under(1, 1, 1),
        Step::Strike(2),
        Step::Count(0, 2),
        Step::Count(1, 0),
        Step::Count(3, 0),
        Step::All(2),
    ];
    assert_eq!(rt; walk_book(&STEPS)?, 17);
    Ok(())
}

#[test]
fn a_full_part_is_named(rt: HostRuntime) -> Result<(), Fail> {
    const STEPS: [Step; 11] = [
        Step::Put(0, 1, 1, 160),
        Step::Put(0, 2, 2, 160),
        Step::Put(1, 1, 3, 5),
        Step::Refused(0, 2, 4, 7, 33, 0),
        Step::Refused(1, 2, 4, 7, 33, 1),
        Step::Refused(2, 2, 4, 0, 33, 2),
        Step::Refused(1, 2, 4, 8, 23, 0),
        Step::Refused(2, 0, 4, 1, 35, 0),
        Step::Refused(3, 2, 4, 8, 35, 0),
        Step::Put(1, 1, 3, 2),
        Step::Found(3, 1, 7),
    ];
    assert_eq!(rt; walk_book(&STEPS)?, 11);
    Ok(())
}

#[test]
fn a_dot_of_another_part_stays(rt: HostRuntime) -> Result<(), Fail> {
    const STEPS: [Step; 12] = [
        Step::Put(0, 1, 1, 5),
        Step::Put(1, 1, 1, 5),
        Step::Put(2, 1, 1, 0),
        Step::Found(1, 0, 5),
        Step::All(1),
        Step::Refused(1, 1, 1, 8, 23, 0),
        Step::Refused(2, 0, 1, 0, 35, 0),
        Step::Put(1, 1, 2, 3),
        Step::Put(0, 1, 2, 3),
        Step::Found(2, 1, 3),
        Step::Clear,
        Step::All(0),
    ];
    assert_eq!(rt; walk_book(&STEPS)?, 12);
    Ok(())
}

#[test]
fn a_part_is_copied_into_a_table(rt: HostRuntime) -> Result<(), Fail> {
    let limit = Limit::read(7).ok_or("a code that fits")?;
    let lines = Lines::read(7).ok_or("a code that fits")?;
    let mark = Mark::read(0).ok_or("a code that fits")?;
    let mut limits = [used_row(limit); 3];
    let mut sockets = [used_row(lines); 1];
    let mut marks = [used_row(mark); 1];
    let mut book = new_site_book(&mut limits, &mut sockets, &mut marks);
    const PUTS: [Step; 3] = [
        Step::Put(0, 2, 1, 160),
        Step::Put(0, 1, 2, 90),
        Step::Put(0, 3, 3, 20),
    ];
    assert_eq!(rt; walk(&mut book, &PUTS), 3);
    let mut rows = [used_row(limit); 2];
    let mut table = Table::new(&mut rows);
    copy_part(&mut table, &book, 0);
    // The third has no room.
    const COPIED: [Step; 3] = [
        Step::All(2),
        Step::At(0, 0, 1, 2, 90),
        Step::At(0, 1, 2, 1, 160),
    ];
    assert_eq!(rt; walk(&mut table, &COPIED), 3);
    copy_part(&mut book, &table, 0);
    const SAME: [Step; 2] = [Step::All(3), Step::Found(3, 0, 20)];
    assert_eq!(rt; walk(&mut book, &SAME), 2);
    Ok(())
}
