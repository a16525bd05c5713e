// Pairs of pairs.
use crate::steps::{Step, used_row, walk};
use kinds::kind::Kind;
use kinds::limit::Limit;
use kinds::mark::Mark;
use pairs::pair::Pair;
use std::test::Fail;
use stores::entries::Entry;
use tables::table::Table;

type Marks<'a> = Table<'a, Mark>;

type FiveMarks<'a> = Pair<Pair<Marks<'a>, Marks<'a>>, Pair<Pair<Marks<'a>, Marks<'a>>, Marks<'a>>>;

// Five parts of marks.
fn five<'a>(
    a: &'a mut [Entry<Mark>],
    b: &'a mut [Entry<Mark>],
    c: &'a mut [Entry<Mark>],
    d: &'a mut [Entry<Mark>],
    e: &'a mut [Entry<Mark>],
) -> FiveMarks<'a> {
    let low = Pair::new(Table::new(a), Table::new(b));
    let middle = Pair::new(Table::new(c), Table::new(d));
    Pair::new(low, Pair::new(middle, Table::new(e)))
}

// How many of these steps go as they should, in two times five parts of one mark each.
fn walk_ten(none: Entry<Mark>, steps: &[Step]) -> usize {
    let mut a = [none; 1];
    let mut b = [none; 1];
    let mut c = [none; 1];
    let mut d = [none; 1];
    let mut e = [none; 1];
    let mut f = [none; 1];
    let mut g = [none; 1];
    let mut h = [none; 1];
    let mut i = [none; 1];
    let mut j = [none; 1];
    let low = five(&mut a, &mut b, &mut c, &mut d, &mut e);
    let high = five(&mut f, &mut g, &mut h, &mut i, &mut j);
    let mut ten = Pair::new(low, high);
    walk(&mut ten, steps)
}

#[test]
fn parts_past_the_eighth_are_not_there(rt: HostRuntime) -> Result<(), Fail> {
    let mark = <Mark as Kind>::read(0).ok_or("a code that fits")?;
    const STEPS: [Step; 16] = [
        Step::Parts(8),
        Step::Capacity(7, 1),
        Step::Capacity(8, 0),
        Step::Fits(7, 0),
        Step::Unfit(8, 0),
        Step::Put(7, 1, 1, 0),
        Step::Put(5, 1, 2, 0),
        Step::Put(0, 1, 3, 0),
        Step::Refused(8, 1, 4, 0, 35, 0),
        Step::Refused(9, 1, 4, 0, 35, 0),
        Step::Refused(7, 2, 4, 0, 33, 7),
        Step::Found(1, 7, 0),
        Step::Found(2, 5, 0),
        Step::Found(3, 0, 0),
        Step::Count(8, 0),
        Step::All(3),
    ];
    assert_eq!(rt; walk_ten(used_row(mark), &STEPS), 16);
    Ok(())
}

#[test]
fn a_pair_begins_empty(rt: HostRuntime) -> Result<(), Fail> {
    let limit = Limit::read(7).ok_or("a code that fits")?;
    let mark = <Mark as Kind>::read(0).ok_or("a code that fits")?;
    let mut first = [used_row(limit); 2];
    let mut second = [used_row(mark); 2];
    let mut limits = Table::new(&mut first);
    const PUTS: [Step; 2] = [Step::Put(0, 1, 1, 160), Step::Count(0, 1)];
    assert_eq!(rt; walk(&mut limits, &PUTS), 2);
    let mut pair = Pair::new(limits, Table::new(&mut second));
    const STEPS: [Step; 9] = [
        Step::All(0),
        Step::Absent(1),
        Step::Capacity(0, 2),
        Step::Put(1, 1, 1, 0),
        Step::Put(0, 1, 1, 160),
        Step::Found(1, 1, 0),
        Step::Clear,
        Step::Put(0, 1, 1, 160),
        Step::Found(1, 0, 160),
    ];
    assert_eq!(rt; walk(&mut pair, &STEPS), 9);
    Ok(())
}
