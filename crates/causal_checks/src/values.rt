use causal::dots::{Dot, compare_dots};
use causal::places::{Place, compare_places};
use kinds::kind::Kind;
use kinds::limit::Limit;
use kinds::lines::Lines;
use kinds::mark::Mark;
use std::cmp::Ordering;

fn place(first: u16, second: u16, third: u16, fourth: u16) -> Place {
    Place {
        first,
        second,
        third,
        fourth,
    }
}

fn dot(replica: u8, counter: u16) -> Dot {
    Dot { replica, counter }
}

#[test]
fn places(rt: HostRuntime) {
    assert_eq!(rt; place(0, 0, 0, 0).depth(), 0);
    assert_eq!(rt; place(12, 1, 0, 0).depth(), 2);
    assert_eq!(rt; place(1, 2, 3, 4).depth(), 4);
    assert!(rt; place(0, 0, 0, 0).is_well_formed());
    assert!(rt; place(12, 1, 0, 0).is_well_formed());
    assert!(rt; !place(12, 0, 1, 0).is_well_formed());
    assert!(rt; !place(0, 0, 0, 1).is_well_formed());
    assert!(rt; place(12, 1, 0, 0).lies_under(place(12, 0, 0, 0)));
    assert!(rt; place(12, 1, 0, 0).lies_under(place(12, 1, 0, 0)));
    assert!(rt; place(12, 1, 0, 0).lies_under(place(0, 0, 0, 0)));
    assert!(rt; !place(12, 1, 0, 0).lies_under(place(12, 1, 1, 0)));
    assert!(rt; !place(12, 0, 0, 0).lies_under(place(12, 1, 0, 0)));
    assert!(rt; !place(13, 1, 0, 0).lies_under(place(12, 0, 0, 0)));
}

#[test]
fn orders(rt: HostRuntime) {
    assert_eq!(rt;
        compare_places(place(12, 0, 0, 0), place(12, 1, 0, 0)),
        Ordering::Less
    );
    assert_eq!(rt;
        compare_places(place(2, 65535, 0, 0), place(3, 0, 0, 0)),
        Ordering::Less
    );
    assert_eq!(rt;
        compare_places(place(1, 2, 3, 4), place(1, 2, 3, 4)),
        Ordering::Equal
    );
    assert_eq!(rt;
        compare_places(place(1, 2, 3, 5), place(1, 2, 3, 4)),
        Ordering::Greater
    );
    assert_eq!(rt; compare_dots(dot(1, 65535), dot(2, 1)), Ordering::Less);
    assert_eq!(rt; compare_dots(dot(2, 2), dot(2, 1)), Ordering::Greater);
    assert_eq!(rt; compare_dots(dot(2, 2), dot(2, 2)), Ordering::Equal);
}

#[test]
fn dots(rt: HostRuntime) {
    assert!(rt; dot(1, 1).is_well_formed());
    assert!(rt; dot(16, 65535).is_well_formed());
    assert!(rt; !dot(0, 1).is_well_formed());
    assert!(rt; !dot(17, 1).is_well_formed());
    assert!(rt; !dot(1, 0).is_well_formed());
}

// The code of the join of two codes; none where one does not fit.
fn joined<K: Kind>(a: u64, b: u64) -> Option<u64> {
    let left = K::read(a)?;
    let right = K::read(b)?;
    Some(left.join(right).to_code())
}

#[test]
fn joins(rt: HostRuntime) {
    assert_eq!(rt; joined::<Limit>(160, 125), Some(125));
    assert_eq!(rt; joined::<Limit>(0, 4000), Some(0));
    assert_eq!(rt; joined::<Limit>(4001, 0), None);
    assert_eq!(rt; joined::<Lines>(1, 4), Some(5));
    assert_eq!(rt; joined::<Lines>(7, 2), Some(7));
    assert_eq!(rt; joined::<Lines>(0, 8), None);
    assert_eq!(rt; joined::<Mark>(0, 0), Some(0));
    assert_eq!(rt; joined::<Mark>(0, 1), None);
}
