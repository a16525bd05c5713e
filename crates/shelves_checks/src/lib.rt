// Examples of shelves, worked out by hand from their rules: lists of calls with the answers that each must give.
#![tactic(auto)]

use refusals::Refusal;
use shelves::fault::ShelfFault;
use shelves::shelf::Shelf;

// One call and what must come of it, as data, so that one list serves a ring and slots and the first wrong step has an index. A parcel has bytes that count up from its first one.
#[derive(Clone, Copy)]
pub enum Step {
    // Append a parcel of so many bytes, the first of which is given.
    Append(usize, u8, Result<(), Refusal>),
    // Append so many parcels of one record, all accepted.
    Fill(usize, u8),
    // Remove the parcel at a position.
    Remove(usize, Result<(), Refusal>),
    // Copy the parcel at a position into so many bytes of memory.
    Copy(usize, usize, Result<usize, Refusal>),
    // At a position stands a parcel of so many bytes, the first of which is given.
    Holds(usize, usize, u8),
    // The record of a parcel at an index begins with this byte, and counts up from it.
    Record(usize, usize, u8),
    // There is no such record, so that 24 bytes 0 are read.
    NoRecord(usize, usize),
    // So many parcels are held.
    Count(usize),
    // The most parcels, the most records in one, and the most records in all.
    Numbers(usize, usize, usize),
}

// An answer that refuses: shelves are layer 1.
pub fn refused<T>(number: u8, place: u64) -> Result<T, Refusal> {
    Err(Refusal {
        number,
        layer: 1,
        place,
    })
}

// What a caller is told of a fault.
pub fn told(fault: ShelfFault) -> Refusal {
    Refusal::from(fault)
}

// Writes bytes that count up from `first`.
pub fn count_up(bytes: &mut [u8], first: u8) {
    let mut next = first;
    for b in bytes.iter_mut() {
        *b = next;
        next = next.wrapping_add(1);
    }
}

// Whether the bytes count up from `first`.
pub fn counts_up(bytes: &[u8], first: u8) -> bool {
    let mut next = first;
    for b in bytes {
        if *b != next {
            return false;
        }
        next = next.wrapping_add(1);
    }
    true
}

// Whether each byte is `b`.
pub fn all_are(bytes: &[u8], b: u8) -> bool {
    bytes.iter().all(|x| *x == b)
}

// What a shelf answers to a parcel of so many bytes; nothing where an example asks for more than 240.
pub fn append_told<S: Shelf>(
    shelf: &mut S,
    length: usize,
    first: u8,
) -> Option<Result<(), Refusal>> {
    let mut parcel = [0; 240];
    count_up(&mut parcel, first);
    if length > 240 {
        return None;
    }
    Some(shelf.append(&parcel[..length]).map_err(told))
}

// What it answers to the removal of a parcel.
pub fn remove_told<S: Shelf>(shelf: &mut S, position: usize) -> Result<(), Refusal> {
    shelf.remove(position).map_err(told)
}

// What a shelf answers to a copy into so many bytes; nothing where an example asks for more than 240.
pub fn copy_told<S: Shelf>(
    shelf: &S,
    position: usize,
    size: usize,
) -> Option<Result<usize, Refusal>> {
    let mut memory = [0; 240];
    if size > 240 {
        return None;
    }
    Some(shelf.copy(position, &mut memory[..size]).map_err(told))
}

// Whether a parcel of so many bytes stands at the position, the rest of the memory being left as it was.
pub fn holds<S: Shelf>(shelf: &S, position: usize, length: usize, first: u8) -> bool {
    let mut memory = [255; 240];
    let answer = shelf.copy(position, &mut memory);
    if length > 240 || shelf.length_at(position) != length {
        return false;
    }
    answer == Ok(length) && counts_up(&memory[..length], first) && all_are(&memory[length..], 255)
}

// Whether so many parcels of one record are all accepted.
pub fn fills<S: Shelf>(shelf: &mut S, count: usize, first: u8) -> bool {
    (0..count).all(|_| append_told(shelf, 24, first) == Some(Ok(())))
}

// Whether the call gives what it must.
pub fn step_holds<S: Shelf>(shelf: &mut S, step: Step) -> bool {
    match step {
        Step::Append(length, first, told) => append_told(shelf, length, first) == Some(told),
        Step::Fill(count, first) => fills(shelf, count, first),
        Step::Remove(position, told) => remove_told(shelf, position) == told,
        Step::Copy(position, size, told) => copy_told(shelf, position, size) == Some(told),
        Step::Holds(position, length, first) => holds(shelf, position, length, first),
        Step::Record(position, index, first) => counts_up(&shelf.record_at(position, index), first),
        Step::NoRecord(position, index) => all_are(&shelf.record_at(position, index), 0),
        Step::Count(count) => shelf.count() == count,
        Step::Numbers(most, longest, room) => shelf.most_parcels() == most
            && shelf.longest_parcel() == longest
            && shelf.room() == room,
    }
}

// The index of the first step that does not give what it must, or the number of steps.
pub fn first_wrong<S: Shelf>(shelf: &mut S, steps: &[Step]) -> usize {
    steps
        .iter()
        .position(|step| !step_holds(shelf, *step))
        .unwrap_or(steps.len())
}

// What must come of calls on a shelf with room for one record, of so many parcels at most.
pub fn one_record(most: usize) -> [Step; 9] {
    [
        Step::Numbers(most, 1, 1),
        Step::Count(0),
        Step::Append(24, 1, Ok(())),
        Step::Append(24, 2, refused(13, 1)),
        Step::Holds(0, 24, 1),
        Step::Remove(0, Ok(())),
        Step::Append(24, 30, Ok(())),
        Step::Holds(0, 24, 30),
        Step::Count(1),
    ]
}

#[cfg(test)]
mod ring_tests {
    use super::*;
    use shelves::ring::Ring;

    #[test]
    fn memory_of_23_and_no_bytes(rt: HostRuntime) {
        let mut none = [0; 0];
        let mut short = [0; 23];
        let steps = [
            Step::Numbers(128, 0, 0),
            Step::Count(0),
            Step::Append(24, 1, refused(13, 1)),
            Step::Append(48, 1, refused(13, 2)),
            Step::Count(0),
        ];
        assert_eq!(rt; first_wrong(&mut Ring::new(&mut none), &steps), 5);
        assert_eq!(rt; first_wrong(&mut Ring::new(&mut short), &steps), 5);
    }

    #[test]
    fn memory_of_24_and_25_bytes(rt: HostRuntime) {
        let mut one = [9; 24];
        let mut more = [9; 25];
        let steps = one_record(128);
        assert_eq!(rt; first_wrong(&mut Ring::new(&mut one), &steps), 9);
        assert_eq!(rt; first_wrong(&mut Ring::new(&mut more), &steps), 9);
        assert_eq!(rt; (more[0], more[23], more[24]), (30, 53, 9));
    }

    #[test]
    fn lengths(rt: HostRuntime) {
        let mut memory = [0; 72];
        let steps = [
            Step::Append(0, 1, refused(14, 0)),
            Step::Append(23, 1, refused(14, 23)),
            Step::Append(25, 1, refused(14, 25)),
            Step::Append(96, 1, refused(13, 4)),
            Step::Append(97, 1, refused(14, 97)),
            Step::Append(72, 1, Ok(())),
            Step::Append(24, 2, refused(13, 1)),
            Step::Append(25, 2, refused(14, 25)),
            Step::Holds(0, 72, 1),
            Step::Count(1),
        ];
        assert_eq!(rt; first_wrong(&mut Ring::new(&mut memory), &steps), 10);
    }

    // The second parcel lies at 24 to 48, and the third at 48 to 72 and 0 to 24.
    #[test]
    fn parcel_across_the_end(rt: HostRuntime) {
        let mut memory = [0; 72];
        let steps = [
            Step::Append(24, 1, Ok(())),
            Step::Append(24, 50, Ok(())),
            Step::Remove(0, Ok(())),
            Step::Append(48, 100, Ok(())),
            Step::Append(24, 200, refused(13, 1)),
            Step::Holds(0, 24, 50),
            Step::Holds(1, 48, 100),
            Step::Record(1, 0, 100),
            Step::Record(1, 1, 124),
            Step::NoRecord(1, 2),
            Step::Count(2),
        ];
        assert_eq!(rt; first_wrong(&mut Ring::new(&mut memory), &steps), 11);
        assert_eq!(rt;
            (
                memory[0], memory[23], memory[24], memory[47], memory[48], memory[71],
            ),
            (124, 147, 50, 73, 100, 123)
        );
    }

    #[test]
    fn removes_and_appends(rt: HostRuntime) {
        let mut memory = [0; 120];
        let steps = [
            Step::Append(24, 1, Ok(())),
            Step::Append(48, 40, Ok(())),
            Step::Append(24, 100, Ok(())),
            Step::Append(24, 140, Ok(())),
            Step::Remove(1, Ok(())),
            Step::Holds(0, 24, 1),
            Step::Holds(1, 24, 100),
            Step::Holds(2, 24, 140),
            Step::Append(48, 180, Ok(())),
            Step::Holds(3, 48, 180),
            Step::Remove(3, Ok(())),
            Step::Remove(0, Ok(())),
            Step::Append(72, 200, Ok(())),
            Step::Holds(0, 24, 100),
            Step::Holds(1, 24, 140),
            Step::Holds(2, 72, 200),
            Step::Append(24, 1, refused(13, 1)),
            Step::Count(3),
        ];
        assert_eq!(rt; first_wrong(&mut Ring::new(&mut memory), &steps), 18);
    }

    #[test]
    fn positions_and_short_memory(rt: HostRuntime) {
        let mut memory = [0; 48];
        let steps = [
            Step::Remove(0, refused(11, 0)),
            Step::Copy(0, 24, refused(11, 0)),
            Step::NoRecord(0, 0),
            Step::Append(24, 1, Ok(())),
            Step::Remove(1, refused(11, 1)),
            Step::Copy(1, 24, refused(11, 1)),
            Step::Copy(0, 23, refused(12, 24)),
            Step::Copy(0, 24, Ok(24)),
            Step::Record(0, 0, 1),
            Step::NoRecord(0, 1),
            Step::NoRecord(1, 0),
            Step::Remove(7, refused(11, 7)),
            Step::Holds(0, 24, 1),
            Step::Count(1),
        ];
        assert_eq!(rt; first_wrong(&mut Ring::new(&mut memory), &steps), 14);
    }

    #[test]
    fn parcel_129(rt: HostRuntime) {
        let mut memory = [0; 3120];
        let steps = [
            Step::Numbers(128, 130, 130),
            Step::Fill(128, 5),
            Step::Append(24, 6, refused(13, 1)),
            Step::Count(128),
            Step::Remove(64, Ok(())),
            Step::Append(24, 6, Ok(())),
            Step::Holds(126, 24, 5),
            Step::Holds(127, 24, 6),
            Step::Append(24, 7, refused(13, 1)),
        ];
        assert_eq!(rt; first_wrong(&mut Ring::new(&mut memory), &steps), 9);
    }
}

#[cfg(test)]
mod slots_tests {
    use super::*;
    use shelves::slots::Slots;

    #[test]
    fn memory_of_23_and_no_bytes(rt: HostRuntime) {
        let mut none = [0; 0];
        let mut short = [0; 23];
        let steps = [
            Step::Numbers(0, 1, 0),
            Step::Count(0),
            Step::Append(24, 1, refused(13, 1)),
            Step::Append(25, 1, refused(14, 25)),
            Step::Count(0),
        ];
        assert_eq!(rt; first_wrong(&mut Slots::new(&mut none, 1), &steps), 5);
        assert_eq!(rt; first_wrong(&mut Slots::new(&mut short, 1), &steps), 5);
    }

    #[test]
    fn memory_of_24_and_25_bytes(rt: HostRuntime) {
        let mut one = [9; 24];
        let mut more = [9; 25];
        let steps = one_record(1);
        assert_eq!(rt; first_wrong(&mut Slots::new(&mut one, 1), &steps), 9);
        assert_eq!(rt; first_wrong(&mut Slots::new(&mut more, 1), &steps), 9);
        assert_eq!(rt; (more[0], more[23], more[24]), (30, 53, 9));
    }

    // A size of 0 counts as 1; a slot that is larger than the memory leaves none.
    #[test]
    fn sizes(rt: HostRuntime) {
        let mut memory = [0; 49];
        let two_slots = [
            Step::Numbers(2, 1, 2),
            Step::Append(24, 1, Ok(())),
            Step::Append(24, 2, Ok(())),
            Step::Append(24, 3, refused(13, 1)),
        ];
        assert_eq!(rt; first_wrong(&mut Slots::new(&mut memory, 0), &two_slots), 4);
        let large = [
            Step::Numbers(0, 3, 0),
            Step::Append(24, 1, refused(13, 1)),
            Step::Append(0, 1, refused(14, 0)),
            Step::Count(0),
        ];
        assert_eq!(rt; first_wrong(&mut Slots::new(&mut memory, 3), &large), 4);
        let huge = [
            Step::Numbers(0, usize::MAX, 0),
            Step::Append(24, 1, refused(13, 1)),
        ];
        assert_eq!(rt;
            first_wrong(&mut Slots::new(&mut memory, usize::MAX), &huge),
            2
        );
    }

    // Two records do not fit a slot of one, though there is room for four.
    #[test]
    fn longer_than_a_slot(rt: HostRuntime) {
        let mut memory = [0; 96];
        let steps = [
            Step::Numbers(4, 1, 4),
            Step::Append(48, 1, refused(13, 2)),
            Step::Append(23, 1, refused(14, 23)),
            Step::Append(0, 1, refused(14, 0)),
            Step::Append(24, 1, Ok(())),
            Step::Holds(0, 24, 1),
            Step::Count(1),
        ];
        assert_eq!(rt; first_wrong(&mut Slots::new(&mut memory, 1), &steps), 7);
    }

    #[test]
    fn removes_and_appends(rt: HostRuntime) {
        let mut memory = [0; 192];
        let steps = [
            Step::Numbers(4, 2, 8),
            Step::Append(24, 1, Ok(())),
            Step::Append(48, 40, Ok(())),
            Step::Append(24, 100, Ok(())),
            Step::Append(48, 140, Ok(())),
            Step::Append(24, 1, refused(13, 1)),
            Step::Remove(1, Ok(())),
            Step::Append(48, 200, Ok(())),
            Step::Holds(0, 24, 1),
            Step::Holds(1, 24, 100),
            Step::Holds(2, 48, 140),
            Step::Holds(3, 48, 200),
            Step::Remove(0, Ok(())),
            Step::Remove(2, Ok(())),
            Step::Append(24, 7, Ok(())),
            Step::Append(48, 60, Ok(())),
            Step::Holds(0, 24, 100),
            Step::Holds(1, 48, 140),
            Step::Holds(2, 24, 7),
            Step::Holds(3, 48, 60),
        ];
        assert_eq!(rt; first_wrong(&mut Slots::new(&mut memory, 2), &steps), 20);
    }

    #[test]
    fn positions_and_short_memory(rt: HostRuntime) {
        let mut memory = [0; 48];
        let steps = [
            Step::Remove(0, refused(11, 0)),
            Step::Copy(0, 24, refused(11, 0)),
            Step::Append(48, 1, Ok(())),
            Step::Remove(1, refused(11, 1)),
            Step::Copy(1, 48, refused(11, 1)),
            Step::Copy(0, 47, refused(12, 48)),
            Step::Copy(0, 48, Ok(48)),
            Step::Record(0, 1, 25),
            Step::NoRecord(0, 2),
            Step::NoRecord(1, 0),
            Step::Holds(0, 48, 1),
            Step::Count(1),
        ];
        assert_eq!(rt; first_wrong(&mut Slots::new(&mut memory, 2), &steps), 12);
    }

    #[test]
    fn parcel_129(rt: HostRuntime) {
        let mut memory = [9; 3120];
        let steps = [
            Step::Numbers(128, 1, 128),
            Step::Fill(128, 5),
            Step::Append(24, 6, refused(13, 1)),
            Step::Remove(64, Ok(())),
            Step::Append(24, 6, Ok(())),
            Step::Holds(126, 24, 5),
            Step::Holds(127, 24, 6),
            Step::Append(24, 7, refused(13, 1)),
        ];
        assert_eq!(rt; first_wrong(&mut Slots::new(&mut memory, 1), &steps), 8);
        assert!(rt; all_are(&memory[3072..3120], 9));
    }
}

#[cfg(test)]
mod move_tests {
    use super::*;
    use shelf_moves::{append_and_copy, move_parcels, send_to_back};
    use shelves::ring::Ring;
    use shelves::slots::Slots;

    // The second parcel has three records, which is more than a slot of two has room for.
    #[test]
    fn from_ring_to_slots(rt: HostRuntime) {
        let mut one = [0; 120];
        let mut two = [0; 192];
        let mut memory = [0; 72];
        let mut ring = Ring::new(&mut one);
        let mut slots = Slots::new(&mut two, 2);
        let before = [
            Step::Append(24, 1, Ok(())),
            Step::Append(72, 40, Ok(())),
            Step::Append(24, 130, Ok(())),
        ];
        assert_eq!(rt; first_wrong(&mut ring, &before), 3);
        assert_eq!(rt; move_parcels(&mut ring, &mut slots, &mut memory), 1);
        assert_eq!(rt;
            first_wrong(
                &mut ring,
                &[
                    Step::Holds(0, 72, 40),
                    Step::Holds(1, 24, 130),
                    Step::Count(2),
                ],
            ),
            3
        );
        assert_eq!(rt;
            first_wrong(&mut slots, &[Step::Holds(0, 24, 1), Step::Count(1)]),
            2
        );
    }

    #[test]
    fn from_slots_to_ring(rt: HostRuntime) {
        let mut one = [0; 192];
        let mut two = [0; 120];
        let mut short = [0; 23];
        let mut memory = [0; 48];
        let mut slots = Slots::new(&mut one, 2);
        let mut ring = Ring::new(&mut two);
        let before = [
            Step::Append(24, 1, Ok(())),
            Step::Append(48, 40, Ok(())),
            Step::Append(24, 130, Ok(())),
        ];
        assert_eq!(rt; first_wrong(&mut slots, &before), 3);
        assert_eq!(rt; move_parcels(&mut slots, &mut ring, &mut short), 0);
        assert_eq!(rt; move_parcels(&mut slots, &mut ring, &mut memory), 3);
        assert_eq!(rt; first_wrong(&mut slots, &[Step::Count(0)]), 1);
        assert_eq!(rt;
            first_wrong(
                &mut ring,
                &[
                    Step::Holds(0, 24, 1),
                    Step::Holds(1, 48, 40),
                    Step::Holds(2, 24, 130),
                    Step::Count(3),
                ],
            ),
            4
        );
    }

    // The first of three parcels goes behind the others, on full shelves too.
    #[test]
    fn first_to_the_back(rt: HostRuntime) {
        let mut one = [0; 96];
        let mut two = [0; 144];
        let mut memory = [0; 24];
        let mut ring = Ring::new(&mut one);
        let mut slots = Slots::new(&mut two, 2);
        let before = [
            Step::Append(24, 1, Ok(())),
            Step::Append(48, 40, Ok(())),
            Step::Append(24, 130, Ok(())),
            Step::Append(24, 1, refused(13, 1)),
        ];
        let after = [
            Step::Holds(0, 48, 40),
            Step::Holds(1, 24, 130),
            Step::Holds(2, 24, 1),
            Step::Count(3),
        ];
        assert_eq!(rt; first_wrong(&mut ring, &before), 4);
        assert_eq!(rt; first_wrong(&mut slots, &before), 4);
        assert!(rt; send_to_back(&mut ring, &mut memory));
        assert!(rt; send_to_back(&mut slots, &mut memory));
        assert!(rt; !send_to_back(&mut ring, &mut memory));
        assert_eq!(rt; first_wrong(&mut ring, &after), 4);
        assert_eq!(rt; first_wrong(&mut slots, &after), 4);
    }

    #[test]
    fn appended_and_copied(rt: HostRuntime) {
        let mut one = [0; 48];
        let mut memory = [9; 30];
        let mut ring = Ring::new(&mut one);
        assert_eq!(rt;
            append_and_copy(&mut ring, &[7; 24], &mut memory).map_err(told),
            Ok(24)
        );
        assert!(rt; all_are(&memory[0..24], 7) && all_are(&memory[24..30], 9));
        assert_eq!(rt;
            append_and_copy(&mut ring, &[8; 48], &mut memory).map_err(told),
            refused(13, 2)
        );
        assert_eq!(rt;
            append_and_copy(&mut ring, &[8; 24], &mut memory[0..23]).map_err(told),
            refused(12, 24)
        );
    }
}
