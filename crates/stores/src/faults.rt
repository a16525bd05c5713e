// Why a store refuses a put.
#[derive(Clone, Copy, Debug, PartialEq, Eq)]
pub enum StoreFault {
    // No such part, or a place or dot that no entry has.
    Address,
    // A code that is not of the part's kind.
    Unfit,
    // No room in this part for one more entry.
    Full(usize),
}
