// A reader of groups: it borrows the bytes and knows how far in them it has come.
use crate::reader::progress::Progress;

pub mod dots;
pub mod group;
pub mod next;
pub mod progress;
mod seen;

#[derive(Drop)]
pub struct GroupReader<'a> {
    bytes: &'a [u8],
    progress: Progress,
}
