// Bounded memory in which parcels wait: an interface, and two shelves over lent bytes.
#![tactic(auto)]

mod extent;
pub mod fault;
mod reading;
pub mod ring;
mod ring_parts;
mod round;
pub mod shelf;
mod slot_parts;
pub mod slots;
mod stock;
