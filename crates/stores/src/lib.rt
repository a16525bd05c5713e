// Stores of entries by dot: what a store is, whatever memory lies under it, and the laws of what it holds.
#![tactic(auto)]

pub mod address;
pub mod dot_store;
pub mod entries;
pub mod faults;
pub mod laws;
pub mod order;
pub mod part_entries;
pub mod refusing;
pub mod walks;
