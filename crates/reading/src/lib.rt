// Reading groups of records: which bytes are a group, and what is wrong with those that are none.
#![tactic(auto)]

pub mod faults;
pub mod laws;
pub mod reader;
