// Joining a group into a store and a context, wherever the group is read from.
#![tactic(auto)]

mod counts;
mod entering;
pub mod faults;
pub mod join;
mod known;
pub mod questions;
mod search;
mod store_part;
mod strikes;
