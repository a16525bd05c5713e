// Pairs: two stores as one.
#![tactic(auto)]

pub mod pair;
