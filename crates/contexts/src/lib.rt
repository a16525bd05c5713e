// Causal contexts: sets of dots as canonical runs, in an array.
#![tactic(auto)]

pub mod context;
pub mod laws;
