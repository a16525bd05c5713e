// Dots, places and runs of dots: the ground that every layer stands on.
#![tactic(auto)]

pub mod dots;
pub mod laws;
pub mod places;
pub mod runs;
