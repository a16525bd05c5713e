// Groups of items with the dots they know of, and their join: what it is and which laws it keeps. Nothing here runs.
#![tactic(auto)]

pub mod laws;
