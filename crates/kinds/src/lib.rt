// Value kinds: what a code of a part may be, and how two codes of one dot join.
#![tactic(auto)]

pub mod kind;
pub mod laws;
pub mod limit;
pub mod lines;
pub mod mark;
