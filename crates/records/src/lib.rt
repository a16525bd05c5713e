// Records of 24 bytes: what each says, and writing them.
#![tactic(auto)]

pub mod bytes;
pub mod fields;
pub mod record;
pub mod writer;
