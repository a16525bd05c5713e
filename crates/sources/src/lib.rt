// Groups that can be read entry by entry, wherever they lie, and writing one into memory.
#![tactic(auto)]

pub mod group_entries;
pub mod laid_group;
pub mod laws;
pub mod read_groups;
pub mod record_list;
mod record_parts;
pub mod source;
pub mod store_group;
pub mod writing;
