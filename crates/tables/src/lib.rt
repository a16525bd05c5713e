// Tables: a store of one part, over rows that its owner lends.
#![tactic(auto)]

mod rows;
pub mod table;
mod table_rows;
