// The book of a site: a pair of a table and a pair of tables.
#![tactic(auto)]

pub mod site_book;
