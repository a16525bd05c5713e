// The history of edits, and the law that replicas keep to it over every run of the calls. Nothing here runs.
#![tactic(auto)]

pub mod laws;
