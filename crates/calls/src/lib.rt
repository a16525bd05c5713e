// The calls on a replica and a link, as definitions: what each answers and leaves. Nothing here runs.
#![tactic(auto)]

pub mod laws;
