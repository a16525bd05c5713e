// Tests of reading groups from their records. What is expected was worked out by hand from the rules in docs/GROUPS.md.
#![tactic(auto)]

#[cfg(test)]
mod damaged;
#[cfg(test)]
mod fields;
#[cfg(test)]
mod journals;
#[cfg(test)]
mod sample;
