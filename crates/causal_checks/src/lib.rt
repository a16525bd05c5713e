// Tests of the crates causal, contexts and kinds. What is expected was worked out by hand from the rules in docs/DOTS.md.
#![tactic(auto)]

#[cfg(test)]
mod context_checks;
#[cfg(test)]
mod values;
