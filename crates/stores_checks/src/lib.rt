// Checks of the stores, on examples whose answers follow from the rules by hand.
#![tactic(auto)]

#[cfg(test)]
mod book_checks;
#[cfg(test)]
mod pair_checks;
#[cfg(test)]
mod steps;
#[cfg(test)]
mod table_checks;
