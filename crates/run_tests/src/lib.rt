//! Tests of runs and their modes, and of the switches with their store. What is wanted stands in the rules' own
//! words, and was worked out by hand.
#![tactic(auto)]

#[cfg(test)]
mod modes;
#[cfg(test)]
mod store;
#[cfg(test)]
mod units;
