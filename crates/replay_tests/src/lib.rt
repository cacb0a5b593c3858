//! Tests of `replay`. What is wanted stands in the format's own words, and was worked out by hand.
#![tactic(auto)]

#[cfg(test)]
mod boots;
#[cfg(test)]
mod called;
#[cfg(test)]
mod judged;
#[cfg(test)]
mod reloads;
#[cfg(test)]
mod restarts;
#[cfg(test)]
mod traces;
