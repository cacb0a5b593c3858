//! Tests of scripts and of conditions: what the steps of a run give, one after the other, how waits end, which calls are of scripts, which
//! run waits for which that it called, and what conditions are on what a place sees. What is wanted stands in the rules' own words, and
//! was worked out by hand.
#![tactic(auto)]

#[cfg(test)]
mod blocks;
#[cfg(test)]
mod called;
#[cfg(test)]
mod calls;
#[cfg(test)]
mod conditions;
#[cfg(test)]
mod faults;
#[cfg(test)]
mod home;
#[cfg(test)]
mod play;
#[cfg(test)]
mod repeats;
#[cfg(test)]
mod said;
#[cfg(test)]
mod services;
#[cfg(test)]
mod spared;
#[cfg(test)]
mod waits;
