//! Tests of attached triggers: what fires at each of some entries. What is wanted was worked out by hand from the rules.
#![tactic(auto)]

#[cfg(test)]
mod holds;
#[cfg(test)]
mod home;
#[cfg(test)]
mod many;
#[cfg(test)]
mod next_times;
#[cfg(test)]
mod reads;
#[cfg(test)]
mod rules;
#[cfg(test)]
mod templates;
#[cfg(test)]
mod times;
#[cfg(test)]
mod triggers;
