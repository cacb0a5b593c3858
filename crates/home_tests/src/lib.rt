//! Tests of whole homes: a configuration and the lines of a day go in, and the calls, the error lines and the stored switches come out.
#![tactic(auto)]

#[cfg(test)]
mod called;
#[cfg(test)]
mod day;
#[cfg(test)]
mod files;
#[cfg(test)]
mod helped_reloads;
#[cfg(test)]
mod helpers;
#[cfg(test)]
mod lines;
#[cfg(test)]
mod moments;
#[cfg(test)]
mod outside;
#[cfg(test)]
mod rehearsals;
#[cfg(test)]
mod reloads;
#[cfg(test)]
mod restarts;
#[cfg(test)]
mod runs;
#[cfg(test)]
mod scripts;
#[cfg(test)]
mod sources;
#[cfg(test)]
mod streams;
#[cfg(test)]
mod triggers;
#[cfg(test)]
mod waits;
