//! Tests of the outside: the forms in memory and over the system.
#![tactic(auto)]

#[cfg(test)]
mod outside;
