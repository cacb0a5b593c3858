//! What helpers are after one more entry, how often timers finish, and where counters stay; and that a configuration without helpers means what it means where there are none at all.
#![tactic(auto)]

pub mod laws;
