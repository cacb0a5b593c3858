//! Laws of the definitions of what a configuration is read as: all that is read of a sound tree is sound.
#![tactic(auto)]

mod laws;
