//! Tests of what a configuration's text and the words of the command line are read as. What is wanted was worked out by hand from the
//! format's rules; the texts of other people's homes are in the style of their documentation and their editor.
#![tactic(auto)]

#[cfg(test)]
mod actions;
#[cfg(test)]
mod automations;
#[cfg(test)]
mod checks;
#[cfg(test)]
mod conditions;
#[cfg(test)]
mod editor;
#[cfg(test)]
mod helpers;
#[cfg(test)]
mod pasted;
#[cfg(test)]
mod plans;
#[cfg(test)]
mod scripts;
#[cfg(test)]
mod triggers;
#[cfg(test)]
mod words;
