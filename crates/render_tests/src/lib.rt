//! Tests of what is rendered: filters, states, and templates from their text to the rendered text.
#![tactic(auto)]

#[cfg(test)]
mod deep;
#[cfg(test)]
mod filters;
#[cfg(test)]
mod functions;
#[cfg(test)]
mod lists;
#[cfg(test)]
mod shown;
#[cfg(test)]
mod states;
#[cfg(test)]
mod texts;
#[cfg(test)]
mod triggers;
