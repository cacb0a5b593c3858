//! Tests of what is read: numbers, moments, lines, YAML and templates, and of timers. What is wanted
//! stands in the formats' own words, and was worked out by hand.
#![tactic(auto)]

#[cfg(test)]
mod brackets;
#[cfg(test)]
mod clock;
#[cfg(test)]
mod commands;
#[cfg(test)]
mod flow;
#[cfg(test)]
mod long_templates;
#[cfg(test)]
mod printed;
#[cfg(test)]
mod template_trees;
#[cfg(test)]
mod templates;
#[cfg(test)]
mod texts;
#[cfg(test)]
mod timers;
#[cfg(test)]
mod values;
#[cfg(test)]
mod yaml_lines;
#[cfg(test)]
mod yaml_trees;
