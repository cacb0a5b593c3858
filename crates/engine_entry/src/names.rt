//! The automations in force by their names.
ghost use Rattle.std.specs.Prelude.{◌≡◌, option_and_then, slice_get};
ghost use Rattle.ha_config.specs.Names.{automation_named, named_among};
ghost use Rattle.ha_journal.specs.Journal.{Journal, automations, in_force};
ghost use Rattle.engine_parts.specs.Numbers.{numbers_in};
ghost use Rattle.engine_entry.specs.Reloaded.{has_name, number_by};

use ha_config::{Automation, Config, is_automation, same_text};
use ha_value::{Many, Word};

/// The place of the automation of this name.
fn place_named(all: &[Automation], name: &Word) -> Option<usize>
    ensures { result ≡ automation_named all.now name.now }
{
    'rules: for at in 0..all.len() {
        if same_text(&all[at].name, name) {
            return Some(at);
        }
    }
    None
}

/// Whether an automation has this name.
pub(crate) fn has_name(config: &Config, name: &Word) -> bool
    ensures { result ≡ has_name config.now name.now }
{
    is_automation(config.automations.as_slice(), name)
}

/// The number at a place, if there is one.
fn number_at(numbers: &Many<u32>, at: Option<usize>) -> Option<u32>
    ensures { result ≡ option_and_then (λ n. slice_get numbers.now n) at }
{
    match at {
        Some(at) => match numbers.get(at) {
            Some(number) => Some(*number),
            None => None,
        },
        None => None,
    }
}

/// The number of the automation of this name; the numbers are those of a configuration's units, automations first.
pub(crate) fn number_by(config: &Config, numbers: &Many<u32>, name: &Word) -> Option<u32>
    ensures { result ≡ number_by config.now numbers.now name.now }
{
    let at = place_named(config.automations.as_slice(), name);
    number_at(numbers, at)
}

/// The number of the automation of this name, of those in force.
pub fn number_named(config: &Config, numbers: &Many<u32>, name: &Word) -> Option<u32>
    ensures { (j : Journal) → config.now.automations ≡ automations j → numbers.now ≡ numbers_in j → result ≡ named_among (in_force j) name.now }
{
    number_by(config, numbers, name)
}
