//! Configurations in the list of all entries, and their units.
ghost use Rattle.std.specs.Prelude.{◌≡◌, [], IfSome, IsTrue, slice_get};
ghost use Rattle.std.specs.Option.{option_copied, option_map_or};
ghost use Rattle.ha_config.specs.Sound.{IsSoundConfig, are_sound_actions, is_sound_automation};
ghost use Rattle.ha_config.specs.Units.{units_of};
ghost use Rattle.ha_journal.specs.Entries.{reloads_to};
ghost use Rattle.ha_model.specs.Records.{actions_of};
ghost use Rattle.unit_book.specs.Book.{config_at as config_lem, config_in, script_in, unit_at, unit_told};

use ha_config::{Action, Automation, Cmd, Config, Script};
use ha_journal::Entry;

/// The configuration that a command brings into force.
fn config_said(cmd: &Cmd) -> Option<&Config>
    ensures { option_copied result ≡ reloads_to cmd.now }
{
    match cmd {
        Cmd::Reload { config, .. } => config.as_ref(),
        Cmd::Report { .. } => None,
        Cmd::Gone { .. } => None,
        Cmd::Event { .. } => None,
        Cmd::Moment(_) => None,
        Cmd::Switch { .. } => None,
        Cmd::Trigger { .. } => None,
        Cmd::Restart => None,
        Cmd::Refused(_) => None,
        Cmd::Lost => None,
        Cmd::TooLong => None,
    }
}

/// The one that an entry brings into force.
fn config_in(entry: &Entry) -> Option<&Config>
    ensures { option_copied result ≡ config_in entry.now }
{
    match entry {
        Entry::Boot { config, .. } => Some(config),
        Entry::Line { cmd, .. } => config_said(cmd),
        Entry::Step { .. } => None,
        Entry::Again { .. } => None,
    }
}

/// The one that the entry at a place brings into force.
pub fn config_at(journal: &[Entry], at: usize) -> Option<&Config>
    ensures { option_copied result ≡ config_lem journal.now at }
{
    match journal.get(at) {
        Some(entry) => config_in(entry),
        None => None,
    }
}

/// The actions of the unit at a place of a configuration; a place of none has no action.
pub(crate) fn actions_at(config: &Config, at: u32) -> &[Action]
    ensures { result.now ≡ actions_of (units_of config.now) at }
{
    let at = at as usize;
    let automations = config.automations.as_slice();
    if at < automations.len() {
        return automations[at].actions.as_slice();
    }
    match config.scripts.get(at - automations.len()) {
        Some(script) => script.actions.as_slice(),
        None => &[],
    }
}

/// The automation at a place.
pub(crate) fn rule_at(config: &Config, at: u32) -> Option<&Automation>
    ensures { option_copied result ≡ slice_get config.now.automations at }
{
    config.automations.get(at as usize)
}

/// The script at a place behind the automations.
pub(crate) fn script_at(config: &Config, at: u32) -> Option<&Script>
    ensures { option_copied result ≡ script_in config.now at }
{
    let at = at as usize;
    let count = config.automations.len();
    if at < count {
        return None;
    }
    config.scripts.get(at - count)
}

/// The actions of the unit at an origin.
pub(crate) fn actions_by(journal: &[Entry], origin: (usize, u32)) -> &[Action]
    ensures { result.now ≡ option_map_or (λ u. u.actions) (unit_at journal.now origin) [] }
{
    match config_at(journal, origin.0) {
        Some(config) => actions_at(config, origin.1),
        None => &[],
    }
}

/// The automation there, or the script.
pub(crate) fn unit_by(
    journal: &[Entry],
    origin: (usize, u32),
) -> (Option<&Automation>, Option<&Script>)
    ensures unit { unit_told (option_copied result.0) (option_copied result.1) ≡ unit_at journal.now origin }
    ensures rule { IfSome (config_lem journal.now origin.0) IsSoundConfig → IfSome (option_copied result.0) (λ a. IsTrue (is_sound_automation a)) }
    ensures script { IfSome (config_lem journal.now origin.0) IsSoundConfig → IfSome (option_copied result.1) (λ s. IsTrue (are_sound_actions s.actions)) }
{
    match config_at(journal, origin.0) {
        Some(config) => (rule_at(config, origin.1), script_at(config, origin.1)),
        None => (None, None),
    }
}
