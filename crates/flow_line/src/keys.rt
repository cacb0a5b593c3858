//! The table of the commands' keys.

ghost use Rattle.std.specs.Prelude.{◌≡◌, ◌∷◌, [], true, filter, IfSome};
ghost use Rattle.std.specs.Option.{option_copied};
ghost use Rattle.std.specs.List.{list_all};
ghost use Rattle.ha_config.specs.Words.{same};
ghost use Rattle.flow_line.specs.Command.{further, has_keys, has_needed, is_key, key_of, named, needed, only, takes, Says};

use crate::fields::{Refused, has_key};
use crate::refusal::Refusal;
use ha_value::{Value, Word};
use reading::Stop;

/// The commands, by the key that names them.
#[derive(Clone, Copy, Debug, PartialEq, Eq)]
pub enum Command {
    Report,
    Gone,
    Event,
    Moment,
    Switch,
    Trigger,
    Restart,
    Reload,
}

const COMMANDS: [Command; 8] = [
    Command::Report,
    Command::Gone,
    Command::Event,
    Command::Moment,
    Command::Switch,
    Command::Trigger,
    Command::Restart,
    Command::Reload,
];

impl Command {
    /// The key that names it.
    pub fn key(self) -> &'static [u8]
        ensures { result.now ≡ key_of self }
    {
        match self {
            Command::Report => b"report",
            Command::Gone => b"gone",
            Command::Event => b"event",
            Command::Moment => b"moment",
            Command::Switch => b"switch",
            Command::Trigger => b"trigger",
            Command::Restart => b"restart",
            Command::Reload => b"reload",
        }
    }

    /// The key that stands beside it.
    fn needed(self) -> Option<&'static [u8]>
        ensures { option_copied result ≡ needed self }
    {
        match self {
            Command::Report => Some(b"state"),
            Command::Switch => Some(b"to"),
            _ => None,
        }
    }

    /// The key that may stand beside it.
    fn further(self) -> Option<&'static [u8]>
        ensures { option_copied result ≡ further self }
    {
        match self {
            Command::Report => Some(b"attributes"),
            Command::Event => Some(b"data"),
            Command::Switch => Some(b"stop_actions"),
            Command::Trigger => Some(b"skip_condition"),
            _ => None,
        }
    }

    fn takes(self, key: &[u8]) -> bool
        ensures { result ≡ takes self key.now }
    {
        key == self.key() || (is_key(key, self.needed()) || is_key(key, self.further()))
    }
}

/// Whether the key is the one that is wanted.
fn is_key(key: &[u8], wanted: Option<&[u8]>) -> bool
    ensures { result ≡ is_key key.now (option_copied wanted.entry) }
{
    match wanted {
        Some(wanted) => key == wanted,
        None => false,
    }
}

/// The command whose key stands in the map, if there is one alone.
pub fn only_command(pairs: &[(Word, Value)]) -> Result<Command, Refused>
    ensures { Says (only (named pairs.now)) result }
{
    let mut found = None;
    for command in COMMANDS {
        if has_key(pairs, command.key()) {
            if found.is_some() {
                return Err(Stop::Fault(Refusal::CommandKey));
            }
            found = Some(command);
        }
    }
    match found {
        Some(command) => Ok(command),
        None => Err(Stop::Fault(Refusal::CommandKey)),
    }
}

fn has_needed(command: Command, pairs: &[(Word, Value)]) -> bool
    ensures { result ≡ has_needed command pairs.now }
{
    match command.needed() {
        Some(key) => has_key(pairs, key),
        None => true,
    }
}

fn takes_all(command: Command, pairs: &[(Word, Value)]) -> bool
    ensures { result ≡ list_all (λ p. takes command p.0) pairs.now }
{
    pairs.iter().all(|pair| command.takes(pair.0.bytes()))
}

/// Whether the map has the key that the command needs, and no key that it doesn't take.
pub fn has_keys(command: Command, pairs: &[(Word, Value)]) -> bool
    ensures { result ≡ has_keys command pairs.now }
{
    has_needed(command, pairs) && takes_all(command, pairs)
}

/// The command that a key names.
fn command_of_key(key: &[u8]) -> Option<Command>
    ensures { IfSome result (λ command. same (key_of command) key.now ≡ true) }
{
    for command in COMMANDS {
        if key == command.key() {
            return Some(command);
        }
    }
    None
}

/// The command of a map that has its keys, where its first key names it. Most maps are so; the others are looked at by the
/// whole table.
pub fn plain_command(pairs: &[(Word, Value)]) -> Option<Command>
    ensures alone { IfSome result (λ command. named pairs.now ≡ command ∷ []) }
    ensures keys { IfSome result (λ command. has_keys command pairs.now ≡ true) }
{
    let first = pairs.first()?;
    let command = command_of_key(first.0.bytes())?;
    if has_keys(command, pairs) {
        Some(command)
    } else {
        None
    }
}
