//! A home of one automation, and what a place in it sees.
ghost use Rattle.std.specs.Prelude.{◌≡◌, [], IfOk, IfSome};
ghost use Rattle.helper_set.specs.Kept.{kept_in};
ghost use Rattle.ha_config.specs.Sound.{IsSoundConfig};

use cond_eval::View;
use conf_auto::read_config;
use flow_line::read_cmd;
use ha_clock::{Moment, Zone};
use ha_config::{Cmd, Config};
use ha_value::Many;
use helper_set::Helpers;
use script_calls::Seeing;
use sound_laws::laws::what_is_read_is_sound;
use state_table::StateTable;
use std::alloc::{AllocError, Global};

// 2024-05-01T20:00:00Z
const EIGHT: u64 = 1_714_593_600_000;

/// The automations, the states and the present moment.
#[derive(Drop)]
pub struct Home {
    pub config: Config,
    /// Of its units, of which there are eight at most.
    pub numbers: Many<u32>,
    pub states: StateTable,
    pub millis: u64,
}

/// The text of the automation `a` with these conditions and actions, and of these scripts, each in flow on one line.
fn text_of(alloc: Global, tests: &str, actions: &str, scripts: &str) -> Result<String, AllocError> {
    let mut text = String::new(alloc);
    text.push_str("script: ")?;
    text.push_str(scripts)?;
    text.push_str("\nautomation: [{alias: a, triggers: [], conditions: ")?;
    text.push_str(tests)?;
    text.push_str(", actions: ")?;
    text.push_str(actions)?;
    text.push_str("}]")?;
    Ok(text)
}

/// The numbers of units that came into force first.
fn eight_numbers(alloc: Global) -> Result<Many<u32>, AllocError> {
    let mut numbers = Many::make(alloc);
    for number in 0..8u32 {
        numbers.push(number)?;
    }
    Ok(numbers)
}

/// The home of an automation with these conditions and actions, at eight in the evening of the first of May 2024; none where they are
/// refused.
pub fn home_of(alloc: Global, tests: &str, actions: &str) -> Result<Option<Home>, AllocError>
    ensures { IfOk result (λ made. IfSome made (λ home. IsSoundConfig home.config)) }
{
    home_with(alloc, tests, actions, "{}")
}

/// The same, with these scripts.
pub fn home_with(
    alloc: Global,
    tests: &str,
    actions: &str,
    scripts: &str,
) -> Result<Option<Home>, AllocError>
    ensures { IfOk result (λ made. IfSome made (λ home. IsSoundConfig home.config)) }
{
    let text = text_of(alloc, tests, actions, scripts)?;
    what_is_read_is_sound();
    match read_config(alloc, text.as_bytes()) {
        Ok(config) => Ok(Some(Home {
            config,
            numbers: eight_numbers(alloc)?,
            states: StateTable::make(alloc),
            millis: EIGHT,
        })),
        Err(_) => Ok(None),
    }
}

/// What a report or a moment does; whether it is one of them.
fn follow(alloc: Global, home: &mut Home, cmd: &Cmd) -> Result<bool, AllocError> {
    match cmd {
        Cmd::Report {
            entity,
            text,
            attributes,
        } => {
            let Some(at) = Moment::of_millis(home.millis) else {
                return Ok(false);
            };
            home.states.report(alloc, entity, text, attributes, at)?;
            Ok(true)
        }
        Cmd::Gone { entity } => Ok(home.states.gone(entity)),
        Cmd::Moment(at) => {
            home.millis = at.millis();
            Ok(true)
        }
        _ => Ok(false),
    }
}

/// The line of a source for a short form: `r E S` reports that entity E has the state S, `m T` is the moment T of the first of May 2024,
/// and every other line stands as it is.
fn line_of(alloc: Global, said: &str) -> Result<String, AllocError> {
    let mut text = String::new(alloc);
    if let Some(rest) = said.strip_prefix("m ") {
        text.push_str("{\"moment\":\"2024-05-01T")?;
        text.push_str(rest)?;
        text.push_str("Z\"}")?;
        return Ok(text);
    }
    match said.strip_prefix("r ") {
        Some(rest) => push_report(&mut text, rest)?,
        None => text.push_str(said)?,
    }
    Ok(text)
}

/// A report, of its entity and its state.
fn push_report(text: &mut String, said: &str) -> Result<(), AllocError> {
    if let Some((entity, state)) = said.split_once(' ') {
        text.push_str("{\"report\":\"")?;
        text.push_str(entity)?;
        text.push_str("\",\"state\":\"")?;
        text.push_str(state)?;
        text.push_str("\"}")?;
    }
    Ok(())
}

/// The next line of the source; whether it is a report or a moment.
pub fn tell(alloc: Global, home: &mut Home, said: &str) -> Result<bool, AllocError> {
    let line = line_of(alloc, said)?;
    let cmd = read_cmd(alloc, line.as_bytes())?;
    follow(alloc, home, &cmd)
}

/// The zone of the tests.
pub fn utc(alloc: Global) -> Result<Zone, AllocError> {
    match Zone::read(alloc, b"UTC") {
        Ok(zone) => Ok(zone),
        Err(_) => Err(AllocError),
    }
}

/// What the home shows at its moment; none where that is past the end of time, or the home has more automations than a home of a test.
pub fn view_of<'a>(home: &'a Home, zone: &'a Zone) -> Option<View<'a>> {
    let at = Moment::of_millis(home.millis)?;
    if 4 < home.config.automations.len() || home.numbers.len() < 8 {
        return None;
    }
    let (config, numbers) = (&home.config, &home.numbers);
    Some(View::make(&home.states, config, numbers, zone, at))
}

/// The same with its scripts, of which there are few too, and no helpers.
pub fn seeing_of<'a>(home: &'a Home, zone: &'a Zone, helpers: &'a Helpers) -> Option<Seeing<'a>>
    requires { kept_in helpers.now ≡ [] }
{
    let at = Moment::of_millis(home.millis)?;
    let few = home.config.automations.len() <= 4 && home.config.scripts.len() <= 4;
    if !few || home.numbers.len() < 8 {
        return None;
    }
    let seeing = Seeing::make(&home.states, &home.config, &home.numbers, zone, at, helpers);
    // The borrow checker builds its plan only where a place has the type that the view holds.
    let _ = &seeing.view;
    Some(seeing)
}
