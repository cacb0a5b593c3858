//! The command of a line.

ghost use Rattle.std.specs.Prelude.{◌≡◌, length, option_copied, IfOk};
ghost use Rattle.std.specs.Prelude.{Bool, Option};
ghost use Rattle.ha_value.specs.Ids.{read_entity};
ghost use Rattle.ha_value.specs.declared.value.EntityId.{EntityId};
ghost use Rattle.ha_config.specs.Fair.{IsFairAmong, prepared, put_among};
ghost use Rattle.ha_config.specs.declared.config.Config.{Config as Configuration};
ghost use Rattle.ha_config.specs.Words.{Text, characters};
ghost use Rattle.flow_line.specs.Fields.{SaysLent};
ghost use Rattle.flow_line.specs.Command.{automation, cmd_by, cmd_of, cmd_of_pairs, event_of, gone_of, is_automation, moment_of_pairs, pairs_of, reload_of, report_of, reportable, restart_of, state_of, switch_of, trigger_of, turned, command_of, IsFairOncePut, IsInTime, IsLineMap, Says};

use crate::fault::FlowFault;
use crate::fields::{Pairs, Refused, check_map, flag_at, take_map, take_text, text_at, value_at};
use crate::keys::{Command, has_keys, only_command, plain_command};
use crate::read::read_value;
use crate::refusal::Refusal;
use ha_clock::read_moment;
use ha_config::{Cmd, characters};
use ha_value::{EntityFault, EntityId, Value, Word};
use reading::{Stop, is_utf8};
use std::alloc::{AllocError, Global};

/// A line may have this many bytes.
const LINE_BYTES: usize = 65_536;

/// A state may have this many characters.
const STATE_CHARACTERS: usize = 255;

fn is_automation(id: &EntityId) -> bool
    ensures { result ≡ is_automation id.now }
{
    id.has_domain("automation")
}

/// The entity that a text reports: no automation.
fn reportable(alloc: Global, text: &Word) -> Result<EntityId, Refused>
    ensures { Says (reportable (read_entity text.now)) result }
{
    match EntityId::read(alloc, text.bytes()) {
        Ok(id) if !is_automation(&id) => Ok(id),
        Err(EntityFault::Memory) => Err(Stop::Memory),
        _ => Err(Stop::Fault(Refusal::Id)),
    }
}

/// The name of the automation whose id a text is.
fn automation(alloc: Global, text: &Word) -> Result<Word, Refused>
    ensures { Says (automation (read_entity text.now)) result }
{
    match EntityId::read(alloc, text.bytes()) {
        Ok(id) if is_automation(&id) => Ok(Word::from_str(alloc, id.object())?),
        Err(EntityFault::Memory) => Err(Stop::Memory),
        _ => Err(Stop::Fault(Refusal::Id)),
    }
}

/// A state that is short enough.
fn state_of(text: &Word) -> Result<&Word, Refused>
    ensures { SaysLent (state_of text.now) result }
{
    if characters(text.bytes()) <= STATE_CHARACTERS {
        Ok(text)
    } else {
        Err(Stop::Fault(Refusal::LongState))
    }
}

/// Whether the text turns on.
fn turned(text: &Word) -> Result<bool, Refused>
    ensures { Says (turned text.now) result }
{
    match text.bytes() {
        b"on" => Ok(true),
        b"off" => Ok(false),
        _ => Err(Stop::Fault(Refusal::Kind)),
    }
}

#[tactic(auto, unfolding(crate::specs::Command::report_of))]
fn report(alloc: Global, pairs: &mut [(Word, Value)]) -> Result<Cmd, Refused>
    ensures exact { Says (report_of pairs.old) result }
    ensures in_time { IfOk result IsInTime }
{
    let id = text_at(pairs, b"report")?;
    let text = text_at(pairs, b"state")?;
    check_map(pairs, b"attributes")?;
    let entity = reportable(alloc, id)?;
    state_of(text)?;
    Ok(Cmd::Report {
        entity,
        text: take_text(alloc, pairs, b"state"),
        attributes: take_map(alloc, pairs, b"attributes"),
    })
}

#[tactic(auto, unfolding(crate::specs::Command::gone_of))]
fn gone(alloc: Global, pairs: &[(Word, Value)]) -> Result<Cmd, Refused>
    ensures exact { Says (gone_of pairs.now) result }
    ensures in_time { IfOk result IsInTime }
{
    let id = text_at(pairs, b"gone")?;
    let entity = reportable(alloc, id)?;
    Ok(Cmd::Gone { entity })
}

#[tactic(auto, unfolding(crate::specs::Command::event_of))]
fn event(alloc: Global, pairs: &mut [(Word, Value)]) -> Result<Cmd, Refused>
    ensures exact { Says (event_of pairs.old) result }
    ensures in_time { IfOk result IsInTime }
{
    text_at(pairs, b"event")?;
    check_map(pairs, b"data")?;
    Ok(Cmd::Event {
        kind: take_text(alloc, pairs, b"event"),
        pairs: take_map(alloc, pairs, b"data"),
    })
}

#[tactic(auto, unfolding(crate::specs::Command::moment_of_pairs))]
fn moment(pairs: &[(Word, Value)]) -> Result<Cmd, Refused>
    ensures exact { Says (moment_of_pairs pairs.now) result }
    ensures in_time { IfOk result IsInTime }
{
    let text = text_at(pairs, b"moment")?;
    match read_moment(text.bytes()) {
        Some(at) => Ok(Cmd::Moment(at)),
        None => Err(Stop::Fault(Refusal::NoMoment)),
    }
}

#[tactic(auto, unfolding(crate::specs::Command::switch_of))]
fn switch(alloc: Global, pairs: &[(Word, Value)]) -> Result<Cmd, Refused>
    ensures exact { Says (switch_of pairs.now) result }
    ensures in_time { IfOk result IsInTime }
{
    let id = text_at(pairs, b"switch")?;
    let on = turned(text_at(pairs, b"to")?)?;
    let stop = flag_at(pairs, b"stop_actions")?;
    let name = automation(alloc, id)?;
    Ok(Cmd::Switch { name, on, stop })
}

#[tactic(auto, unfolding(crate::specs::Command::trigger_of))]
fn trigger(alloc: Global, pairs: &[(Word, Value)]) -> Result<Cmd, Refused>
    ensures exact { Says (trigger_of pairs.now) result }
    ensures in_time { IfOk result IsInTime }
{
    let id = text_at(pairs, b"trigger")?;
    let skip = flag_at(pairs, b"skip_condition")?;
    let name = automation(alloc, id)?;
    Ok(Cmd::Trigger { name, skip })
}

#[tactic(auto, unfolding(crate::specs::Command::restart_of))]
fn restart(pairs: &[(Word, Value)]) -> Result<Cmd, Refused>
    ensures exact { Says (restart_of pairs.now) result }
    ensures in_time { IfOk result IsInTime }
{
    match value_at(pairs, b"restart") {
        Some(Value::Flag(true)) => Ok(Cmd::Restart),
        _ => Err(Stop::Fault(Refusal::Kind)),
    }
}

/// The configuration is read where the line is put.
#[tactic(auto, unfolding(crate::specs::Command::reload_of))]
fn reload(alloc: Global, pairs: &mut [(Word, Value)]) -> Result<Cmd, Refused>
    ensures exact { Says (reload_of pairs.old) result }
    ensures in_time { IfOk result IsInTime }
{
    text_at(pairs, b"reload")?;
    Ok(Cmd::Reload {
        text: take_text(alloc, pairs, b"reload"),
        config: None,
    })
}

/// The command of its values.
fn command_by(alloc: Global, command: Command, pairs: &mut [(Word, Value)]) -> Result<Cmd, Refused>
    ensures exact { Says (cmd_by command pairs.old) result }
    ensures in_time { IfOk result IsInTime }
{
    match command {
        Command::Report => report(alloc, pairs),
        Command::Gone => gone(alloc, pairs),
        Command::Event => event(alloc, pairs),
        Command::Moment => moment(pairs),
        Command::Switch => switch(alloc, pairs),
        Command::Trigger => trigger(alloc, pairs),
        Command::Restart => restart(pairs),
        Command::Reload => reload(alloc, pairs),
    }
}

/// The command of a line's map.
#[tactic(auto, unfolding(crate::specs::Command::cmd_of_pairs))]
fn command_of_pairs(alloc: Global, pairs: &mut [(Word, Value)]) -> Result<Cmd, Refused>
    ensures exact { Says (cmd_of_pairs pairs.old) result }
    ensures in_time { IfOk result IsInTime }
{
    if let Some(command) = plain_command(pairs) {
        return command_by(alloc, command, pairs);
    }
    let command = only_command(pairs)?;
    if !has_keys(command, pairs) {
        return Err(Stop::Fault(Refusal::Keys));
    }
    command_by(alloc, command, pairs)
}

/// The map that a line is.
#[tactic(auto, using(crate::proofs::Sound::line_map), unfolding(crate::specs::Command::pairs_of))]
fn pairs_of(alloc: Global, line: &[u8]) -> Result<Pairs, Refused>
    ensures exact { Says (pairs_of line.now) result }
    ensures sound { IfOk result IsLineMap }
{
    if line.len() > LINE_BYTES {
        return Err(Stop::Fault(Refusal::LongLine));
    }
    if !is_utf8(line) {
        return Err(Stop::Fault(Refusal::NotUtf8));
    }
    match read_value(alloc, line) {
        Ok(Value::Pairs(pairs)) => Ok(pairs),
        Err(FlowFault::Memory) => Err(Stop::Memory),
        _ => Err(Stop::Fault(Refusal::NoMap)),
    }
}

/// The command of a line, or why there is none.
#[tactic(auto, using(crate::proofs::Fair::fair_of_pairs))]
fn command_of(alloc: Global, line: &[u8]) -> Result<Cmd, Refused>
    ensures exact { Says (command_of line.now) result }
    ensures fair { IfOk result IsFairOncePut }
{
    let mut pairs = pairs_of(alloc, line)?.into_vec();
    command_of_pairs(alloc, pairs.as_mut_slice())
}

/// The command of a line whose end is cut off. A bad line is `Cmd::Refused` with its code's number. That an automation of
/// this name is missing, that a helper is reported, and what the text of a reload is, is found where the line is put.
#[tactic(auto, unfolding(crate::specs::Command::cmd_of))]
pub fn read_cmd(alloc: Global, line: &[u8]) -> Result<Cmd, AllocError>
    // Which command or refusal it is.
    ensures exact { IfOk result (λ made. made ≡ cmd_of line.now) }
    // What is put for it is fair, whatever automations, helpers and Reloads stand, and whatever a Reload's text is read as.
    ensures fair { IfOk result (λ made. (read : Text → Option Configuration) (has : Text → Bool) (helps : EntityId → Bool) (more : Bool)
        → IsFairAmong has helps more (put_among has helps more (prepared read made))) }
{
    match command_of(alloc, line) {
        Ok(made) => Ok(made),
        Err(Stop::Memory) => Err(AllocError),
        Err(Stop::Fault(refusal)) => Ok(Cmd::Refused(refusal.code())),
    }
}
