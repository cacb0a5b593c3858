//! The command of a printed map.

ghost use Rattle.std.specs.Prelude.{IfOk};
ghost use Rattle.flow_line.specs.Command.{IsInTime};
ghost use Rattle.flow_printed.specs.Map.{alone, cmd_by, cmd_of_map, event_of, gone_of, moment_of_map, refused_of, reload_of, report_of, switch_of, trigger_of, Says};

use crate::fields::{NoCommand, Pairs, Unread, end, take_flag, take_map, take_text};
use crate::kind::{Kind, first_kind};
use crate::parts::{
    automation, code_of, entity_of, printed_moment, reportable, short_state, turned,
};
use ha_config::Cmd;
use reading::Stop;
use std::alloc::Global;

#[tactic(auto, unfolding(crate::specs::Map::report_of))]
fn report(alloc: Global, pairs: &mut Pairs) -> Result<Cmd, Unread>
    ensures exact { Says (report_of pairs.old) result }
    ensures in_time { IfOk result IsInTime }
{
    let id = take_text(pairs, b"report")?;
    let text = take_text(pairs, b"state")?;
    let attributes = take_map(pairs, b"attributes")?;
    end(pairs)?;
    let entity = reportable(entity_of(alloc, &id)?)?;
    let text = short_state(text)?;
    Ok(Cmd::Report {
        entity,
        text,
        attributes,
    })
}

#[tactic(auto, unfolding(crate::specs::Map::gone_of))]
fn gone(alloc: Global, pairs: &mut Pairs) -> Result<Cmd, Unread>
    ensures exact { Says (gone_of pairs.old) result }
    ensures in_time { IfOk result IsInTime }
{
    let id = take_text(pairs, b"gone")?;
    end(pairs)?;
    let entity = reportable(entity_of(alloc, &id)?)?;
    Ok(Cmd::Gone { entity })
}

#[tactic(auto, unfolding(crate::specs::Map::event_of))]
fn event(pairs: &mut Pairs) -> Result<Cmd, Unread>
    ensures exact { Says (event_of pairs.old) result }
    ensures in_time { IfOk result IsInTime }
{
    let kind = take_text(pairs, b"event")?;
    let fields = take_map(pairs, b"data")?;
    end(pairs)?;
    Ok(Cmd::Event {
        kind,
        pairs: fields,
    })
}

#[tactic(auto, unfolding(crate::specs::Map::moment_of_map))]
fn moment(alloc: Global, pairs: &mut Pairs) -> Result<Cmd, Unread>
    ensures exact { Says (moment_of_map pairs.old) result }
    ensures in_time { IfOk result IsInTime }
{
    let text = take_text(pairs, b"moment")?;
    end(pairs)?;
    let at = printed_moment(alloc, text.bytes())?;
    Ok(Cmd::Moment(at))
}

#[tactic(auto, unfolding(crate::specs::Map::switch_of))]
fn switch(alloc: Global, pairs: &mut Pairs) -> Result<Cmd, Unread>
    ensures exact { Says (switch_of pairs.old) result }
    ensures in_time { IfOk result IsInTime }
{
    let id = take_text(pairs, b"switch")?;
    let to = take_text(pairs, b"to")?;
    let stop = take_flag(pairs, b"stop_actions")?;
    end(pairs)?;
    let on = turned(&to)?;
    let name = automation(alloc, entity_of(alloc, &id)?)?;
    Ok(Cmd::Switch { name, on, stop })
}

#[tactic(auto, unfolding(crate::specs::Map::trigger_of))]
fn trigger(alloc: Global, pairs: &mut Pairs) -> Result<Cmd, Unread>
    ensures exact { Says (trigger_of pairs.old) result }
    ensures in_time { IfOk result IsInTime }
{
    let id = take_text(pairs, b"trigger")?;
    let skip = take_flag(pairs, b"skip_condition")?;
    end(pairs)?;
    let name = automation(alloc, entity_of(alloc, &id)?)?;
    Ok(Cmd::Trigger { name, skip })
}

#[tactic(auto, unfolding(crate::specs::Map::reload_of))]
fn reload(pairs: &mut Pairs) -> Result<Cmd, Unread>
    ensures exact { Says (reload_of pairs.old) result }
    ensures in_time { IfOk result IsInTime }
{
    let text = take_text(pairs, b"reload")?;
    end(pairs)?;
    Ok(Cmd::Reload { text, config: None })
}

#[tactic(auto, unfolding(crate::specs::Map::refused_of))]
fn refused(pairs: &mut Pairs) -> Result<Cmd, Unread>
    ensures exact { Says (refused_of pairs.old) result }
    ensures in_time { IfOk result IsInTime }
{
    let text = take_text(pairs, b"refused")?;
    end(pairs)?;
    let code = code_of(&text)?;
    Ok(Cmd::Refused(code))
}

/// Takes the key that stands alone, and is true.
#[tactic(auto, unfolding(crate::specs::Map::alone))]
fn alone(pairs: &mut Pairs, key: &[u8]) -> Result<(), Unread>
    ensures { Says (alone key.now pairs.old) result }
{
    let flag = take_flag(pairs, key)?;
    end(pairs)?;
    if flag {
        Ok(())
    } else {
        Err(Stop::Fault(NoCommand))
    }
}

/// The command of its kind.
fn command_by(alloc: Global, kind: Kind, pairs: &mut Pairs) -> Result<Cmd, Unread>
    ensures exact { Says (cmd_by kind pairs.old) result }
    ensures in_time { IfOk result IsInTime }
{
    match kind {
        Kind::Report => report(alloc, pairs),
        Kind::Gone => gone(alloc, pairs),
        Kind::Event => event(pairs),
        Kind::Moment => moment(alloc, pairs),
        Kind::Switch => switch(alloc, pairs),
        Kind::Trigger => trigger(alloc, pairs),
        Kind::Restart => {
            alone(pairs, b"restart")?;
            Ok(Cmd::Restart)
        }
        Kind::Reload => reload(pairs),
        Kind::Refused => refused(pairs),
        Kind::Lost => {
            alone(pairs, b"lost")?;
            Ok(Cmd::Lost)
        }
        Kind::TooLong => {
            alone(pairs, b"too_long")?;
            Ok(Cmd::TooLong)
        }
    }
}

/// The command whose pairs these are.
#[tactic(auto, unfolding(crate::specs::Map::cmd_of_map))]
pub fn command_of(alloc: Global, pairs: &mut Pairs) -> Result<Cmd, Unread>
    ensures exact { Says (cmd_of_map pairs.old) result }
    ensures in_time { IfOk result IsInTime }
{
    match first_kind(pairs) {
        Some(kind) => command_by(alloc, kind, pairs),
        None => Err(Stop::Fault(NoCommand)),
    }
}
