//! Commands in the trace.
ghost use Rattle.std.specs.Prelude.{◌≡◌, ◌≤◌, ◌++◌, OnOk, Option};
ghost use Rattle.ha_clock.specs.Local.{last_moment};
ghost use Rattle.ha_config.specs.CommandText.{cmd_text};
ghost use Rattle.ha_config.specs.declared.config.Config.{Config as Configuration};
ghost use Rattle.ha_config.specs.declared.command.Cmd.TheVariants.{Event, Gone, Moment as At, Refused, Reload, Report, Switch, Trigger};
ghost use Rattle.ha_texts.specs.Lines.{IsDated, turned_text};

use crate::names::{push_automation, push_flag, push_line_code, push_moment};
use crate::parts::{push_bare_id, push_id, push_map};
use flow_line::{push_chars, push_pairs, push_quoted};
use ha_clock::Moment;
use ha_config::Cmd;
use ha_value::{EntityId, Value, Word};
use std::alloc::{AllocError, Global};

fn push_report(
    alloc: Global,
    text: &mut Word,
    entity: &EntityId,
    state: &Word,
    attributes: &[(Word, Value)],
) -> Result<(), AllocError>
    ensures { OnOk result (text.new ≡ text.old ++ cmd_text (Report entity.now state.now attributes.now)) }
{
    text.push_str("{\"report\":\"")?;
    push_bare_id(text, entity)?;
    text.push_str("\",\"state\":\"")?;
    push_chars(text, state.as_str())?;
    push_map(
        alloc,
        text,
        "\",\"attributes\":",
        "\",\"attributes\":{}",
        attributes,
    )?;
    text.push_byte(b'}')?;
    Ok(())
}

fn push_gone(text: &mut Word, entity: &EntityId) -> Result<(), AllocError>
    ensures { OnOk result (text.new ≡ text.old ++ cmd_text (Gone entity.now)) }
{
    text.push_str("{\"gone\":")?;
    push_id(text, entity)?;
    text.push_byte(b'}')?;
    Ok(())
}

fn push_event(
    alloc: Global,
    text: &mut Word,
    kind: &Word,
    pairs: &[(Word, Value)],
) -> Result<(), AllocError>
    ensures { OnOk result (text.new ≡ text.old ++ cmd_text (Event kind.now pairs.now)) }
{
    text.push_str("{\"event\":")?;
    push_quoted(text, kind.as_str())?;
    text.push_str(",\"data\":")?;
    push_pairs(alloc, text, pairs)?;
    text.push_byte(b'}')?;
    Ok(())
}

fn push_time(alloc: Global, text: &mut Word, at: Moment) -> Result<(), AllocError>
    requires { at ≤ last_moment }
    ensures { OnOk result (text.new ≡ text.old ++ cmd_text (At at)) }
{
    text.push_str("{\"moment\":")?;
    push_moment(alloc, text, at)?;
    text.push_byte(b'}')?;
    Ok(())
}

/// Appends what a switch is turned to.
fn push_turned(text: &mut Word, on: bool) -> Result<(), AllocError>
    ensures { OnOk result (text.new ≡ text.old ++ turned_text on) }
{
    if on {
        text.push_str("\"on\"")
    } else {
        text.push_str("\"off\"")
    }
}

fn push_switch(text: &mut Word, name: &Word, on: bool, stop: bool) -> Result<(), AllocError>
    ensures { OnOk result (text.new ≡ text.old ++ cmd_text (Switch name.now on stop)) }
{
    text.push_str("{\"switch\":")?;
    push_automation(text, name)?;
    text.push_str(",\"to\":")?;
    push_turned(text, on)?;
    text.push_str(",\"stop_actions\":")?;
    push_flag(text, stop)?;
    text.push_byte(b'}')?;
    Ok(())
}

fn push_trigger(text: &mut Word, name: &Word, skip: bool) -> Result<(), AllocError>
    ensures { OnOk result (text.new ≡ text.old ++ cmd_text (Trigger name.now skip)) }
{
    text.push_str("{\"trigger\":")?;
    push_automation(text, name)?;
    text.push_str(",\"skip_condition\":")?;
    push_flag(text, skip)?;
    text.push_byte(b'}')?;
    Ok(())
}

fn push_reload(text: &mut Word, shown: &Word) -> Result<(), AllocError>
    ensures { (config : Option Configuration) → OnOk result (text.new ≡ text.old ++ cmd_text (Reload shown.now config)) }
{
    text.push_str("{\"reload\":")?;
    push_quoted(text, shown.as_str())?;
    text.push_byte(b'}')?;
    Ok(())
}

fn push_refused(alloc: Global, text: &mut Word, code: u8) -> Result<(), AllocError>
    ensures { OnOk result (text.new ≡ text.old ++ cmd_text (Refused code)) }
{
    text.push_str("{\"refused\":")?;
    push_line_code(alloc, text, code)?;
    text.push_byte(b'}')?;
    Ok(())
}

/// Appends a command.
pub(crate) fn push_cmd(alloc: Global, text: &mut Word, cmd: &Cmd) -> Result<(), AllocError>
    requires { IsDated cmd.now }
    ensures { OnOk result (text.new ≡ text.old ++ cmd_text cmd.now) }
{
    match cmd {
        Cmd::Report {
            entity,
            text: state,
            attributes,
        } => push_report(alloc, text, entity, state, attributes.as_slice()),
        Cmd::Gone { entity } => push_gone(text, entity),
        Cmd::Event { kind, pairs } => push_event(alloc, text, kind, pairs.as_slice()),
        Cmd::Moment(at) => push_time(alloc, text, *at),
        Cmd::Switch { name, on, stop } => push_switch(text, name, *on, *stop),
        Cmd::Trigger { name, skip } => push_trigger(text, name, *skip),
        Cmd::Restart => text.push_str("{\"restart\":true}"),
        Cmd::Reload { text: shown, .. } => push_reload(text, shown),
        Cmd::Refused(code) => push_refused(alloc, text, *code),
        Cmd::Lost => text.push_str("{\"lost\":true}"),
        Cmd::TooLong => text.push_str("{\"too_long\":true}"),
    }
}
