//! Items in the trace.
ghost use Rattle.std.specs.Prelude.{◌≡◌, ◌++◌, map, OnOk};
ghost use Rattle.ha_sight.specs.ItemText.{item_text, script_text, switched_text};
ghost use Rattle.ha_config.specs.Names.{name_in};
ghost use Rattle.ha_config.specs.ValueText.{list_text, quoted};
ghost use Rattle.ha_sight.specs.declared.item.Item.TheVariants.{Call, Failed, Fired, Halted, Started, Switched, Triggered};

use crate::call::push_call;
use crate::helped::push_helped;
use crate::names::{push_failure_code, push_flag, push_name, push_script};
use flow_line::{push_comma, push_pairs, push_quoted};
use ha_sight::Item;
use ha_value::{EntityId, Many, Value, Word};
use std::alloc::{AllocError, Global};

fn push_called(
    alloc: Global,
    text: &mut Word,
    units: &Many<Word>,
    service: &Word,
    target: &[EntityId],
    fields: &[(Word, Value)],
) -> Result<(), AllocError>
    ensures { OnOk result (text.new ≡ text.old ++ item_text units.now (Call service.now target.now fields.now)) }
{
    text.push_str("{\"call\":")?;
    text.push_byte(b'{')?;
    push_call(alloc, text, service, target, fields)?;
    text.push_byte(b'}')?;
    text.push_byte(b'}')?;
    Ok(())
}

fn push_fired(
    alloc: Global,
    text: &mut Word,
    units: &Many<Word>,
    kind: &Word,
    pairs: &[(Word, Value)],
) -> Result<(), AllocError>
    ensures { OnOk result (text.new ≡ text.old ++ item_text units.now (Fired kind.now pairs.now)) }
{
    text.push_str("{\"fired\":")?;
    text.push_str("{\"event\":")?;
    push_quoted(text, kind.as_str())?;
    text.push_str(",\"data\":")?;
    push_pairs(alloc, text, pairs)?;
    text.push_byte(b'}')?;
    text.push_byte(b'}')?;
    Ok(())
}

/// Appends an automation that was switched.
fn push_turn(
    text: &mut Word,
    units: &Many<Word>,
    target: (u32, bool, bool),
) -> Result<(), AllocError>
    ensures { OnOk result (text.new ≡ text.old ++ switched_text units.now target) }
{
    text.push_str("{\"automation\":")?;
    push_name(text, units, target.0)?;
    text.push_str(",\"on\":")?;
    push_flag(text, target.1)?;
    text.push_str(",\"stop\":")?;
    push_flag(text, target.2)?;
    text.push_byte(b'}')?;
    Ok(())
}

fn push_turns(
    text: &mut Word,
    units: &Many<Word>,
    targets: &[(u32, bool, bool)],
) -> Result<(), AllocError>
    ensures { OnOk result (text.new ≡ text.old ++ list_text (map (switched_text units.now) targets.now)) }
{
    text.push_byte(b'[')?;
    for i in 0..targets.len() {
        push_comma(text, i)?;
        let target = &targets[i];
        push_turn(text, units, *target)?;
    }
    text.push_byte(b']')
}

fn push_switched(
    text: &mut Word,
    units: &Many<Word>,
    targets: &[(u32, bool, bool)],
) -> Result<(), AllocError>
    ensures { OnOk result (text.new ≡ text.old ++ item_text units.now (Switched targets.now)) }
{
    text.push_str("{\"switched\":")?;
    push_turns(text, units, targets)?;
    text.push_byte(b'}')?;
    Ok(())
}

fn push_asked(text: &mut Word, units: &Many<Word>, asked: &[u32]) -> Result<(), AllocError>
    ensures { OnOk result (text.new ≡ text.old ++ list_text (map (λ a. quoted (name_in units.now a)) asked.now)) }
{
    text.push_byte(b'[')?;
    for i in 0..asked.len() {
        push_comma(text, i)?;
        let at = &asked[i];
        push_name(text, units, *at)?;
    }
    text.push_byte(b']')
}

fn push_triggered(
    text: &mut Word,
    units: &Many<Word>,
    asked: &[u32],
    skip: bool,
) -> Result<(), AllocError>
    ensures { OnOk result (text.new ≡ text.old ++ item_text units.now (Triggered asked.now skip)) }
{
    text.push_str("{\"triggered\":")?;
    text.push_str("{\"automations\":")?;
    push_asked(text, units, asked)?;
    text.push_str(",\"skip_condition\":")?;
    push_flag(text, skip)?;
    text.push_byte(b'}')?;
    text.push_byte(b'}')?;
    Ok(())
}

fn push_failed(
    alloc: Global,
    text: &mut Word,
    units: &Many<Word>,
    code: u8,
) -> Result<(), AllocError>
    ensures { OnOk result (text.new ≡ text.old ++ item_text units.now (Failed code)) }
{
    text.push_str("{\"failed\":")?;
    push_failure_code(alloc, text, code)?;
    text.push_byte(b'}')?;
    Ok(())
}

fn push_scripts(text: &mut Word, units: &Many<Word>, scripts: &[u32]) -> Result<(), AllocError>
    ensures { OnOk result (text.new ≡ text.old ++ list_text (map (script_text units.now) scripts.now)) }
{
    text.push_byte(b'[')?;
    for i in 0..scripts.len() {
        push_comma(text, i)?;
        let at = &scripts[i];
        push_script(text, units, *at)?;
    }
    text.push_byte(b']')
}

fn push_started(
    alloc: Global,
    text: &mut Word,
    units: &Many<Word>,
    scripts: &[u32],
    fields: &[(Word, Value)],
    waits: bool,
) -> Result<(), AllocError>
    ensures { OnOk result (text.new ≡ text.old ++ item_text units.now (Started scripts.now fields.now waits)) }
{
    text.push_str("{\"started\":")?;
    text.push_str("{\"scripts\":")?;
    push_scripts(text, units, scripts)?;
    text.push_str(",\"data\":")?;
    push_pairs(alloc, text, fields)?;
    text.push_str(",\"waits\":")?;
    push_flag(text, waits)?;
    text.push_byte(b'}')?;
    text.push_byte(b'}')?;
    Ok(())
}

fn push_halted(text: &mut Word, units: &Many<Word>, scripts: &[u32]) -> Result<(), AllocError>
    ensures { OnOk result (text.new ≡ text.old ++ item_text units.now (Halted scripts.now)) }
{
    text.push_str("{\"halted\":")?;
    push_scripts(text, units, scripts)?;
    text.push_byte(b'}')?;
    Ok(())
}

/// Appends an item.
pub(crate) fn push_item(
    alloc: Global,
    text: &mut Word,
    units: &Many<Word>,
    item: &Item,
) -> Result<(), AllocError>
    ensures { OnOk result (text.new ≡ text.old ++ item_text units.now item.now) }
{
    match item {
        Item::Nothing => text.push_str("{\"nothing\":true}"),
        Item::Call {
            service,
            target,
            fields,
        } => push_called(
            alloc,
            text,
            units,
            service,
            target.as_slice(),
            fields.as_slice(),
        ),
        Item::Fired { kind, pairs } => push_fired(alloc, text, units, kind, pairs.as_slice()),
        Item::Switched(targets) => push_switched(text, units, targets.as_slice()),
        Item::Triggered { automations, skip } => {
            push_triggered(text, units, automations.as_slice(), *skip)
        }
        Item::Failed(code) => push_failed(alloc, text, units, *code),
        Item::Started {
            scripts,
            fields,
            waits,
        } => push_started(
            alloc,
            text,
            units,
            scripts.as_slice(),
            fields.as_slice(),
            *waits,
        ),
        Item::Halted(scripts) => push_halted(text, units, scripts.as_slice()),
        Item::Helped(changes) => push_helped(text, units, changes.as_slice()),
    }
}
