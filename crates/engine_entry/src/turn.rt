//! Automations that an entry turns on or off: their switches, their states and their triggers.
ghost use Rattle.std.specs.Prelude.{◌≡◌, ◌<◌, ◌≤◌, ◌++◌, ◌∷◌, [], ℕ, IsNone, IsTrue, IfOk, OnOk, true, false, codes, length, if◌then◌else◌};
ghost use Rattle.ha_value.specs.declared.value.EntityId.{EntityId as Id};
ghost use Rattle.ha_journal.specs.Journal.{Journal};
ghost use Rattle.ha_config.specs.Sound.{are_sound_triggers};
ghost use Rattle.state_table.specs.Anew.{switch_object};
ghost use Rattle.state_table.specs.Table.{ChangesAt, at as state_at};
ghost use Rattle.ha_past.specs.Firings.{owner_named, placed, without_owner};
ghost use Rattle.trig_set.specs.Stands.{StandsFor, attached};
ghost use Rattle.engine_entry.specs.Between.{Between, Turning, TurnsAll, TurnsOne};
ghost use Rattle.engine_parts.specs.Owners.{AreBelow};
ghost use Rattle.engine_parts.specs.Runs.{first_wait};
ghost use Rattle.engine_parts.specs.Stages.{Entered};
ghost use Rattle.engine_entry.specs.Turned.{entity_named, is_target, less};

use engine_parts::parts::Parts;
use engine_parts::see::copied;
use ha_clock::Moment;
use ha_config::{Automation, Config};
use ha_value::{EntityId, Many, Word};
use segment_view::{Segment, rule_of};
use state_table::StateTable;
use std::alloc::{AllocError, Global};
use trig_set::{Before, TrigSet};

/// The entity of the automation of this name.
pub fn entity_of(alloc: Global, name: &Word) -> Result<EntityId, AllocError>
    ensures { IfOk result (λ e. e ≡ entity_named name.now) }
{
    EntityId::of_parts(alloc, "automation", name.as_str())
}

/// The state of an automation is that of its new switch; the one that it had is listed.
pub(crate) fn see_switch(
    states: &mut StateTable,
    alloc: Global,
    name: &Word,
    on: bool,
    now: Moment,
    before: &mut Before,
) -> Result<(), AllocError>
    ensures changes { OnOk result (ChangesAt states.old states.new (entity_named name.now) (Some (switch_object on now))) }
    ensures listed { OnOk result (before.new ≡ before.old ++ (entity_named name.now, state_at states.old (entity_named name.now)) ∷ []) }
{
    let entity = entity_of(alloc, name)?;
    let old = copied(alloc, states.get(&entity))?;
    states.set_switch(alloc, &entity, on, now)?;
    before.push(alloc, (entity, old))?;
    Ok(())
}

/// The triggers of an automation are attached where it is turned on at this place, and else detached.
fn attach_switch(
    triggers: &mut TrigSet,
    alloc: Global,
    automation: u32,
    rule: &Automation,
    on: bool,
    place: u64,
) -> Result<(), AllocError>
    requires fresh { on ≡ true → IsNone (owner_named automation (attached triggers.old)) }
    requires sound { IsTrue (are_sound_triggers rule.now.triggers) }
    ensures owners { OnOk result (attached triggers.new
        ≡ (if on then placed (record { owner = automation; triggers = rule.now.triggers; since = place }) (attached triggers.old) else without_owner automation (attached triggers.old))) }
    ensures stands { OnOk result ((j : Journal) → StandsFor triggers.old j → length j ≤ place → StandsFor triggers.new j) }
{
    if on {
        triggers.attach(alloc, automation as u64, &rule.triggers, place)?;
        Ok(())
    } else {
        triggers.detach(automation as u64);
        Ok(())
    }
}

/// One automation is turned on or off at this place; where its switch changes, so do its state and its triggers.
fn turn(
    parts: &mut Parts,
    alloc: Global,
    rule: &Automation,
    automation: u32,
    on: bool,
    place: u64,
    before: &mut Before,
) -> Result<(), AllocError>
    requires { TurnsOne rule.now automation on place parts.old before.old }
    ensures turned { OnOk result ((h : TurnsOne rule.now automation on place parts.old before.old) → Between h.j h.x (less h.left automation) parts.new before.new) }
    ensures rest { OnOk result (parts.new ≡ record parts.old { states = parts.new.states; switches = parts.new.switches; triggers = parts.new.triggers; changed = parts.new.changed }) }
    ensures below { OnOk result ((n : ℕ) → first_wait ≤ n → AreBelow n (attached parts.old.triggers) → AreBelow n (attached parts.new.triggers)) }
{
    if parts.switches.set(automation, on) {
        see_switch(&mut parts.states, alloc, &rule.name, on, parts.at, before)?;
        attach_switch(&mut parts.triggers, alloc, automation, rule, on, place)?;
        parts.changed = true;
        Ok(())
    } else {
        Ok(())
    }
}

/// They are turned in turn.
fn turn_all(
    parts: &mut Parts,
    alloc: Global,
    config: &Config,
    targets: &[(u32, bool, bool)],
    place: u64,
    before: &mut Before,
) -> Result<(), AllocError>
    requires { TurnsAll config.now targets.now place parts.old before.old }
    ensures turned { OnOk result ((h : TurnsAll config.now targets.now place parts.old before.old) → Between h.j h.x (is_target []) parts.new before.new) }
    ensures rest { OnOk result (parts.new ≡ record parts.old { states = parts.new.states; switches = parts.new.switches; triggers = parts.new.triggers; changed = parts.new.changed }) }
    ensures below { OnOk result ((n : ℕ) → first_wait ≤ n → AreBelow n (attached parts.old.triggers) → AreBelow n (attached parts.new.triggers)) }
{
    'targets: for at in 0..targets.len() {
        let automation = targets[at].0;
        let rule = rule_of(config, parts.numbers.as_slice(), automation);
        turn(parts, alloc, rule, automation, targets[at].1, place, before)?;
    }
    Ok(())
}

/// The last entry turns these automations: each with its new switch, in order, and no automation twice. The answer lists the states that it
/// changes, as they were.
pub fn enter_switches(
    parts: &mut Parts,
    alloc: Global,
    journal: &Segment<'_>,
    targets: &[(u32, bool, bool)],
) -> Result<Before, AllocError>
    requires { Turning journal.now targets.now parts.old }
    ensures entered { IfOk result (λ before. Entered journal.now parts.new before) }
    ensures rest { OnOk result (parts.new ≡ record parts.old { states = parts.new.states; switches = parts.new.switches; triggers = parts.new.triggers; given = parts.new.given; changed = parts.new.changed }) }
    ensures below { OnOk result ((n : ℕ) → first_wait ≤ n → AreBelow n (attached parts.old.triggers) → AreBelow n (attached parts.new.triggers)) }
{
    let mut before = Before::make(alloc);
    parts.given = Many::make(alloc);
    parts.changed = false;
    turn_all(
        parts,
        alloc,
        journal.configuration(),
        targets,
        journal.place(),
        &mut before,
    )?;
    Ok(before)
}
