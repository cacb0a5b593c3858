//! A reload: another configuration comes into force. The switches, the states and the triggers of its automations.
ghost use Rattle.std.specs.Prelude.{◌≡◌, ◌≤◌, ◌++◌, ◌∷◌, [], Some, None, IfOk, OnOk, IsNone, IsTrue, true, false, length, option_and_then, take, zip, if◌then◌else◌};
ghost use Rattle.std.specs.List.{list_all};
ghost use Rattle.ha_value.specs.declared.value.EntityId.{EntityId as Id};
ghost use Rattle.ha_config.specs.declared.config.Config.{Config as Settings};
ghost use Rattle.ha_config.specs.Sound.{are_sound_triggers, is_sound_automation};
ghost use Rattle.ha_past.specs.Firings.{owner_named, placed};
ghost use Rattle.ha_journal.specs.Journal.{Journal};
ghost use Rattle.ha_journal.specs.Switches.{same_switch};
ghost use Rattle.ha_sight.specs.Sight.{switch_at};
ghost use Rattle.state_table.specs.Anew.{switch_object};
ghost use Rattle.state_table.specs.Table.{ChangesAt, at as state_at};
ghost use Rattle.trig_set.specs.Stands.{StandsFor, attached};
ghost use Rattle.engine_entry.specs.Reloaded.{AreFresh, Entering, Halfway, HaveEntered, HaveLeft, IsSettled, Leaving, Reloading, has_name as has_name_lem, is_new_on, switch_by, with_new, without_all};
ghost use Rattle.engine_entry.specs.Turned.{entity_named};
ghost use Rattle.engine_parts.specs.Stages.{Entered};

use crate::names::{has_name, number_by};
use crate::open::on_of;
use crate::turn::{entity_of, see_switch};
use conf_reload::Plan;
use engine_parts::order::is_ascending;
use engine_parts::parts::Parts;
use engine_parts::see::copied;
use ha_clock::Moment;
use ha_config::{Automation, Config};
use ha_value::{Many, Word};
use segment_view::Segment;
use state_table::StateTable;
use std::alloc::{AllocError, Global};
use switch_book::Switches;
use trig_set::{Before, TrigSet};

// ---- the states

/// The state of an automation goes; the one that it had is listed.
fn see_left(
    states: &mut StateTable,
    alloc: Global,
    name: &Word,
    before: &mut Before,
) -> Result<(), AllocError>
    ensures changes { OnOk result (ChangesAt states.old states.new (entity_named name.now) None) }
    ensures listed { OnOk result (before.new ≡ before.old ++ (entity_named name.now, state_at states.old (entity_named name.now)) ∷ []) }
{
    let entity = entity_of(alloc, name)?;
    let old = copied(alloc, states.get(&entity))?;
    states.gone(&entity);
    before.push(alloc, (entity, old))?;
    Ok(())
}

/// The state of an automation goes, where the new configuration has none of its name.
fn leave_one(
    states: &mut StateTable,
    alloc: Global,
    new: &Config,
    name: &Word,
    before: &mut Before,
) -> Result<(), AllocError>
    ensures left { has_name_lem new.now name.now ≡ false → OnOk result (ChangesAt states.old states.new (entity_named name.now) None
        × (before.new ≡ before.old ++ (entity_named name.now, state_at states.old (entity_named name.now)) ∷ [])) }
    ensures same { has_name_lem new.now name.now ≡ true → OnOk result ((states.new ≡ states.old) × (before.new ≡ before.old)) }
{
    if has_name(new, name) {
        return Ok(());
    }
    see_left(states, alloc, name, before)?;
    Ok(())
}

/// The states of the automations go whose names the new configuration has not.
fn leave_all(
    states: &mut StateTable,
    alloc: Global,
    rules: &[Automation],
    new: &Config,
    before: &mut Before,
) -> Result<(), AllocError>
    ensures { OnOk result ((j k : Journal) → Leaving j k new.now states.old before.old → Halfway j k states.new before.new × HaveLeft j k new.now before.new rules.now) }
{
    'rules: for at in 0..rules.len() {
        leave_one(states, alloc, new, &rules[at].name, before)?;
    }
    Ok(())
}

/// The switch of a number, where there is one.
fn switch_of(switches: &Switches, number: Option<u32>) -> Option<bool>
    ensures { result ≡ option_and_then (switch_at switches.now) number }
{
    match number {
        Some(number) => switches.is_on(number),
        None => None,
    }
}

/// The switch of the automation of a name, where one was in force, by the numbers of the configuration's units.
fn switch_before(
    switches: &Switches,
    numbers: &Many<u32>,
    config: &Config,
    name: &Word,
) -> Option<bool>
    ensures { result ≡ switch_by switches.now numbers.now config.now name.now }
{
    let number = number_by(config, numbers, name);
    switch_of(switches, number)
}

/// Whether a name had this switch.
fn is_same(before: Option<bool>, on: bool) -> bool
    ensures { result ≡ same_switch before (Some on) }
{
    match before {
        Some(true) => on,
        Some(false) => !on,
        None => false,
    }
}

/// The state of an automation that comes into force is that of its switch, where its name had no switch, or another one.
fn enter_one(
    states: &mut StateTable,
    alloc: Global,
    name: &Word,
    was: Option<bool>,
    on: bool,
    now: Moment,
    before: &mut Before,
) -> Result<(), AllocError>
    ensures changed { same_switch was (Some on) ≡ false → OnOk result (ChangesAt states.old states.new (entity_named name.now) (Some (switch_object on now))
        × (before.new ≡ before.old ++ (entity_named name.now, state_at states.old (entity_named name.now)) ∷ [])) }
    ensures same { same_switch was (Some on) ≡ true → OnOk result ((states.new ≡ states.old) × (before.new ≡ before.old)) }
{
    if is_same(was, on) {
        return Ok(());
    }
    see_switch(states, alloc, name, on, now, before)?;
    Ok(())
}

/// The states of the automations that come into force: `had` has the numbers and `was` the switches of the old configuration, `switches` and
/// `numbers` are the new ones.
fn enter_all(
    states: &mut StateTable,
    alloc: Global,
    old: &Config,
    had: &Many<u32>,
    was: &Switches,
    rules: &[Automation],
    numbers: &[u32],
    switches: &Switches,
    now: Moment,
    before: &mut Before,
) -> Result<(), AllocError>
    requires { length rules.now ≤ length numbers.now }
    ensures { OnOk result ((j k : Journal) → Entering j k old.now had.now was.now rules.now numbers.now switches.now now → Halfway j k states.old before.old
        → Halfway j k states.new before.new × HaveEntered j k before.new rules.now × ((e : Id) → IsSettled j k before.old e → IsSettled j k before.new e)) }
{
    'rules: for at in 0..rules.len() {
        let name = &rules[at].name;
        let was_on = switch_before(was, had, old, name);
        let on = on_of(switches, numbers[at]);
        enter_one(states, alloc, name, was_on, on, now, before)?;
    }
    Ok(())
}

// ---- the triggers

/// The triggers of those that went are detached.
fn detach_gone(triggers: &mut TrigSet, gone: &[u32])
    ensures owners { attached triggers.new ≡ without_all gone.now (attached triggers.old) }
    ensures stands { (j : Journal) → StandsFor triggers.old j → StandsFor triggers.new j }
{
    'gone: for at in 0..gone.len() {
        triggers.detach(gone[at] as u64);
    }
}

/// Whether a number is new, and its automation on; `free` and all numbers from it on are new.
fn is_new_on(switches: &Switches, number: u32, free: u32) -> bool
    ensures { result ≡ is_new_on switches.now free number }
{
    if number < free {
        return false;
    }
    match switches.is_on(number) {
        Some(on) => on,
        None => false,
    }
}

/// The triggers of an automation are attached at this place, where it is new and on.
fn attach_if(
    triggers: &mut TrigSet,
    alloc: Global,
    rule: &Automation,
    number: u32,
    belongs: bool,
    place: u64,
) -> Result<(), AllocError>
    requires fresh { belongs ≡ true → IsNone (owner_named number (attached triggers.old)) }
    requires sound { IsTrue (are_sound_triggers rule.now.triggers) }
    ensures owners { OnOk result (attached triggers.new ≡ (if belongs then placed (record { owner = number; triggers = rule.now.triggers; since = place }) (attached triggers.old) else attached triggers.old)) }
    ensures stands { OnOk result ((j : Journal) → StandsFor triggers.old j → length j ≤ place → StandsFor triggers.new j) }
{
    if belongs {
        triggers.attach(alloc, number as u64, &rule.triggers, place)?;
        Ok(())
    } else {
        Ok(())
    }
}

/// The triggers of the new automations that are on are attached at this place.
fn attach_new(
    triggers: &mut TrigSet,
    alloc: Global,
    rules: &[Automation],
    numbers: &[u32],
    switches: &Switches,
    free: u32,
    place: u64,
) -> Result<(), AllocError>
    requires numbered { length rules.now ≤ length numbers.now }
    requires sound { list_all is_sound_automation rules.now ≡ true }
    requires fresh { AreFresh free (attached triggers.old) numbers.now }
    ensures owners { OnOk result (attached triggers.new ≡ with_new switches.now free place (zip numbers.now rules.now) (attached triggers.old)) }
    ensures stands { OnOk result ((j : Journal) → StandsFor triggers.old j → length j ≤ place → StandsFor triggers.new j) }
{
    'rules: for at in 0..rules.len() {
        let number = numbers[at];
        let belongs = is_new_on(switches, number, free);
        attach_if(triggers, alloc, &rules[at], number, belongs, place)?;
    }
    Ok(())
}

// ---- all of it

/// The numbers of the automations, of those of all units of a configuration.
fn rule_numbers<'a>(numbers: &'a Many<u32>, config: &Config) -> &'a [u32]
    requires { length config.now.automations ≤ length numbers.now }
    ensures { result.now ≡ take (length config.now.automations) numbers.now }
{
    &numbers.as_slice()[..config.automations.len()]
}

/// The reload that stands last: `old` was in force before it, and `plan` says what becomes of the numbers. The answer lists the states that
/// it changes, as they were.
pub fn enter_reload(
    parts: &mut Parts,
    alloc: Global,
    journal: &Segment<'_>,
    old: &Config,
    plan: Plan,
) -> Result<Before, AllocError>
    requires { (new : Settings) × Reloading journal.now old.now new plan parts.old }
    ensures entered { IfOk result (λ before. Entered journal.now parts.new before) }
    ensures rest { OnOk result (parts.new ≡ record parts.old { numbers = parts.new.numbers; free = parts.new.free; ascending = parts.new.ascending; states = parts.new.states; switches = parts.new.switches; triggers = parts.new.triggers; given = parts.new.given; changed = parts.new.changed }) }
{
    let new = journal.configuration();
    let rules = new.automations.as_slice();
    let Plan {
        numbers,
        gone,
        free,
        ..
    } = plan;
    let own = rule_numbers(&numbers, new);
    let switches = parts.switches.reload(alloc, new, own)?;
    let mut before = Before::make(alloc);
    leave_all(
        &mut parts.states,
        alloc,
        old.automations.as_slice(),
        new,
        &mut before,
    )?;
    enter_all(
        &mut parts.states,
        alloc,
        old,
        &parts.numbers,
        &parts.switches,
        rules,
        own,
        &switches,
        parts.at,
        &mut before,
    )?;
    detach_gone(&mut parts.triggers, gone.as_slice());
    attach_new(
        &mut parts.triggers,
        alloc,
        rules,
        own,
        &switches,
        parts.free,
        journal.place(),
    )?;
    parts.ascending = is_ascending(own);
    parts.free = free;
    parts.numbers = numbers;
    parts.switches = switches;
    parts.given = Many::make(alloc);
    parts.changed = false;
    Ok(before)
}
