//! The automations at the opening of a segment, which are all set anew: their states and triggers.
ghost use Rattle.std.specs.Prelude.{◌≡◌, ◌+◌, ◌≤◌, IsNone, IsTrue, OnOk, true, length, if◌then◌else◌};
ghost use Rattle.ha_config.specs.Numbered.{has_number};
ghost use Rattle.ha_journal.specs.Journal.{Journal, in_force};
ghost use Rattle.ha_config.specs.Sound.{are_sound_triggers};
ghost use Rattle.ha_journal.specs.Switches.{is_on};
ghost use Rattle.ha_past.specs.Firings.{owner_named, placed};
ghost use Rattle.switch_book.specs.Book as book;
ghost use Rattle.trig_set.specs.Stands.{StandsFor, attached};
ghost use Rattle.engine_entry.specs.Opened.{AllOpened, Opened, Opening, OpensOne};

use crate::turn::entity_of;
use ha_clock::Moment;
use ha_config::Automation;
use state_table::StateTable;
use std::alloc::{AllocError, Global};
use switch_book::Switches;
use trig_set::TrigSet;

/// Whether an automation is on.
pub fn on_of(switches: &Switches, automation: u32) -> bool
    ensures { (j : Journal) → book.StandsFor switches.now j → has_number (in_force j) automation ≡ true → result ≡ is_on j automation }
{
    match switches.is_on(automation) {
        Some(on) => on,
        None => false,
    }
}

/// The triggers of an automation that is on are attached.
fn attach_on(
    triggers: &mut TrigSet,
    alloc: Global,
    automation: u32,
    rule: &Automation,
    on: bool,
    place: u64,
) -> Result<(), AllocError>
    requires fresh { IsNone (owner_named automation (attached triggers.old)) }
    requires sound { IsTrue (are_sound_triggers rule.now.triggers) }
    ensures owners { OnOk result (attached triggers.new ≡ (if on then placed (record { owner = automation; triggers = rule.now.triggers; since = place }) (attached triggers.old) else attached triggers.old)) }
    ensures stands { OnOk result ((j : Journal) → StandsFor triggers.old j → length j ≤ place → StandsFor triggers.new j) }
{
    if on {
        triggers.attach(alloc, automation as u64, &rule.triggers, place)?;
        Ok(())
    } else {
        Ok(())
    }
}

/// One automation is set.
fn open_one(
    states: &mut StateTable,
    triggers: &mut TrigSet,
    alloc: Global,
    rule: &Automation,
    automation: u32,
    on: bool,
    place: u64,
    now: Moment,
) -> Result<(), AllocError>
    requires { OpensOne rule.now automation on place now states.old triggers.old }
    ensures { OnOk result ((h : OpensOne rule.now automation on place now states.old triggers.old) → Opened h.j h.x (automation + 1) states.new triggers.new) }
{
    let entity = entity_of(alloc, &rule.name)?;
    states.set_switch(alloc, &entity, on, now)?;
    attach_on(triggers, alloc, automation, rule, on, place)?;
    Ok(())
}

/// All are set.
pub fn open_all(
    states: &mut StateTable,
    triggers: &mut TrigSet,
    alloc: Global,
    switches: &Switches,
    rules: &[Automation],
    place: u64,
    now: Moment,
) -> Result<(), AllocError>
    requires { Opening rules.now place now switches.now states.old triggers.old }
    ensures { OnOk result ((h : Opening rules.now place now switches.now states.old triggers.old) → AllOpened h.j h.x states.new triggers.new) }
{
    'rules: for at in 0..rules.len() {
        let automation = at as u32;
        let on = on_of(switches, automation);
        open_one(
            states, triggers, alloc, &rules[at], automation, on, place, now,
        )?;
    }
    Ok(())
}
