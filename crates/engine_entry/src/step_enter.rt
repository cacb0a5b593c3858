//! What a step itself changes: the switches of the automations that its item names, with their states and triggers, or helpers with their
//! states. The answer lists the states that it changes, as they were.
ghost use Rattle.std.specs.Prelude.{◌≡◌, ◌||◌, [], false, is_some, not, nat_eq, ℕ, Option, IfOk, OnOk, List};
ghost use Rattle.std.specs.BTreeSet.{contains};
ghost use Rattle.std.specs.Ordering.{nat_cmp};
ghost use Rattle.ha_journal.specs.declared.entry.Entry.TheVariants.{Step};
ghost use Rattle.ha_sight.specs.declared.item.Item.{Item as Made};
ghost use Rattle.ha_sight.specs.declared.waiting.WaitAsk.{WaitAsk as Waited};
ghost use Rattle.ha_journal.specs.Journal.{Journal, more};
ghost use Rattle.ha_sight.specs.Sight.{switch_at};
ghost use Rattle.engine_entry.specs.Lasts.{AreLasts, AreSeen, kept_with, knows};
ghost use Rattle.engine_entry.specs.Stepping.{HelpedHere, IsTaken, StepEntered, StepHere, SwitchedHere};

use crate::turn::enter_switches;
use engine_parts::parts::Parts;
use engine_parts::texts::{events_of, tell_all};
use ha_journal::Entry;
use ha_sight::{HelperChange, Item};
use ha_value::Many;
use segment_view::Segment;
use std::alloc::{AllocError, Global};
use std::collections::BTreeSet;
use switch_book::Switches;
use trig_set::Before;

/// The item of the last entry, which is a step.
fn last_item<'a>(journal: &'a Segment<'_>, parts: &Parts) -> &'a Item
    requires { StepHere journal.now parts.now }
    ensures { (j : Journal) (worker serial : ℕ) (branch : List ℕ) (item : Made) → journal.entry.now ≡ more j (Step worker serial branch item) → result.now ≡ item }
{
    match journal.last_entry() {
        Entry::Step { item, .. } => item,
        _ => unreachable!(),
    }
}

/// A step that switches nothing, and changes no helper, changes nothing itself.
fn enter_none(parts: &mut Parts, alloc: Global) -> Before
    ensures listed { result ≡ [] }
    ensures given { parts.new.given ≡ [] }
    ensures rest { parts.new ≡ record parts.old { given = parts.new.given; changed = false } }
{
    parts.given = Many::make(alloc);
    parts.changed = false;
    Before::make(alloc)
}

/// No automation is seen yet.
fn none_seen(alloc: Global) -> BTreeSet<u32>
    ensures { AreSeen result [] }
{
    BTreeSet::new(alloc)
}

/// An automation is seen; the answer is whether it was not before.
fn see(seen: &mut BTreeSet<u32>, automation: u32) -> Result<bool, AllocError>
    ensures new { IfOk result (λ new. new ≡ not (contains nat_cmp seen.old automation)) }
    ensures seen { OnOk result ((a : ℕ) → contains nat_cmp seen.new a ≡ (contains nat_cmp seen.old a || nat_eq automation a)) }
{
    match seen.insert(automation) {
        Ok(new) => Ok(new),
        Err(_) => Err(AllocError),
    }
}

/// Whether an automation of this number is in force.
fn is_known(switches: &Switches, automation: u32) -> bool
    ensures { result ≡ is_some (switch_at switches.now automation) }
{
    match switches.is_on(automation) {
        Some(_) => true,
        None => false,
    }
}

/// A target is kept, where it is of an automation in force, and of none that is seen already.
fn keep(
    kept: &mut Vec<(u32, bool, bool)>,
    seen: &mut BTreeSet<u32>,
    target: (u32, bool, bool),
    switches: &Switches,
) -> Result<(), AllocError>
    requires { AreSeen seen.old kept.old.items }
    ensures kept { OnOk result (kept.new.items ≡ kept_with (knows switches.now) kept.old.items target) }
    ensures seen { OnOk result (AreSeen seen.new kept.new.items) }
{
    if !is_known(switches, target.0) {
        return Ok(());
    }
    let new = see(seen, target.0)?;
    if new {
        kept.push(target)?;
        return Ok(());
    }
    Ok(())
}

/// The last target of each automation in force that is one.
fn last_targets(
    alloc: Global,
    targets: &[(u32, bool, bool)],
    switches: &Switches,
) -> Result<Vec<(u32, bool, bool)>, AllocError>
    ensures { IfOk result (λ kept. AreLasts (knows switches.now) targets.now kept.items) }
{
    let mut kept = Vec::new(alloc);
    let mut seen = none_seen(alloc);
    let mut left = targets.len();
    'targets: while 0 < left {
        left -= 1;
        keep(&mut kept, &mut seen, targets[left], switches)?;
    }
    Ok(kept)
}

/// The automations that a step switches: of several targets of one automation the last counts.
fn enter_targets(
    parts: &mut Parts,
    alloc: Global,
    journal: &Segment<'_>,
    targets: &Many<(u32, bool, bool)>,
) -> Result<Before, AllocError>
    requires { SwitchedHere journal.now parts.old targets.now }
    ensures entered { IfOk result (λ before. (wait : Option Waited) → IsTaken wait parts.old.waits → StepEntered journal.now parts.new before wait) }
    ensures rest { OnOk result (parts.new ≡ record parts.old { states = parts.new.states; switches = parts.new.switches; triggers = parts.new.triggers; given = parts.new.given; changed = parts.new.changed }) }
{
    let last = last_targets(alloc, targets.as_slice(), &parts.switches)?;
    let before = enter_switches(parts, alloc, journal, last.as_slice())?;
    Ok(before)
}

/// The helpers that a step changes.
fn enter_changes(
    parts: &mut Parts,
    alloc: Global,
    journal: &Segment<'_>,
    changes: &Many<HelperChange>,
) -> Result<Before, AllocError>
    requires { HelpedHere journal.now parts.old changes.now }
    ensures entered { IfOk result (λ before. (wait : Option Waited) → IsTaken wait parts.old.waits → StepEntered journal.now parts.new before wait) }
    ensures rest { OnOk result (parts.new ≡ record parts.old { states = parts.new.states; helpers = parts.new.helpers; given = parts.new.given; changed = parts.new.changed }) }
{
    let all = changes.as_slice();
    parts.helpers.apply(alloc, changes, parts.at)?;
    let before = tell_all(&mut parts.states, alloc, all, parts.at)?;
    let events = events_of(alloc, all)?;
    parts.given = events;
    parts.changed = false;
    Ok(before)
}

/// All of it.
pub fn enter_step(
    parts: &mut Parts,
    alloc: Global,
    journal: &Segment<'_>,
) -> Result<Before, AllocError>
    requires { StepHere journal.now parts.old }
    ensures entered { IfOk result (λ before. (wait : Option Waited) → IsTaken wait parts.old.waits → StepEntered journal.now parts.new before wait) }
    ensures rest { OnOk result (parts.new ≡ record parts.old { states = parts.new.states; helpers = parts.new.helpers; switches = parts.new.switches; triggers = parts.new.triggers; given = parts.new.given; changed = parts.new.changed }) }
{
    match last_item(journal, parts) {
        Item::Switched(targets) => enter_targets(parts, alloc, journal, targets),
        Item::Helped(changes) => enter_changes(parts, alloc, journal, changes),
        Item::Nothing => Ok(enter_none(parts, alloc)),
        Item::Call { .. } => Ok(enter_none(parts, alloc)),
        Item::Fired { .. } => Ok(enter_none(parts, alloc)),
        Item::Triggered { .. } => Ok(enter_none(parts, alloc)),
        Item::Failed(_) => Ok(enter_none(parts, alloc)),
        Item::Started { .. } => Ok(enter_none(parts, alloc)),
        Item::Halted(_) => Ok(enter_none(parts, alloc)),
    }
}
