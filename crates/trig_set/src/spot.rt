//! What is kept for one trigger and one of its entities, and what an entry makes of it.
ghost use Rattle.std.specs.Prelude.{◌≡◌, ◌≤◌, ◌+◌, IfOk, OnOk, Some, None, length, is_some, is_none, true, option_map, if◌then◌else◌};
ghost use Rattle.std.specs.Option.{option_copied};
ghost use Rattle.ha_clock.specs.Local.{last_moment};
ghost use Rattle.ha_journal.specs.Journal.{Journal, more};
ghost use Rattle.ha_journal.specs.Moves.{sight};
ghost use Rattle.trig_set.specs.Kept.{Keeps, Moved, Settles, holding, holds_well, is_true, place_of};
ghost use Rattle.ha_past.specs.Looks.{Holding, or_else, stays_watched};
ghost use Rattle.trig_set.specs.Scenes.{Shows};

use crate::moved::stays;
use crate::moving::given;
use crate::scene::Scene;
use ha_clock::{Moment, Span};
use ha_config::Trigger;
use ha_sight::TriggerData;
use ha_value::EntityId;
use std::alloc::{AllocError, Global};

/// A hold (`for`) that is pending.
#[derive(Drop)]
pub struct Held {
    /// It is over where Now is at least this.
    pub due: Moment,
    /// The variables of the trigger, from the entry at which it moved.
    pub value: TriggerData,
}

/// One trigger and one of its entities.
#[derive(Drop)]
pub struct Spot {
    /// The index of the trigger in its owner's list.
    pub trigger: u32,
    /// None where the trigger has no entities.
    pub entity: Option<EntityId>,
    pub hold: Option<Held>,
    /// The variables with which it fires at the entry that is noted.
    pub fired: Option<TriggerData>,
    /// Whether the trigger's template was true after the entry noted last.
    pub was: bool,
}

/// The hold that begins where a trigger moves.
fn begun(to: Moment, span: Span, given: Option<TriggerData>) -> Option<Held>
    requires { to ≤ last_moment }
    ensures { option_map holding result ≡ option_map (λ v. record { due = to + span; value = v }) given }
{
    match given {
        Some(value) => Some(Held {
            due: to.plus(span),
            value,
        }),
        None => None,
    }
}

/// A hold ends where what it watches did not stay, and begins where the trigger moved and none is pending.
fn hold(to: Moment, span: Span, stayed: bool, given: Option<TriggerData>, spot: &mut Spot)
    requires { to ≤ last_moment }
    ensures hold { option_map holding spot.new.hold ≡ or_else (if stayed then option_map holding spot.old.hold else None) (option_map (λ v. record { due = to + span; value = v }) given) }
    ensures rest { spot.new ≡ record spot.old { hold = spot.new.hold } }
{
    if !stayed {
        spot.hold = None;
    }
    if spot.hold.is_none() {
        spot.hold = begun(to, span, given);
    }
}

/// A trigger with a `for` has its hold, and one without fires where it moved.
fn settle(to: Moment, span: Option<Span>, stayed: bool, given: Option<TriggerData>, spot: &mut Spot)
    requires { to ≤ last_moment }
    ensures { Settles span to stayed given spot.old spot.new }
{
    match span {
        Some(span) => hold(to, span, stayed, given, spot),
        None => spot.fired = given,
    }
}

/// What the entry makes of a spot, before the holds that are over fire; `is` says whether the trigger's template is true after it.
pub fn step(
    alloc: Global,
    scene: &Scene<'_>,
    trigger: &Trigger,
    since: u64,
    is: bool,
    spot: &mut Spot,
) -> Result<(), AllocError>
    requires { scene.now.to ≤ last_moment }
    ensures moved { OnOk result ((j : Journal) → Shows scene.now j since → holds_well trigger.now
        → is ≡ is_true (sight (more j scene.now.entry.now) (length (more j scene.now.entry.now))) trigger.now.rule
        → Keeps j trigger.now since spot.old → Moved j scene.now.entry.now trigger.now since spot.new) }
    ensures place { OnOk result (place_of spot.new ≡ place_of spot.old) }
{
    let given = given(
        alloc,
        scene,
        trigger,
        since,
        is,
        spot.was,
        spot.entity.as_ref(),
    )?;
    let stayed = stays(scene, &trigger.rule, spot.entity.as_ref(), is, spot.was);
    settle(scene.to, trigger.hold, stayed, given, spot);
    spot.was = is;
    Ok(())
}
