//! The triggers of one owner, with what is kept for each of them.
ghost use Rattle.std.specs.Prelude.{◌≡◌, ◌≤◌, ◌<◌, ℕ, IfOk, OnOk, Some, None, ◌∷◌, ◌++◌, [], codes, nat_eq, length, map, filter_map, flat_map, false, slice_get, true, if◌then◌else◌};
ghost use Rattle.std.specs.List.{cons_option};
ghost use Rattle.ha_clock.specs.Local.{last_moment};
ghost use Rattle.timer_queue.specs.Timers.{distinct_keys, due_of};
ghost use Rattle.ha_config.specs.declared.config.Trigger.{Trigger};
ghost use Rattle.ha_journal.specs.Entries.{is_moment};
ghost use Rattle.ha_journal.specs.Journal.{Journal, more};
ghost use Rattle.ha_journal.specs.Moves.{sight};
ghost use Rattle.ha_past.specs.Firings.{firings_of};
ghost use Rattle.trig_set.specs.Kept.{All, At, AreTimed, AreWell, SpotsStand, Keeps, KeepsAt, Moved, MovedAt, cleared, due_in, firing_in, holds_well, is_true, place_of, ripened, ripened_if, taken, taken_at};
ghost use Rattle.trig_set.specs.Scenes.{Shows};
ghost use Rattle.trig_set.specs.Timed.{firings_in};

use crate::scene::Scene;
use crate::spot::{Spot, step};
use crate::timed::push_timed;
use ha_clock::Moment;
use ha_config::{Cmd, Trigger, TriggerRule};
use ha_journal::{Entry, Firing};
use ha_sight::{Answers, Env, TriggerData};
use ha_value::{Many, Plain};
use std::alloc::{AllocError, Global};
use timer_queue::TimerQueue;
use trig_template::template_true;

/// Whether the template of a rule is true; other rules have none.
pub fn now_true<A: Answers>(
    alloc: Global,
    rule: &TriggerRule,
    answers: &A,
) -> Result<bool, AllocError>
    ensures { IfOk result (λ b. b ≡ is_true (A.sight answers.now) rule.now) }
{
    match rule {
        TriggerRule::Template(template) => template_true(alloc, template, answers),
        _ => Ok(false),
    }
}

/// Sets the timer of a place, where its due changed.
pub fn retime(
    timers: &mut TimerQueue,
    place: u64,
    before: Option<Moment>,
    after: Option<Moment>,
) -> Result<(), AllocError>
    ensures dues { OnOk result (due_of place timers.old ≡ before → (n : ℕ) → due_of n timers.new ≡ (if nat_eq place n then after else due_of n timers.old)) }
    ensures distinct { OnOk result (distinct_keys timers.old ≡ true → distinct_keys timers.new ≡ true) }
{
    if before == after {
        return Ok(());
    }
    timers.remove(place);
    let Some(due) = after else {
        return Ok(());
    };
    match timers.insert(due, place) {
        Ok(()) => Ok(()),
        Err(_) => Err(AllocError),
    }
}

/// The due of a spot's hold, if it has one.
fn due(spot: &Spot) -> Option<Moment>
    ensures { result ≡ due_in spot.now }
{
    match &spot.hold {
        Some(held) => Some(held.due),
        None => None,
    }
}

/// What the entry makes of the spot at a place, and of its timer.
fn step_one<A: Answers>(
    alloc: Global,
    scene: &Scene<'_>,
    answers: &A,
    trigger: &Trigger,
    since: u64,
    place: u64,
    spot: &mut Spot,
    timers: &mut TimerQueue,
) -> Result<(), AllocError>
    requires { scene.now.to ≤ last_moment }
    ensures moved { OnOk result ((j : Journal) → Shows scene.now j since → A.sight answers.now ≡ sight (more j scene.now.entry.now) (length (more j scene.now.entry.now))
        → holds_well trigger.now → Keeps j trigger.now since spot.old → Moved j scene.now.entry.now trigger.now since spot.new) }
    ensures same_place { OnOk result (place_of spot.new ≡ place_of spot.old) }
    ensures dues { OnOk result (due_of place timers.old ≡ due_in spot.old → (n : ℕ) → due_of n timers.new ≡ (if nat_eq place n then due_in spot.new else due_of n timers.old)) }
    ensures distinct { OnOk result (distinct_keys timers.old ≡ true → distinct_keys timers.new ≡ true) }
{
    let before = due(spot);
    let is = now_true(alloc, &trigger.rule, answers)?;
    step(alloc, scene, trigger, since, is, spot)?;
    retime(timers, place, before, due(spot))
}

/// The same, of the spot at a place of the list.
pub fn step_at<A: Answers>(
    alloc: Global,
    scene: &Scene<'_>,
    answers: &A,
    triggers: &Many<Trigger>,
    since: u64,
    place: usize,
    spots: &mut [Spot],
    timers: &mut TimerQueue,
) -> Result<(), AllocError>
    requires in_time { scene.now.to ≤ last_moment }
    requires within { place < length spots.old }
    ensures moved { OnOk result ((j : Journal) → Shows scene.now j since → A.sight answers.now ≡ sight (more j scene.now.entry.now) (length (more j scene.now.entry.now))
        → AreWell triggers.now → At spots.old place (KeepsAt j triggers.now since) → At spots.new place (MovedAt j scene.now.entry.now triggers.now since)) }
    ensures elsewhere { OnOk result ((n : ℕ) → nat_eq place n ≡ false → slice_get spots.new n ≡ slice_get spots.old n) }
    ensures places { OnOk result (map place_of spots.new ≡ map place_of spots.old) }
    ensures timed { OnOk result (AreTimed timers.old spots.old → AreTimed timers.new spots.new) }
{
    let Some(trigger) = triggers.get(spots[place].trigger as usize) else {
        return Ok(());
    };
    step_one(
        alloc,
        scene,
        answers,
        trigger,
        since,
        place as u64,
        &mut spots[place],
        timers,
    )
}

/// The same, of all spots.
fn step_all<A: Answers>(
    alloc: Global,
    scene: &Scene<'_>,
    answers: &A,
    triggers: &Many<Trigger>,
    since: u64,
    spots: &mut [Spot],
    timers: &mut TimerQueue,
) -> Result<(), AllocError>
    requires { scene.now.to ≤ last_moment }
    ensures moved { OnOk result ((j : Journal) → Shows scene.now j since → A.sight answers.now ≡ sight (more j scene.now.entry.now) (length (more j scene.now.entry.now))
        → AreWell triggers.now → All spots.old (KeepsAt j triggers.now since) → All spots.new (MovedAt j scene.now.entry.now triggers.now since)) }
    ensures places { OnOk result (map place_of spots.new ≡ map place_of spots.old) }
    ensures timed { OnOk result (AreTimed timers.old spots.old → AreTimed timers.new spots.new) }
{
    for place in 0..spots.len() {
        step_at(alloc, scene, answers, triggers, since, place, spots, timers)?;
    }
    Ok(())
}

/// The hold of a spot fires.
fn take(spot: &mut Spot)
    ensures { spot.new ≡ taken spot.old }
{
    if let Some(held) = spot.hold.take() {
        spot.fired = Some(held.value);
    }
}

/// The hold of the spot at a place fires, if there is one.
pub fn take_at(place: u64, spots: &mut [Spot])
    ensures { spots.new ≡ taken_at place spots.old }
{
    if (place as usize) < spots.len() {
        take(&mut spots[place as usize]);
    }
}

/// The holds that are over at a moment fire.
fn ripen(to: Moment, spots: &mut [Spot], timers: &mut TimerQueue)
    ensures { AreTimed timers.old spots.old → (spots.new ≡ map (ripened to) spots.old) × AreTimed timers.new spots.new }
{
    while let Some(place) = timers.pop_due(to) {
        take_at(place, spots);
    }
}

/// One firing, with its variables.
fn firing(alloc: Global, owner: u64, spot: &Spot, value: TriggerData) -> Result<Firing, AllocError>
    ensures { IfOk result (λ f. f ≡ record { owner = owner; trigger = spot.now.trigger; entity = spot.now.entity; env = (codes "trigger", value) ∷ [] }) }
{
    let entity = spot.entity.copy(alloc)?;
    Ok(Firing {
        owner,
        trigger: spot.trigger,
        entity,
        env: Env::of_trigger(alloc, value),
    })
}

/// What a spot has to fire with is taken out of it.
fn collect_own(
    alloc: Global,
    owner: u64,
    spot: &mut Spot,
    fired: &mut Many<Firing>,
) -> Result<(), AllocError>
    ensures fired { OnOk result (fired.new ≡ fired.old ++ cons_option (firing_in owner spot.old) []) }
    ensures cleared { OnOk result (spot.new ≡ cleared spot.old) }
{
    let Some(value) = spot.fired.take() else {
        return Ok(());
    };
    fired.push(firing(alloc, owner, spot, value)?)?;
    Ok(())
}

/// The same, of all spots, in their order.
pub fn collect_own_of(
    alloc: Global,
    owner: u64,
    spots: &mut [Spot],
    fired: &mut Many<Firing>,
) -> Result<(), AllocError>
    ensures fired { OnOk result (fired.new ≡ fired.old ++ filter_map (firing_in owner) spots.old) }
    ensures cleared { OnOk result (spots.new ≡ map cleared spots.old) }
{
    for place in 0..spots.len() {
        collect_own(alloc, owner, &mut spots[place], fired)?;
    }
    Ok(())
}

/// What a spot fires with is taken out of it; an event trigger fires also for each of the entry's events of helpers that it names.
pub fn collect_one(
    alloc: Global,
    scene: &Scene<'_>,
    owner: u64,
    since: u64,
    triggers: &Many<Trigger>,
    spot: &mut Spot,
    fired: &mut Many<Firing>,
) -> Result<(), AllocError>
    ensures fired { OnOk result (fired.new ≡ fired.old ++ firings_in (record { owner = owner; triggers = triggers.now; since = since }) scene.now.place scene.now.events.now spot.old) }
    ensures cleared { OnOk result (spot.new ≡ cleared spot.old) }
{
    let index = spot.trigger;
    collect_own(alloc, owner, spot, fired)?;
    push_timed(alloc, scene, owner, since, triggers, index, fired)
}

/// What the spots fire with is taken out of them, in their order.
pub fn collect(
    alloc: Global,
    scene: &Scene<'_>,
    owner: u64,
    since: u64,
    triggers: &Many<Trigger>,
    spots: &mut [Spot],
    fired: &mut Many<Firing>,
) -> Result<(), AllocError>
    ensures fired { OnOk result (fired.new ≡ fired.old ++ flat_map (firings_in (record { owner = owner; triggers = triggers.now; since = since }) scene.now.place scene.now.events.now) spots.old) }
    ensures cleared { OnOk result (spots.new ≡ map cleared spots.old) }
{
    for place in 0..spots.len() {
        collect_one(
            alloc,
            scene,
            owner,
            since,
            triggers,
            &mut spots[place],
            fired,
        )?;
    }
    Ok(())
}

/// Whether the entry is a moment.
pub fn is_moment(entry: &Entry) -> bool
    ensures { result ≡ is_moment entry.now }
{
    matches!(
        entry,
        Entry::Line {
            cmd: Cmd::Moment(_),
            ..
        }
    )
}

/// At a moment the holds that are over fire.
fn ripen_if(entry: &Entry, to: Moment, spots: &mut [Spot], timers: &mut TimerQueue)
    ensures { AreTimed timers.old spots.old → (spots.new ≡ ripened_if entry.now to spots.old) × AreTimed timers.new spots.new }
{
    if is_moment(entry) {
        ripen(to, spots, timers);
    }
}

/// What the entry makes of an owner's spots; what fires is appended.
pub fn note_spots<A: Answers>(
    alloc: Global,
    scene: &Scene<'_>,
    answers: &A,
    owner: u64,
    since: u64,
    triggers: &Many<Trigger>,
    spots: &mut [Spot],
    timers: &mut TimerQueue,
    fired: &mut Many<Firing>,
) -> Result<(), AllocError>
    requires { scene.now.to ≤ last_moment }
    ensures stands { OnOk result ((j : Journal) → Shows scene.now j since → A.sight answers.now ≡ sight (more j scene.now.entry.now) (length (more j scene.now.entry.now))
        → AreWell triggers.now → SpotsStand j triggers.now since spots.old timers.old → SpotsStand (more j scene.now.entry.now) triggers.now since spots.new timers.new) }
    ensures fired { OnOk result ((j : Journal) → Shows scene.now j since → A.sight answers.now ≡ sight (more j scene.now.entry.now) (length (more j scene.now.entry.now))
        → AreWell triggers.now → SpotsStand j triggers.now since spots.old timers.old
        → fired.new ≡ fired.old ++ firings_of (more j scene.now.entry.now) (length j) (record { owner = owner; triggers = triggers.now; since = since })) }
{
    step_all(alloc, scene, answers, triggers, since, spots, timers)?;
    ripen_if(scene.entry, scene.to, spots, timers);
    collect(alloc, scene, owner, since, triggers, spots, fired)
}
