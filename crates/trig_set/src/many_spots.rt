//! Owners with many spots: an entry goes along those alone that it may move.
ghost use Rattle.std.specs.Prelude.{◌≡◌, ◌≤◌, ◌<◌, ◌++◌, ℕ, IfOk, MatchOption, OnOk, None, Some, [], false, flat_map, length, map, nat_eq, option_map, slice_get, true};
ghost use Rattle.std.specs.Option.{option_copied, option_map_or};
ghost use Rattle.ha_clock.specs.Local.{last_moment};
ghost use Rattle.event_bus.specs.Lists.{has};
ghost use Rattle.event_bus.specs.Subjects.{Subject, knows};
ghost use Rattle.ha_journal.specs.Entries.{event_in, is_moment as is_moment_lem, opens_segment};
ghost use Rattle.ha_journal.specs.Journal.{Journal, more};
ghost use Rattle.ha_journal.specs.Moves.{sight};
ghost use Rattle.ha_past.specs.Firings.{firings_of};
ghost use Rattle.trig_set.specs.Concerned.{IsAside};
ghost use Rattle.trig_set.specs.Kept.{All, At, AreTimed, AreWell, KeepsAt, MovedAt, SpotsStand, cleared, cleared_at, place_of, places_of, ripened, ripened_if};
ghost use Rattle.trig_set.specs.Listed.{AreIndexed, HasAt};
ghost use Rattle.trig_set.specs.Timed.{Unfired, firings_in};
ghost use Rattle.trig_set.specs.Scenes.{Shows};

use crate::attached::{collect_one, is_moment, note_spots, step_at, take_at};
use crate::changes::Changes;
use crate::event::kind_in;
use crate::events::Events;
use crate::moved::opens;
use crate::places::Places;
use crate::scene::{Scene, Shift};
use crate::spot::Spot;
use event_bus::Index;
use ha_clock::Moment;
use ha_config::{Trigger, TriggerRule};
use ha_journal::{BusEvent, Entry, Firing};
use ha_sight::Answers;
use ha_value::Many;
use std::alloc::{AllocError, Global};
use std::collections::BTreeSet;
use std::marker::Model;
use std::snapshot::Snapshot;
use timer_queue::TimerQueue;

/// A trigger has many entities where it has more than these.
pub const FEW: usize = 16;

/// Whether a rule has many entities. No clause depends on it.
fn is_wide(rule: &TriggerRule) -> bool {
    match rule {
        TriggerRule::State { entities, .. } => FEW < entities.len(),
        TriggerRule::Numeric { entities, .. } => FEW < entities.len(),
        TriggerRule::Event { .. }
        | TriggerRule::Time(_)
        | TriggerRule::Pattern { .. }
        | TriggerRule::Template(_)
        | TriggerRule::Start => false,
    }
}

/// Lists the spot at a place for what concerns it.
fn list_spot(
    alloc: Global,
    index: &mut Index,
    triggers: &[Trigger],
    spots: &[Spot],
    place: usize,
) -> Result<(), AllocError>
    requires { place < length spots.now }
    ensures own { OnOk result (At spots.now place (λ s. HasAt index.new place triggers.now (place_of s))) }
    ensures kept { (s : Subject) (n : ℕ) → knows index.old s n ≡ true → knows index.new s n ≡ true }
{
    let spot = &spots[place];
    match triggers.get(spot.trigger as usize) {
        Some(trigger) => index.put(alloc, &trigger.rule, spot.entity.as_ref(), place as u64),
        None => Ok(()),
    }
}

/// The places of spots by what concerns them.
fn list_spots(alloc: Global, triggers: &[Trigger], spots: &[Spot]) -> Result<Index, AllocError>
    ensures { IfOk result (λ index. AreIndexed index triggers.now (map place_of spots.now)) }
{
    let mut index = Index::make(alloc);
    for place in 0..spots.len() {
        list_spot(alloc, &mut index, triggers, spots, place)?;
    }
    Ok(index)
}

/// The places of the spots of an owner's triggers, by what concerns them. Contracts see the triggers.
#[derive(Drop)]
pub struct Listed {
    index: Box<Index>,
    triggers: Snapshot<Many<Trigger>>,
}

impl Model for Listed {
    ghost use Rattle.std.specs.Coded.{codes};
    ghost use Rattle.std.specs.Prelude.{[], List};
    ghost use Rattle.ha_value.specs.contracts.value.Value as value;
    ghost use Rattle.ha_config.specs.contracts.template.Expr as expr;
    ghost use Rattle.ha_config.specs.contracts.template.Piece as piece;
    ghost use Rattle.ha_config.specs.contracts.template.Template as template;
    ghost use Rattle.ha_config.specs.declared.config.Trigger.{Trigger};
    ghost use Rattle.trig_set.specs.Kept.{places_of};
    ghost use Rattle.trig_set.specs.Listed.{AreIndexed};

    ghost Value = { List Trigger };

    ghost coded = { Prim.hlevel (codes, value.the_row.coded, expr.the_row.coded, piece.the_row.coded, template.the_row.coded) };

    ghost view = { λ l. l.triggers.value };

    ghost invariant = { λ l. AreIndexed l.index.value l.triggers.value (places_of [] l.triggers.value) };
}

impl Listed {
    /// Keeps an index.
    fn hold(alloc: Global, triggers: &Many<Trigger>, index: Index) -> Result<Listed, AllocError>
        requires { AreIndexed index triggers.now (places_of [] triggers.now) }
        ensures { IfOk result (λ listed. listed ≡ triggers.now) }
    {
        let held = Box::new(alloc, index)?;
        Ok(Listed {
            index: held,
            triggers: Snapshot::of(triggers),
        })
    }

    /// The index.
    fn index(&self) -> &Index
        ensures { AreIndexed result.now self.now (places_of [] self.now) }
    {
        &self.index
    }
}

/// Lists the spots of triggers of which one has many entities.
pub fn list_many(
    alloc: Global,
    triggers: &Many<Trigger>,
    spots: &[Spot],
) -> Result<Option<Listed>, AllocError>
    requires { map place_of spots.now ≡ places_of [] triggers.now }
    ensures { IfOk result (λ listed. MatchOption listed (Unit {0}) (λ ts. ts ≡ triggers.now)) }
{
    if !triggers
        .as_slice()
        .iter()
        .any(|trigger| is_wide(&trigger.rule))
    {
        return Ok(None);
    }
    let index = list_spots(alloc, triggers.as_slice(), spots)?;
    let listed = Listed::hold(alloc, triggers, index)?;
    Ok(Some(listed))
}

/// Puts in the places that are listed.
fn put_listed(listed: &BTreeSet<u64>, places: &mut Places) -> Result<(), AllocError>
    ensures kept { OnOk result ((n : ℕ) → has places.new n ≡ false → has places.old n ≡ false) }
    ensures aside { OnOk result ((n : ℕ) → has places.new n ≡ false → has listed.now n ≡ false) }
{
    'places: for place in listed.iter() {
        places.insert(*place as usize)?;
    }
    Ok(())
}

/// The same, where there are some.
fn put_any(listed: Option<&BTreeSet<u64>>, places: &mut Places) -> Result<(), AllocError>
    ensures kept { OnOk result ((n : ℕ) → has places.new n ≡ false → has places.old n ≡ false) }
    ensures aside { OnOk result ((n : ℕ) → has places.new n ≡ false → option_map_or (λ set. has set n) (option_copied listed.entry) false ≡ false) }
{
    match listed {
        Some(listed) => put_listed(listed, places),
        None => Ok(()),
    }
}

/// Puts in the places of the spots that an event concerns.
fn put_named(index: &Index, entry: &Entry, places: &mut Places) -> Result<(), AllocError>
    ensures kept { OnOk result ((n : ℕ) → has places.new n ≡ false → has places.old n ≡ false) }
    ensures aside { OnOk result ((n : ℕ) → has places.new n ≡ false
        → MatchOption (option_map (λ v. v.0) (event_in entry.now)) (Unit {0}) (λ q. knows index.now (Subject.Event q) n ≡ false)) }
{
    match kind_in(entry) {
        Some(kind) => put_any(index.of_event(kind), places),
        None => Ok(()),
    }
}

/// Puts in the places of the spots that one of these events concerns.
fn put_kinds(index: &Index, events: &[BusEvent], places: &mut Places) -> Result<(), AllocError>
    ensures kept { OnOk result ((n : ℕ) → has places.new n ≡ false → has places.old n ≡ false) }
    ensures aside { OnOk result ((n : ℕ) → has places.new n ≡ false
        → (k : ℕ) → MatchOption (slice_get events.now k) (Unit {0}) (λ v. knows index.now (Subject.Event v.kind) n ≡ false)) }
{
    for at in 0..events.len() {
        put_any(index.of_event(&events[at].kind), places)?;
    }
    Ok(())
}

/// Puts in the places of the spots that an event of a helper concerns.
fn put_timers(index: &Index, events: &Events<'_>, places: &mut Places) -> Result<(), AllocError>
    ensures kept { OnOk result ((n : ℕ) → has places.new n ≡ false → has places.old n ≡ false) }
    ensures aside { OnOk result ((n : ℕ) → has places.new n ≡ false
        → (k : ℕ) → MatchOption (slice_get events.now k) (Unit {0}) (λ v. knows index.now (Subject.Event v.kind) n ≡ false)) }
{
    put_kinds(index, events.as_slice(), places)
}

/// Puts in the places of the spots that one of these changes concerns.
fn put_shifts(index: &Index, shifts: &[Shift], places: &mut Places) -> Result<(), AllocError>
    ensures kept { OnOk result ((n : ℕ) → has places.new n ≡ false → has places.old n ≡ false) }
    ensures aside { OnOk result ((n : ℕ) → has places.new n ≡ false
        → (k : ℕ) → MatchOption (slice_get shifts.now k) (Unit {0}) (λ c. knows index.now (Subject.Entity c.entity) n ≡ false)) }
{
    for at in 0..shifts.len() {
        put_any(index.of_entity(&shifts[at].entity), places)?;
    }
    Ok(())
}

/// Puts in the places of the spots that a change of one of the entities concerns.
fn put_shifted(index: &Index, shifts: &Changes<'_>, places: &mut Places) -> Result<(), AllocError>
    ensures kept { OnOk result ((n : ℕ) → has places.new n ≡ false → has places.old n ≡ false) }
    ensures aside { OnOk result ((n : ℕ) → has places.new n ≡ false
        → (k : ℕ) → MatchOption (slice_get shifts.now k) (Unit {0}) (λ c. knows index.now (Subject.Entity c.entity) n ≡ false)) }
{
    put_shifts(index, shifts.as_slice(), places)
}

/// Puts in the places of the spots that a moment concerns.
fn put_timed(index: &Index, entry: &Entry, places: &mut Places) -> Result<(), AllocError>
    ensures kept { OnOk result ((n : ℕ) → has places.new n ≡ false → has places.old n ≡ false) }
    ensures aside { OnOk result ((n : ℕ) → has places.new n ≡ false → is_moment_lem entry.now ≡ true → knows index.now Subject.Moments n ≡ false) }
{
    if is_moment(entry) {
        put_listed(&index.moments, places)
    } else {
        Ok(())
    }
}

/// The places of the spots that an entry may move, where no segment opens with it.
fn places_moved(
    alloc: Global,
    index: &Index,
    entry: &Entry,
    shifts: &Changes<'_>,
    events: &Events<'_>,
) -> Result<Places, AllocError>
    requires { opens_segment entry.now ≡ false }
    ensures { IfOk result (λ places. (n to : ℕ) → has places n ≡ false → IsAside index.now [] to shifts.now events.now entry.now n) }
{
    let mut places = Places::make(alloc);
    put_listed(&index.entries, &mut places)?;
    put_named(index, entry, &mut places)?;
    put_timers(index, events, &mut places)?;
    put_shifted(index, shifts, &mut places)?;
    put_timed(index, entry, &mut places)?;
    Ok(places)
}

/// What the entry makes of the spot at a place, if there is one.
fn step_there<A: Answers>(
    alloc: Global,
    scene: &Scene<'_>,
    answers: &A,
    triggers: &Many<Trigger>,
    since: u64,
    place: usize,
    spots: &mut [Spot],
    timers: &mut TimerQueue,
) -> Result<(), AllocError>
    requires { scene.now.to ≤ last_moment }
    ensures moved { OnOk result ((j : Journal) → Shows scene.now j since → A.sight answers.now ≡ sight (more j scene.now.entry.now) (length (more j scene.now.entry.now))
        → AreWell triggers.now → At spots.old place (KeepsAt j triggers.now since) → At spots.new place (MovedAt j scene.now.entry.now triggers.now since)) }
    ensures elsewhere { OnOk result ((n : ℕ) → nat_eq place n ≡ false → slice_get spots.new n ≡ slice_get spots.old n) }
    ensures places { OnOk result (map place_of spots.new ≡ map place_of spots.old) }
    ensures timed { OnOk result (AreTimed timers.old spots.old → AreTimed timers.new spots.new) }
{
    if place < spots.len() {
        step_at(alloc, scene, answers, triggers, since, place, spots, timers)
    } else {
        Ok(())
    }
}

/// What the entry makes of the spots at these places, which are put in among those that were gone along. The others are as before.
fn step_some<A: Answers>(
    alloc: Global,
    scene: &Scene<'_>,
    answers: &A,
    triggers: &Many<Trigger>,
    since: u64,
    places: Places,
    spots: &mut [Spot],
    timers: &mut TimerQueue,
    gone: &mut Places,
) -> Result<(), AllocError>
    requires { scene.now.to ≤ last_moment }
    ensures moved { OnOk result ((j : Journal) → Shows scene.now j since → A.sight answers.now ≡ sight (more j scene.now.entry.now) (length (more j scene.now.entry.now))
        → AreWell triggers.now → All spots.old (KeepsAt j triggers.now since)
        → ((n : ℕ) → has places n ≡ false → At spots.old n (MovedAt j scene.now.entry.now triggers.now since))
        → All spots.new (MovedAt j scene.now.entry.now triggers.now since)) }
    ensures places { OnOk result (map place_of spots.new ≡ map place_of spots.old) }
    ensures timed { OnOk result (AreTimed timers.old spots.old → AreTimed timers.new spots.new) }
    ensures elsewhere { OnOk result ((n : ℕ) → has gone.new n ≡ false → (has gone.old n ≡ false) × (slice_get spots.new n ≡ slice_get spots.old n)) }
    ensures aside { OnOk result ((n : ℕ) → has gone.new n ≡ false → has places n ≡ false) }
{
    let mut left = places;
    'places: while let Some(place) = left.pop_first() {
        step_there(alloc, scene, answers, triggers, since, place, spots, timers)?;
        gone.insert(place)?;
    }
    Ok(())
}

/// The holds that are over at a moment fire; their places are put in.
fn ripen_noted(
    to: Moment,
    spots: &mut [Spot],
    timers: &mut TimerQueue,
    gone: &mut Places,
) -> Result<(), AllocError>
    ensures ripe { OnOk result (AreTimed timers.old spots.old → (spots.new ≡ map (ripened to) spots.old) × AreTimed timers.new spots.new) }
    ensures elsewhere { OnOk result ((n : ℕ) → has gone.new n ≡ false → (has gone.old n ≡ false) × (slice_get spots.new n ≡ slice_get spots.old n)) }
{
    'dues: while let Some(place) = timers.pop_due(to) {
        take_at(place, spots);
        gone.insert(place as usize)?;
    }
    Ok(())
}

/// At a moment the holds that are over fire.
fn ripen_noted_if(
    entry: &Entry,
    to: Moment,
    spots: &mut [Spot],
    timers: &mut TimerQueue,
    gone: &mut Places,
) -> Result<(), AllocError>
    ensures ripe { OnOk result (AreTimed timers.old spots.old → (spots.new ≡ ripened_if entry.now to spots.old) × AreTimed timers.new spots.new) }
    ensures elsewhere { OnOk result ((n : ℕ) → has gone.new n ≡ false → (has gone.old n ≡ false) × (slice_get spots.new n ≡ slice_get spots.old n)) }
{
    if is_moment(entry) {
        ripen_noted(to, spots, timers, gone)
    } else {
        Ok(())
    }
}

/// What the spot at a place fires with, if there is one, is taken out of it.
fn collect_there(
    alloc: Global,
    scene: &Scene<'_>,
    owner: u64,
    since: u64,
    triggers: &Many<Trigger>,
    place: usize,
    spots: &mut [Spot],
    fired: &mut Many<Firing>,
) -> Result<(), AllocError>
    ensures fired { OnOk result (fired.new ≡ fired.old ++ option_map_or (firings_in (record { owner = owner; triggers = triggers.now; since = since }) scene.now.place scene.now.events.now) (slice_get spots.old place) []) }
    ensures cleared { OnOk result (spots.new ≡ cleared_at place spots.old) }
{
    if place < spots.len() {
        collect_one(
            alloc,
            scene,
            owner,
            since,
            triggers,
            &mut spots[place],
            fired,
        )
    } else {
        Ok(())
    }
}

/// What the spots at these places fire with is taken out of them, in their order; no other fires.
fn collect_some(
    alloc: Global,
    scene: &Scene<'_>,
    owner: u64,
    since: u64,
    triggers: &Many<Trigger>,
    places: Places,
    spots: &mut [Spot],
    fired: &mut Many<Firing>,
) -> Result<(), AllocError>
    ensures fired { OnOk result (((n : ℕ) → has places n ≡ false → Unfired (record { owner = owner; triggers = triggers.now; since = since }) scene.now.place scene.now.events.now spots.old n)
        → fired.new ≡ fired.old ++ flat_map (firings_in (record { owner = owner; triggers = triggers.now; since = since }) scene.now.place scene.now.events.now) spots.old) }
    ensures cleared { OnOk result (((n : ℕ) → has places n ≡ false → Unfired (record { owner = owner; triggers = triggers.now; since = since }) scene.now.place scene.now.events.now spots.old n) → spots.new ≡ map cleared spots.old) }
{
    let mut left = places;
    'places: while let Some(place) = left.pop_first() {
        collect_there(alloc, scene, owner, since, triggers, place, spots, fired)?;
    }
    Ok(())
}

/// What an entry makes of an owner's spots, where no segment opens with it; what fires is appended.
fn note_some_spots<A: Answers>(
    alloc: Global,
    scene: &Scene<'_>,
    answers: &A,
    owner: u64,
    since: u64,
    triggers: &Many<Trigger>,
    index: &Index,
    spots: &mut [Spot],
    timers: &mut TimerQueue,
    fired: &mut Many<Firing>,
) -> Result<(), AllocError>
    requires in_time { scene.now.to ≤ last_moment }
    requires within { opens_segment scene.now.entry.now ≡ false }
    requires late { since < scene.now.place }
    ensures stands { OnOk result ((j : Journal) → Shows scene.now j since → A.sight answers.now ≡ sight (more j scene.now.entry.now) (length (more j scene.now.entry.now))
        → AreWell triggers.now → AreIndexed index.now triggers.now (places_of [] triggers.now)
        → SpotsStand j triggers.now since spots.old timers.old → SpotsStand (more j scene.now.entry.now) triggers.now since spots.new timers.new) }
    ensures fired { OnOk result ((j : Journal) → Shows scene.now j since → A.sight answers.now ≡ sight (more j scene.now.entry.now) (length (more j scene.now.entry.now))
        → AreWell triggers.now → AreIndexed index.now triggers.now (places_of [] triggers.now) → SpotsStand j triggers.now since spots.old timers.old
        → fired.new ≡ fired.old ++ firings_of (more j scene.now.entry.now) (length j) (record { owner = owner; triggers = triggers.now; since = since })) }
{
    let places = places_moved(alloc, index, scene.entry, scene.shifts, scene.events)?;
    let mut gone = Places::make(alloc);
    step_some(
        alloc, scene, answers, triggers, since, places, spots, timers, &mut gone,
    )?;
    ripen_noted_if(scene.entry, scene.to, spots, timers, &mut gone)?;
    collect_some(alloc, scene, owner, since, triggers, gone, spots, fired)
}

/// Whether an entry goes along all spots: where a segment opens with it, and where no entry behind the owner's place was noted yet.
fn is_whole(scene: &Scene<'_>, since: u64) -> bool
    ensures within { result ≡ false → opens_segment scene.now.entry.now ≡ false }
    ensures late { result ≡ false → since < scene.now.place }
{
    if opens(scene.entry) {
        return true;
    }
    scene.place <= since
}

/// What an entry makes of the spots of an owner that has many; what fires is appended.
pub fn note_listed<A: Answers>(
    alloc: Global,
    scene: &Scene<'_>,
    answers: &A,
    owner: u64,
    since: u64,
    triggers: &Many<Trigger>,
    listed: &Listed,
    spots: &mut [Spot],
    timers: &mut TimerQueue,
    fired: &mut Many<Firing>,
) -> Result<(), AllocError>
    requires { scene.now.to ≤ last_moment }
    ensures stands { OnOk result ((j : Journal) → Shows scene.now j since → A.sight answers.now ≡ sight (more j scene.now.entry.now) (length (more j scene.now.entry.now))
        → AreWell triggers.now → listed.now ≡ triggers.now
        → SpotsStand j triggers.now since spots.old timers.old → SpotsStand (more j scene.now.entry.now) triggers.now since spots.new timers.new) }
    ensures fired { OnOk result ((j : Journal) → Shows scene.now j since → A.sight answers.now ≡ sight (more j scene.now.entry.now) (length (more j scene.now.entry.now))
        → AreWell triggers.now → listed.now ≡ triggers.now → SpotsStand j triggers.now since spots.old timers.old
        → fired.new ≡ fired.old ++ firings_of (more j scene.now.entry.now) (length j) (record { owner = owner; triggers = triggers.now; since = since })) }
{
    if is_whole(scene, since) {
        return note_spots(
            alloc, scene, answers, owner, since, triggers, spots, timers, fired,
        );
    }
    note_some_spots(
        alloc,
        scene,
        answers,
        owner,
        since,
        triggers,
        listed.index(),
        spots,
        timers,
        fired,
    )
}
