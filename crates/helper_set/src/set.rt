//! The helpers of a configuration, as they are after a journal.
ghost use Rattle.std.specs.Prelude.{◌≡◌, ◌≤◌, ℕ, [], ◌∷◌, ◌++◌, None, Some, IfOk, OnOk, true, false, Bool, List, Option, filter_map, map, slice_get, option_map, if◌then◌else◌};
ghost use Rattle.std.specs.List.{list_all};
ghost use Rattle.std.specs.Option.{option_copied, option_map_or, option_to_list};
ghost use Rattle.ha_clock.specs.Local.{last_moment};
ghost use Rattle.ha_journal.specs.declared.carry.Carry.{Carry};
ghost use Rattle.ha_journal.specs.declared.entry.Entry.{Entry};
ghost use Rattle.ha_journal.specs.declared.entry.Entry.TheVariants.{Boot};
ghost use Rattle.ha_journal.specs.Entries.{changes_in, is_moment};
ghost use Rattle.ha_journal.specs.Helpers.{finished, text_of};
ghost use Rattle.ha_config.specs.Helpers.{helper_named, is_helper};
ghost use Rattle.ha_sight.specs.Inner.{helped, helped_by, inner_of_helpers};
ghost use Rattle.ha_journal.specs.Journal.{HasEntry, Journal, helpers, now as now_of, more};
ghost use Rattle.ha_sight.specs.Services as services;
ghost use Rattle.ha_config.specs.Sound.{IsSoundConfig};
ghost use Rattle.ha_config.specs.declared.config.Config.{Config as Settings};
ghost use Rattle.ha_sight.specs.Sight.{Sight};
ghost use Rattle.ha_config.specs.Words.{Text};
ghost use Rattle.timer_queue.specs.Timers.{due_of};
ghost use Rattle.helper_set.specs.Changes.{Changes, is_at_place, kept_with, timer_with};
ghost use Rattle.helper_set.specs.Kept.{AreApart, AreSeen, StandsFor, first_kept, kept_in, place_in, shown};

use crate::change::change_by;
use crate::kept::{Kept, begun, due};
use crate::list::KeptList;
use crate::meant::{found, is_configured, places_meant};
use crate::service::service_named;
use crate::timers::{pass, retime};
use crate::wanted::{fits, wanted};
use ha_model::{
    Config, EntityId, Helper, HelperChange, HelperService, Inner, Item, Many, Moment, Plain, Value,
    Wanted, Word,
};
use std::alloc::{AllocError, Global};
use timer_queue::TimerQueue;

/// The helpers of a configuration, in its order, with the dues of the timers that are active under the places of these.
#[derive(Drop)]
pub struct Helpers {
    kept: KeptList,
    timers: TimerQueue,
}

/// The helpers as they are at the Boot.
fn all_begun(alloc: Global, helpers: &[Helper]) -> Result<Vec<Kept>, AllocError>
    ensures { IfOk result (λ kept. kept.items ≡ map first_kept helpers.now) }
{
    let mut kept = Vec::new(alloc);
    for i in 0..helpers.len() {
        kept.push(begun(alloc, &helpers[i])?)?;
    }
    Ok(kept)
}

/// Whether a value that is asked for is within the bounds of each of the helpers at these places.
fn all_fit(wanted: &Wanted, kept: &[Kept], places: &[usize]) -> bool
    ensures { (sight : Sight) (at : ℕ) → AreSeen kept.now sight at → result ≡ list_all (services.fits_at sight wanted.now) places.now }
{
    for i in 0..places.len() {
        if !fits_at(wanted, kept, places[i]) {
            return false;
        }
    }
    true
}

/// The same, of the helper at one place.
fn fits_at(wanted: &Wanted, kept: &[Kept], place: usize) -> bool
    ensures { result ≡ option_map_or (λ k. services.fits wanted.now (shown k)) (slice_get kept.now place) true }
{
    match kept.get(place) {
        Some(one) => fits(wanted, &one.helper.kind),
        None => true,
    }
}

/// The helper at a place.
fn kept_at(kept: &[Kept], place: usize) -> Option<&Kept>
    ensures { option_copied result ≡ slice_get kept.now place }
{
    kept.get(place)
}

/// What the service changes of the helper at a place.
fn change_at(
    alloc: Global,
    service: HelperService,
    wanted: &Wanted,
    now: Moment,
    kept: &[Kept],
    place: usize,
) -> Result<Option<HelperChange>, AllocError>
    ensures { IfOk result (λ c. (sight : Sight) → AreSeen kept.now sight now → c ≡ services.change_at sight service wanted.now place) }
{
    match kept_at(kept, place) {
        Some(one) => change_by(alloc, service, wanted, now, one),
        None => Ok(None),
    }
}

/// Appends a change, if there is one.
fn push_change(
    changes: &mut Many<HelperChange>,
    change: Option<HelperChange>,
) -> Result<(), AllocError>
    ensures { OnOk result (changes.new ≡ changes.old ++ option_to_list change) }
{
    if let Some(change) = change {
        changes.push(change)?;
    }
    Ok(())
}

/// What the service changes of the helpers at these places.
fn changes_at(
    alloc: Global,
    service: HelperService,
    wanted: &Wanted,
    now: Moment,
    kept: &[Kept],
    places: &[usize],
) -> Result<Many<HelperChange>, AllocError>
    ensures { IfOk result (λ cs. (sight : Sight) → AreSeen kept.now sight now → cs ≡ filter_map (services.change_at sight service wanted.now) places.now) }
{
    let mut changes = Many::make(alloc);
    for i in 0..places.len() {
        push_change(
            &mut changes,
            change_at(alloc, service, wanted, now, kept, places[i])?,
        )?;
    }
    Ok(changes)
}

/// What becomes of a call of a service of the helpers at these places.
fn resolved_at(
    alloc: Global,
    service: HelperService,
    kept: &[Kept],
    places: &[usize],
    wished: &Wanted,
    now: Moment,
) -> Result<Inner, AllocError>
    ensures { IfOk result (λ inner. (sight : Sight) → AreSeen kept.now sight now → inner ≡ helped (services.changes_for sight service places.now wished.now)) }
{
    if !all_fit(wished, kept, places) {
        return Ok(Inner::Fails(7));
    }
    let changes = changes_at(alloc, service, wished, now, kept, places)?;
    Ok(Inner::Does(Item::Helped(changes)))
}

/// What becomes of a call of a service of helpers.
fn resolved(
    alloc: Global,
    service: HelperService,
    kept: &KeptList,
    target: &[EntityId],
    wished: &Wanted,
    now: Moment,
) -> Result<Inner, AllocError>
    ensures { IfOk result (λ inner. (sight : Sight) → AreSeen kept.now.items sight now → inner ≡ helped (services.changes_for sight service (services.places_meant (map shown kept.now.items) service target.now) wished.now)) }
{
    let places = places_meant(alloc, kept, service, target)?;
    resolved_at(alloc, service, kept.as_slice(), &places, wished, now)
}

/// The same, where a helper is configured for which it is.
fn resolve_service(
    alloc: Global,
    service: HelperService,
    kept: &KeptList,
    target: &[EntityId],
    fields: &[(Word, Value)],
    now: Moment,
) -> Result<Inner, AllocError>
    ensures { IfOk result (λ inner. (sight : Sight) → AreSeen kept.now.items sight now → inner ≡ helped_by sight target.now fields.now (Some service)) }
{
    if !is_configured(kept, service) {
        return Ok(Inner::Outer);
    }
    match wanted(alloc, service, fields) {
        Ok(wished) => resolved(alloc, service, kept, target, &wished, now),
        Err(code) => Ok(Inner::Fails(code)),
    }
}

/// The helper of a change is as it says.
fn change_one(
    alloc: Global,
    kept: &mut KeptList,
    timers: &mut TimerQueue,
    made: &HelperChange,
    at: Moment,
) -> Result<(), AllocError>
    requires { at ≤ last_moment }
    ensures kept { OnOk result ((n : ℕ) → slice_get kept.new.items n ≡ (if is_at_place (place_in kept.old.items made.now.entity) n then option_map (kept_with at (Some made.now)) (slice_get kept.old.items n) else slice_get kept.old.items n)) }
    ensures timers { OnOk result ((n : ℕ) → due_of n timers.new ≡ (if is_at_place (place_in kept.old.items made.now.entity) n then timer_with at (Some made.now) None else due_of n timers.old)) }
{
    match kept.place_in(&made.entity) {
        Some(place) => {
            kept.change_at(alloc, place, made, at)?;
            retime(timers, place as u64, due(made, at))
        }
        None => Ok(()),
    }
}

/// The helpers of the changes are as these say, the last change first: so the first one of a helper counts.
fn change_all(
    alloc: Global,
    kept: &mut KeptList,
    timers: &mut TimerQueue,
    changes: &[HelperChange],
    at: Moment,
) -> Result<(), AllocError>
    requires { at ≤ last_moment }
    ensures { OnOk result (AreApart kept.old.items → Changes at changes.now timers.old timers.new kept.old.items kept.new.items) }
{
    let mut left = changes.len();
    'changes: while 0 < left {
        left -= 1;
        change_one(alloc, kept, timers, &changes[left], at)?;
    }
    Ok(())
}

impl Helpers {
    /// No helpers.
    pub fn none(alloc: Global) -> Helpers
        ensures { kept_in result ≡ [] }
    {
        Helpers {
            kept: KeptList::none(alloc),
            timers: TimerQueue::make(alloc),
        }
    }

    /// The helpers at the Boot of a configuration, or of another with the same helpers.
    pub fn make(alloc: Global, config: &Config) -> Result<Helpers, AllocError>
        ensures { IfOk result (λ s. (c : Settings) → c.helpers ≡ config.now.helpers → IsSoundConfig c → (text : Text) (stored : Option (List (Text × Bool))) (start : ℕ) (zone : Text) (carry : Carry) → StandsFor s (Boot text c stored start zone carry ∷ [])) }
    {
        let begun = all_begun(alloc, config.helpers.as_slice())?;
        let kept = KeptList::make(alloc, begun)?;
        Ok(Helpers {
            kept,
            timers: TimerQueue::make(alloc),
        })
    }

    /// What becomes of a call: Outer exactly where the name is no service of helpers, or no helper is configured for which it is; else the
    /// changes that it makes, or the code of its failure. `now` is Now before its entry.
    pub fn resolve(
        &self,
        alloc: Global,
        service: &Word,
        target: &Many<EntityId>,
        fields: &Many<(Word, Value)>,
        now: Moment,
    ) -> Result<Inner, AllocError>
        ensures { IfOk result (λ inner. (sight : Sight) → AreSeen self.now.kept.items sight now → inner ≡ inner_of_helpers sight service.now target.now fields.now) }
    {
        match service_named(service.bytes()) {
            Some(service) => resolve_service(
                alloc,
                service,
                &self.kept,
                target.as_slice(),
                fields.as_slice(),
                now,
            ),
            None => Ok(Inner::Outer),
        }
    }

    /// The helpers are changed so by an entry, after which Now is `now`. After an error the value may only be dropped.
    pub fn apply(
        &mut self,
        alloc: Global,
        changes: &Many<HelperChange>,
        now: Moment,
    ) -> Result<(), AllocError>
        requires { now ≤ last_moment }
        ensures { OnOk result ((j : Journal) (x : Entry) → HasEntry j → StandsFor self.old j → changes_in x ≡ changes.now → is_moment x ≡ false → now ≡ now_of (more j x) → StandsFor self.new (more j x)) }
    {
        change_all(
            alloc,
            &mut self.kept,
            &mut self.timers,
            changes.as_slice(),
            now,
        )
    }

    /// The timers that finish at a moment, after which Now is `now`, as configured; they are idle then. After an error the value may only be
    /// dropped.
    pub fn pass(&mut self, alloc: Global, now: Moment) -> Result<Many<EntityId>, AllocError>
        ensures finish { IfOk result (λ es. (j : Journal) (x : Entry) → StandsFor self.old j → is_moment x ≡ true → now ≡ now_of (more j x) → es ≡ finished j x) }
        ensures stands { OnOk result ((j : Journal) (x : Entry) → HasEntry j → StandsFor self.old j → changes_in x ≡ [] → is_moment x ≡ true → now ≡ now_of (more j x) → StandsFor self.new (more j x)) }
    {
        let found = pass(alloc, &mut self.timers, &mut self.kept, now)?;
        Ok(found)
    }

    /// The text of a helper; none exactly where no such helper is configured.
    pub fn text(&self, alloc: Global, entity: &EntityId) -> Result<Option<Word>, AllocError>
        ensures { IfOk result (λ text. (j : Journal) → StandsFor self.now j → text ≡ option_map (text_of j) (helper_named (helpers j) entity.now)) }
    {
        match found(&self.kept, entity) {
            Some(one) => {
                let text = one.text.copy(alloc)?;
                Ok(Some(text))
            }
            None => Ok(None),
        }
    }

    /// Whether a helper with this id is configured.
    pub fn has(&self, entity: &EntityId) -> bool
        ensures { (j : Journal) → StandsFor self.now j → result ≡ is_helper (helpers j) entity.now }
    {
        self.kept.place_in(entity).is_some()
    }
}
