//! What an opening makes of the owners: start triggers fire, and of templates it is seen whether they are true.
ghost use Rattle.std.specs.Prelude.{◌≡◌, ◌<◌, ◌++◌, ℕ, [], ◌∷◌, List, IfOk, OnOk, Some, None, codes, false, flat_map, is_none, is_some, length, map, nat_eq, slice_get, ◌&&◌, if◌then◌else◌};
ghost use Rattle.std.specs.Option.{option_copied};
ghost use Rattle.ha_value.specs.declared.value.Value.TheVariants.{Pairs as Map};
ghost use Rattle.ha_config.specs.declared.config.Trigger.{Trigger as Rule};
ghost use Rattle.ha_config.specs.Words.{up_to};
ghost use Rattle.ha_sight.specs.Rules.{head_pairs, starts};
ghost use Rattle.ha_journal.specs.declared.entry.Entry.{Entry};
ghost use Rattle.ha_journal.specs.Entries.{IsBoot};
ghost use Rattle.ha_journal.specs.Moves.{sight};
ghost use Rattle.timer_queue.specs.Timers.{Timer};
ghost use Rattle.ha_past.specs.Firings.{firings, firings_of};
ghost use Rattle.trig_set.specs.Kept.{All, At, AreTimed, AreWell, SpotsStand, Keeps, KeepsAt, Moved, MovedAt, is_true, place_of};
ghost use Rattle.trig_set.specs.Order.{owner_of};
ghost use Rattle.trig_set.specs.Queued.{HasDue};
ghost use Rattle.trig_set.specs.Stands.{AllOwners, AtOwner, OwnerStands, firings_at};

use crate::attached::{collect_own_of, now_true};
use crate::moving::started;
use crate::owners::Attached;
use crate::spot::Spot;
use ha_config::Trigger;
use ha_journal::Firing;
use ha_sight::{Answers, TriggerData};
use ha_value::{EntityId, Many};
use std::alloc::{AllocError, Global};

/// The variables with which a trigger fires at an opening: a start trigger without a `for`.
fn fired_at_opening(
    alloc: Global,
    trigger: &Trigger,
    entity: Option<&EntityId>,
) -> Result<Option<TriggerData>, AllocError>
    ensures { IfOk result (λ v. v ≡ (if is_some trigger.now.hold then None else if starts trigger.now.rule && is_none (option_copied entity.entry) then Some (Map (head_pairs (codes "homeassistant") trigger.now)) else None)) }
{
    if trigger.hold.is_some() {
        return Ok(None);
    }
    started(alloc, trigger, entity)
}

/// What an opening makes of a spot; `is` says whether the trigger's template is true after it.
fn open_spot(alloc: Global, trigger: &Trigger, is: bool, spot: &mut Spot) -> Result<(), AllocError>
    ensures moved { OnOk result ((x : Entry) (since : ℕ) → IsBoot x → is ≡ is_true (sight (x ∷ []) 1) trigger.now.rule → Keeps [] trigger.now since spot.old → Moved [] x trigger.now since spot.new) }
    ensures rest { OnOk result (spot.new ≡ record spot.old { fired = spot.new.fired; was = spot.new.was }) }
{
    let fired = fired_at_opening(alloc, trigger, spot.entity.as_ref())?;
    spot.fired = fired;
    spot.was = is;
    Ok(())
}

/// The same, where what is seen after the opening says whether the template is true.
fn open_seen<A: Answers>(
    alloc: Global,
    answers: &A,
    trigger: &Trigger,
    spot: &mut Spot,
) -> Result<(), AllocError>
    ensures moved { OnOk result ((x : Entry) (since : ℕ) → IsBoot x → A.sight answers.now ≡ sight (x ∷ []) 1 → Keeps [] trigger.now since spot.old → Moved [] x trigger.now since spot.new) }
    ensures rest { OnOk result (spot.new ≡ record spot.old { fired = spot.new.fired; was = spot.new.was }) }
{
    let is = now_true(alloc, &trigger.rule, answers)?;
    open_spot(alloc, trigger, is, spot)
}

/// The same, of the spot at a place of the list.
fn open_at<A: Answers>(
    alloc: Global,
    answers: &A,
    triggers: &Many<Trigger>,
    place: usize,
    spots: &mut [Spot],
) -> Result<(), AllocError>
    requires { place < length spots.old }
    ensures moved { OnOk result ((x : Entry) (since : ℕ) → IsBoot x → A.sight answers.now ≡ sight (x ∷ []) 1 → At spots.old place (KeepsAt [] triggers.now since) → At spots.new place (MovedAt [] x triggers.now since)) }
    ensures elsewhere { OnOk result ((n : ℕ) → nat_eq place n ≡ false → slice_get spots.new n ≡ slice_get spots.old n) }
    ensures places { OnOk result (map place_of spots.new ≡ map place_of spots.old) }
    ensures timed { OnOk result ((timers : List Timer) → AreTimed timers spots.old → AreTimed timers spots.new) }
{
    let Some(trigger) = triggers.get(spots[place].trigger as usize) else {
        return Ok(());
    };
    open_seen(alloc, answers, trigger, &mut spots[place])
}

/// The same, of all spots.
fn open_spots<A: Answers>(
    alloc: Global,
    answers: &A,
    triggers: &Many<Trigger>,
    spots: &mut [Spot],
) -> Result<(), AllocError>
    ensures moved { OnOk result ((x : Entry) (since : ℕ) → IsBoot x → A.sight answers.now ≡ sight (x ∷ []) 1 → All spots.old (KeepsAt [] triggers.now since) → All spots.new (MovedAt [] x triggers.now since)) }
    ensures places { OnOk result (map place_of spots.new ≡ map place_of spots.old) }
    ensures timed { OnOk result ((timers : List Timer) → AreTimed timers spots.old → AreTimed timers spots.new) }
{
    for place in 0..spots.len() {
        open_at(alloc, answers, triggers, place, spots)?;
    }
    Ok(())
}

/// What an opening makes of an owner's spots; what fires is appended.
fn open_listed<A: Answers>(
    alloc: Global,
    answers: &A,
    owner: u64,
    triggers: &Many<Trigger>,
    spots: &mut [Spot],
    fired: &mut Many<Firing>,
) -> Result<(), AllocError>
    ensures stands { OnOk result ((x : Entry) (since : ℕ) (timers : List Timer) → IsBoot x → A.sight answers.now ≡ sight (x ∷ []) 1 → AreWell triggers.now
        → SpotsStand [] triggers.now since spots.old timers → SpotsStand (x ∷ []) triggers.now since spots.new timers) }
    ensures fired { OnOk result ((x : Entry) (since : ℕ) (timers : List Timer) → IsBoot x → A.sight answers.now ≡ sight (x ∷ []) 1 → AreWell triggers.now
        → SpotsStand [] triggers.now since spots.old timers → fired.new ≡ fired.old ++ firings_of (x ∷ []) 0 (record { owner = owner; triggers = triggers.now; since = since })) }
{
    open_spots(alloc, answers, triggers, spots)?;
    collect_own_of(alloc, owner, spots, fired)
}

/// What an opening makes of an owner; what fires is appended.
fn open_owner<A: Answers>(
    alloc: Global,
    answers: &A,
    attached: &mut Attached,
    fired: &mut Many<Firing>,
) -> Result<(), AllocError>
    ensures stands { OnOk result ((x : Entry) → IsBoot x → A.sight answers.now ≡ sight (x ∷ []) 1 → OwnerStands [] attached.old → OwnerStands (x ∷ []) attached.new) }
    ensures fired { OnOk result ((x : Entry) → IsBoot x → A.sight answers.now ≡ sight (x ∷ []) 1 → OwnerStands [] attached.old → fired.new ≡ fired.old ++ firings_of (x ∷ []) 0 (owner_of attached.old)) }
    ensures same { owner_of attached.new ≡ owner_of attached.old }
    ensures timers { attached.new.timers ≡ attached.old.timers }
{
    open_listed(
        alloc,
        answers,
        attached.owner,
        &attached.triggers,
        attached.spots.as_mut_slice(),
        fired,
    )
}

/// The same, of the owner at a place of the list.
fn open_owner_at<A: Answers>(
    alloc: Global,
    answers: &A,
    place: usize,
    owners: &mut [Attached],
    fired: &mut Many<Firing>,
) -> Result<(), AllocError>
    requires { place < length owners.old }
    ensures stands { OnOk result ((x : Entry) → IsBoot x → A.sight answers.now ≡ sight (x ∷ []) 1 → AtOwner owners.old place (OwnerStands []) → AtOwner owners.new place (OwnerStands (x ∷ []))) }
    ensures fired { OnOk result ((x : Entry) → IsBoot x → A.sight answers.now ≡ sight (x ∷ []) 1 → AtOwner owners.old place (OwnerStands []) → fired.new ≡ fired.old ++ firings_at [] x owners.old place) }
    ensures elsewhere { OnOk result ((n : ℕ) → nat_eq place n ≡ false → slice_get owners.new n ≡ slice_get owners.old n) }
    ensures owners { map owner_of owners.new ≡ map owner_of owners.old }
    ensures queued { OnOk result ((queue : List Timer) → AtOwner owners.old place (HasDue queue) → AtOwner owners.new place (HasDue queue)) }
{
    open_owner(alloc, answers, &mut owners[place], fired)
}

/// The same, of all owners, in their order.
fn open_each<A: Answers>(
    alloc: Global,
    answers: &A,
    owners: &mut [Attached],
    fired: &mut Many<Firing>,
) -> Result<(), AllocError>
    ensures stands { OnOk result ((x : Entry) → IsBoot x → A.sight answers.now ≡ sight (x ∷ []) 1 → AllOwners owners.old (OwnerStands []) → AllOwners owners.new (OwnerStands (x ∷ []))) }
    ensures fired { OnOk result ((x : Entry) → IsBoot x → A.sight answers.now ≡ sight (x ∷ []) 1 → AllOwners owners.old (OwnerStands []) → fired.new ≡ fired.old ++ flat_map (firings_at [] x owners.old) (up_to (length owners.old))) }
    ensures queued { OnOk result ((queue : List Timer) → AllOwners owners.old (HasDue queue) → AllOwners owners.new (HasDue queue)) }
    ensures owners { map owner_of owners.new ≡ map owner_of owners.old }
{
    for place in 0..owners.len() {
        open_owner_at(alloc, answers, place, owners, fired)?;
    }
    Ok(())
}

/// The same, of the owners where they are kept.
pub fn open_owners<A: Answers>(
    alloc: Global,
    answers: &A,
    owners: &mut Vec<Attached>,
    fired: &mut Many<Firing>,
) -> Result<(), AllocError>
    ensures stands { OnOk result ((x : Entry) → IsBoot x → A.sight answers.now ≡ sight (x ∷ []) 1 → AllOwners owners.old.items (OwnerStands []) → AllOwners owners.new.items (OwnerStands (x ∷ []))) }
    ensures fired { OnOk result ((x : Entry) → IsBoot x → A.sight answers.now ≡ sight (x ∷ []) 1 → AllOwners owners.old.items (OwnerStands []) → fired.new ≡ fired.old ++ firings (x ∷ []) 0 (map owner_of owners.old.items)) }
    ensures queued { OnOk result ((queue : List Timer) → AllOwners owners.old.items (HasDue queue) → AllOwners owners.new.items (HasDue queue)) }
    ensures owners { map owner_of owners.new.items ≡ map owner_of owners.old.items }
{
    open_each(alloc, answers, owners.as_mut_slice(), fired)
}
