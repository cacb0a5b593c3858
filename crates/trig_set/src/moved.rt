//! Whether what a trigger watches stays.
ghost use Rattle.std.specs.Prelude.{◌≡◌, ℕ, find, is_some, length, nat_lt, suc, true, false, Some};
ghost use Rattle.std.specs.Option.{option_copied, option_map_or};
ghost use Rattle.ha_journal.specs.Entries.{changes_in, is_boot, opens_segment};
ghost use Rattle.ha_config.specs.Equal.{same_flag};
ghost use Rattle.ha_config.specs.Numbers.{in_bounds as in_bounds_lem};
ghost use Rattle.ha_journal.specs.Moves.{latest_number, report_number, sight};
ghost use Rattle.ha_sight.specs.Rules.{is_state};
ghost use Rattle.ha_journal.specs.Journal.{Journal, more};
ghost use Rattle.ha_config.specs.Sound.{may_hold};
ghost use Rattle.trig_set.specs.Kept.{is_true};
ghost use Rattle.trig_set.specs.Table.{number_among as number_among_lem, number_changed, number_reported as reported_number_lem};
ghost use Rattle.ha_journal.specs.Holds.{watches};
ghost use Rattle.trig_set.specs.Scenes.{Shows, shift_of as shift_of_lem};

use crate::changes::Changes;
use crate::equal::equal_flag;
use crate::scene::{Scene, Shift};
use ha_config::{Cmd, TriggerRule, same_id};
use ha_journal::Entry;
use ha_sight::{HelperChange, Item};
use ha_value::{EntityId, Num, Word};
use trig_numeric::{in_bounds, number_in};
use trig_state::state_stays;

/// What the entry changes of an entity, if it is listed.
pub fn shift_of<'a>(shifts: &'a Changes<'_>, entity: &EntityId) -> Option<&'a Shift>
    ensures { option_copied result ≡ shift_of_lem shifts.now entity.now }
{
    shifts.first_of(entity)
}

/// Whether what a state trigger watches of an entity stays.
fn state_stays_in(scene: &Scene<'_>, rule: &TriggerRule, entity: &EntityId) -> bool
    requires { is_state rule.now ≡ true }
    ensures { (j : Journal) (since : ℕ) → Shows scene.now j since → nat_lt since (length j) ≡ true
        → result ≡ watches (sight j (length j)) (sight (more j scene.now.entry.now) (suc (length j))) j (more j scene.now.entry.now) rule.now (Some entity.now) }
{
    match shift_of(scene.shifts, entity) {
        Some(shift) => state_stays(rule, shift.old.as_ref(), shift.new.as_ref()),
        None => true,
    }
}

/// The number of a report of an entity, if the entry is one.
fn number_of_report(entry: &Entry, entity: &EntityId, attribute: Option<&Word>) -> Option<Num>
    ensures { result ≡ reported_number_lem entity.now (option_copied attribute.entry) entry.now }
{
    match entry {
        Entry::Line {
            cmd: Cmd::Report {
                entity: reported,
                text,
                attributes,
            },
            ..
        } if same_id(reported, entity) => number_in(attribute, text, attributes.as_slice()),
        _ => None,
    }
}

/// The number that a change gives of an entity, if it is of that helper.
fn number_of_change(
    change: &HelperChange,
    entity: &EntityId,
    attribute: Option<&Word>,
) -> Option<Num>
    ensures { result ≡ number_changed entity.now (option_copied attribute.entry) change.now }
{
    if same_id(&change.entity, entity) {
        number_in(attribute, &change.text, &[])
    } else {
        None
    }
}

/// The first of these changes that gives a number of an entity.
fn giving_among<'a>(
    changes: &'a [HelperChange],
    entity: &EntityId,
    attribute: Option<&Word>,
) -> Option<&'a HelperChange>
    ensures { option_copied result ≡ find (λ c. is_some (number_changed entity.now (option_copied attribute.entry) c)) changes.now }
{
    changes.iter().find(|change| number_of_change(change, entity, attribute).is_some())
}

/// The first number that one of these changes gives of an entity.
fn number_among(
    changes: &[HelperChange],
    entity: &EntityId,
    attribute: Option<&Word>,
) -> Option<Num>
    ensures { result ≡ number_among_lem entity.now (option_copied attribute.entry) changes.now }
{
    match giving_among(changes, entity, attribute) {
        Some(change) => number_of_change(change, entity, attribute),
        None => None,
    }
}

/// The number that the entry gives of an entity as a helper that it changes.
fn number_of_changes(entry: &Entry, entity: &EntityId, attribute: Option<&Word>) -> Option<Num>
    ensures { result ≡ number_among_lem entity.now (option_copied attribute.entry) (changes_in entry.now) }
{
    match entry {
        Entry::Step {
            item: Item::Helped(changes),
            ..
        } => number_among(changes.as_slice(), entity, attribute),
        _ => None,
    }
}

/// The number that the entry gives of an entity, if it does.
pub fn reported_number(entry: &Entry, entity: &EntityId, attribute: Option<&Word>) -> Option<Num>
    ensures { result ≡ report_number entity.now (option_copied attribute.entry) entry.now }
{
    match number_of_report(entry, entity, attribute) {
        Some(number) => Some(number),
        None => number_of_changes(entry, entity, attribute),
    }
}

/// The latest number after the entry.
fn latest_after(scene: &Scene<'_>, entity: &EntityId, attribute: Option<&Word>) -> Option<Num>
    ensures { (j : Journal) (since : ℕ) → Shows scene.now j since
        → result ≡ latest_number entity.now (option_copied attribute.entry) (more j scene.now.entry.now) }
{
    if opens(scene.entry) {
        return None;
    }
    match reported_number(scene.entry, entity, attribute) {
        Some(number) => Some(number),
        None => scene.numbers.latest(entity, attribute),
    }
}

/// Whether a number is in the bounds; none is not.
pub fn is_within(above: Option<Num>, below: Option<Num>, number: Option<Num>) -> bool
    ensures { result ≡ option_map_or (in_bounds_lem above below) number false }
{
    match number {
        Some(number) => in_bounds(above, below, &number),
        None => false,
    }
}

/// Whether the latest number is in the bounds after the entry exactly where it was before it.
fn numeric_stays_in(
    scene: &Scene<'_>,
    entity: &EntityId,
    attribute: Option<&Word>,
    above: Option<Num>,
    below: Option<Num>,
) -> bool
    ensures { (j : Journal) (since : ℕ) → Shows scene.now j since
        → result ≡ same_flag (option_map_or (in_bounds_lem above below) (latest_number entity.now (option_copied attribute.entry) j) false)
        (option_map_or (in_bounds_lem above below) (latest_number entity.now (option_copied attribute.entry) (more j scene.now.entry.now)) false) }
{
    let latest = scene.numbers.latest(entity, attribute);
    let next = latest_after(scene, entity, attribute);
    let was = is_within(above, below, latest);
    let is = is_within(above, below, next);
    equal_flag(was, is)
}

/// Whether the entry is a Boot.
pub fn boots(entry: &Entry) -> bool
    ensures { result ≡ is_boot entry.now }
{
    matches!(entry, Entry::Boot { .. })
}

/// Whether the entry is a Boot or a Restart.
pub fn opens(entry: &Entry) -> bool
    ensures { result ≡ opens_segment entry.now }
{
    matches!(
        entry,
        Entry::Boot { .. }
            | Entry::Line {
                cmd: Cmd::Restart,
                ..
            }
    )
}

/// Whether what the `for` of a trigger watches stays as it was; `is` and `was` say whether the trigger's template is true after the entry
/// and was before.
pub fn stays(
    scene: &Scene<'_>,
    rule: &TriggerRule,
    entity: Option<&EntityId>,
    is: bool,
    was: bool,
) -> bool
    ensures { (j : Journal) (since : ℕ) → Shows scene.now j since → nat_lt since (length j) ≡ true
        → is ≡ is_true (sight (more j scene.now.entry.now) (length (more j scene.now.entry.now))) rule.now
        → was ≡ is_true (sight j (length j)) rule.now
        → may_hold rule.now ≡ true
        → result ≡ watches (sight j (length j)) (sight (more j scene.now.entry.now) (suc (length j))) j (more j scene.now.entry.now) rule.now (option_copied entity.entry) }
{
    match (rule, entity) {
        (TriggerRule::State { .. }, Some(entity)) => state_stays_in(scene, rule, entity),
        (
            TriggerRule::Numeric {
                attribute,
                above,
                below,
                ..
            },
            Some(entity),
        ) => numeric_stays_in(scene, entity, attribute.as_ref(), *above, *below),
        (TriggerRule::Template(_), None) => equal_flag(was, is),
        _ => false,
    }
}
