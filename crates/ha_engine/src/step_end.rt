//! The records of a step: its call is counted, its run ends where its script does, and the run that was queued behind it begins.
ghost use Rattle.std.specs.Prelude.{◌≡◌, ◌+◌, ◌-◌, ◌<◌, ◌≤◌, ◌^◌, ◌∷◌, [], ◌++◌, ℕ, suc, true, List, None, Some, take, drop, length, vec_len, vec_capacity};
ghost use Rattle.ha_model.specs.declared.record.Record.{Record as Run};
ghost use Rattle.ha_config.specs.Sound.{are_sound_actions};
ghost use Rattle.ha_sight.specs.Items.{is_call};
ghost use Rattle.ha_journal.specs.Journal.{IsJournal, last_place, units};
ghost use Rattle.ha_model.specs.Lawful.{record_of};
ghost use Rattle.ha_model.specs.Records.{actions_of};
ghost use Rattle.ha_sight.specs.Scripts.{Branch as Path};
ghost use Rattle.ha_ready.specs.ReadyPairs.{changed_at, pairs_from};
ghost use Rattle.run_modes.specs.Calls.{call_counted, own_ended};
ghost use Rattle.run_modes.specs.Table.{HasBegun, ended_at};
ghost use Rattle.ha_engine.specs.Admits.{has_action};
ghost use Rattle.engine_parts.specs.Kept.{Going, nobody};
ghost use Rattle.engine_parts.specs.Records.{HasRoom, IsTable, first_branches};
ghost use Rattle.engine_entry.specs.Stepping.{StepEnds, cause_of as cause_lem};

use engine_parts::forget::forget;
use engine_parts::parts::Parts;
use engine_parts::ready::{Ready, lower};
use ha_config::Action;
use ha_model::EndCause;
use ha_sight::{Item, Progress};
use ha_value::Many;
use named_runs::NamedRuns;
use segment_view::Segment;
use std::alloc::Global;

/// How a run ends whose script is so far.
pub(crate) fn cause_of(progress: Progress) -> Option<EndCause>
    ensures { result ≡ cause_lem progress }
{
    match progress {
        Progress::Going => None,
        Progress::Done => Some(EndCause::Done),
        Progress::Stopped => Some(EndCause::Stopped),
        Progress::Faulted => Some(EndCause::Faulted),
    }
}

/// The call of a step is counted, if it made one.
pub(crate) fn count_call(runs: &mut NamedRuns, serial: u64, item: &Item)
    requires { (r : Run) × (record_of runs.old.list serial ≡ Some r) × (r.serial ≡ serial) × (r.calls < 2 ^ 64 - 1) }
    ensures list { runs.new.list ≡ call_counted (is_call item.now) serial runs.old.list }
    ensures closed { runs.new.closed ≡ runs.old.closed }
    ensures firsts { runs.new.firsts ≡ runs.old.firsts }
    ensures spare { runs.new.spare ≡ runs.old.spare }
{
    match item {
        Item::Call { .. } => runs.called(serial),
        Item::Nothing => {}
        Item::Fired { .. } => {}
        Item::Switched(_) => {}
        Item::Triggered { .. } => {}
        Item::Failed(_) => {}
        Item::Started { .. } => {}
        Item::Halted(_) => {}
        Item::Helped(_) => {}
    }
}

/// Whether a script has an action.
fn has_some(actions: &[Action]) -> bool
    ensures { result ≡ has_action actions.now }
{
    actions.len() > 0
}

/// The actions of a unit, which are sound.
fn script_of<'a>(journal: &'a Segment<'_>, unit: u32) -> &'a [Action]
    ensures script { result.now ≡ actions_of (units journal.now) unit }
    ensures sound { are_sound_actions (actions_of (units journal.now) unit) ≡ true }
{
    let (list, book) = journal.known();
    book.actions(list, unit)
}

/// Whether the script of a run has one.
fn acts(journal: &Segment<'_>, runs: &NamedRuns, serial: u64) -> bool
    ensures value { (r : Run) → record_of runs.now.list serial ≡ Some r → result ≡ has_action (actions_of (units journal.now) r.automation) }
    ensures sound { (r : Run) → record_of runs.now.list serial ≡ Some r → are_sound_actions (actions_of (units journal.now) r.automation) ≡ true }
{
    match runs.automation(serial) {
        Some(automation) => has_some(script_of(journal, automation)),
        None => false,
    }
}

/// The pair of an outer branch is put in at a place; there is room for it.
fn put_reserved(ready: &mut Ready, alloc: Global, at: usize, serial: u64)
    requires fits { at ≤ length ready.old.pairs.items }
    requires room { vec_len ready.old.pairs < vec_capacity ready.old.pairs }
    ensures items { ready.new.pairs.items ≡ take at ready.old.pairs.items ++ (serial, []) ∷ drop at ready.old.pairs.items }
    ensures len { vec_len ready.new.pairs ≡ vec_len ready.old.pairs + 1 }
    ensures capacity { vec_capacity ready.old.pairs ≤ vec_capacity ready.new.pairs }
{
    match ready.pairs.insert(at, (serial, Many::make(alloc))) {
        Ok(()) => {}
        Err(_) => unreachable!(),
    }
}

/// The outer branch of a run that begins is ready; there is room for its pair.
fn put_first(ready: &mut Ready, alloc: Global, serial: u64)
    requires { vec_len ready.old.pairs < vec_capacity ready.old.pairs }
    ensures items { (m : ℕ) (by : ℕ → List Path) → ready.old.pairs.items ≡ pairs_from 0 m by → by serial ≡ [] → 0 < serial → serial ≤ m → ready.new.pairs.items ≡ pairs_from 0 m (changed_at serial ([] ∷ []) by) }
    ensures len { vec_len ready.new.pairs ≡ vec_len ready.old.pairs + 1 }
    ensures capacity { vec_capacity ready.old.pairs ≤ vec_capacity ready.new.pairs }
{
    let at = lower(ready.pairs.as_slice(), serial);
    put_reserved(ready, alloc, at, serial);
}

/// A queued run begins.
fn begin_run(runs: &NamedRuns, parts: &mut Parts, alloc: Global, journal: &Segment<'_>, serial: u64)
    requires { HasRoom 1 parts.old }
    ensures pairs { (m : ℕ) (by : ℕ → List Path) (r : Run) → parts.old.ready.pairs.items ≡ pairs_from 0 m by → by serial ≡ [] → 0 < serial → serial ≤ m → record_of runs.now.list serial ≡ Some r
        → parts.new.ready.pairs.items ≡ pairs_from 0 m (changed_at serial (first_branches (actions_of (units journal.now) r.automation)) by) }
    ensures sound { (r : Run) → record_of runs.now.list serial ≡ Some r → are_sound_actions (actions_of (units journal.now) r.automation) ≡ true }
    ensures rest { parts.new ≡ record parts.old { ready = parts.new.ready } }
    ensures room { (n : ℕ) → HasRoom (suc n) parts.old → HasRoom n parts.new }
{
    if acts(journal, runs, serial) {
        put_first(&mut parts.ready, alloc, serial);
    }
}

/// The run ends at the last entry, and the one that was queued behind it begins.
fn end_run(
    runs: &mut NamedRuns,
    parts: &mut Parts,
    alloc: Global,
    journal: &Segment<'_>,
    serial: u64,
    cause: EndCause,
)
    requires journal { IsJournal journal.now }
    requires some { 0 < length journal.now }
    requires run { (r : Run) × (record_of runs.old.list serial ≡ Some r) × (r.serial ≡ serial) × HasBegun r.begin × (r.end ≡ None) }
    requires room { HasRoom 1 parts.old }
    ensures list { runs.new.list ≡ ended_at serial (last_place journal.now) cause runs.old.list }
    ensures closed { runs.new.closed ≡ runs.old.closed }
    ensures firsts { runs.new.firsts ≡ runs.old.firsts }
    ensures kept { StepEnds journal.now runs.old.list serial → Going nobody journal.now runs.old.list parts.old → Going nobody journal.now runs.new.list parts.new }
    ensures spare { runs.old.spare ≤ runs.new.spare }
    ensures room { (n : ℕ) → HasRoom (suc n) parts.old → HasRoom n parts.new }
    ensures rested { parts.new.rested ≡ parts.old.rested }
{
    let place = journal.place();
    forget(parts, serial, place);
    match runs.ended(serial, place, cause) {
        Some(next) => begin_run(runs, parts, alloc, journal, next),
        None => {}
    }
}

/// The same where its script has come to an end.
pub(crate) fn end_if(
    runs: &mut NamedRuns,
    parts: &mut Parts,
    alloc: Global,
    journal: &Segment<'_>,
    serial: u64,
    cause: Option<EndCause>,
)
    requires journal { IsJournal journal.now }
    requires some { 0 < length journal.now }
    requires run { (r : Run) × (record_of runs.old.list serial ≡ Some r) × (r.serial ≡ serial) × HasBegun r.begin × (r.end ≡ None) }
    requires room { HasRoom 1 parts.old }
    ensures list { runs.new.list ≡ own_ended (last_place journal.now) serial cause runs.old.list }
    ensures closed { runs.new.closed ≡ runs.old.closed }
    ensures firsts { runs.new.firsts ≡ runs.old.firsts }
    ensures kept { StepEnds journal.now runs.old.list serial → Going nobody journal.now runs.old.list parts.old → IsTable journal.now runs.new.list × Going nobody journal.now runs.new.list parts.new }
    ensures spare { runs.old.spare ≤ runs.new.spare }
    ensures room { (n : ℕ) → HasRoom (suc n) parts.old → HasRoom n parts.new }
    ensures rested { parts.new.rested ≡ parts.old.rested }
{
    match cause {
        Some(cause) => end_run(runs, parts, alloc, journal, serial, cause),
        None => {}
    }
}
