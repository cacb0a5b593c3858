//! The end of the work on a step: its records, the runs that it stops, its attempts, and the flags of the sources.
ghost use Rattle.std.specs.Prelude.{◌≡◌, ◌<◌, ◌≤◌, ◌^◌, ◌∷◌, [], ℕ, suc, OnOk, OnErr, length};
ghost use Rattle.ha_journal.specs.Attempts.{fired as fired_lem};
ghost use Rattle.ha_journal.specs.Journal.{Journal, last_place};
ghost use Rattle.ha_model.specs.Lawful.{Right};
ghost use Rattle.engine_parts.specs.Kept.{Going, Kept, nobody};
ghost use Rattle.engine_parts.specs.Owners.{attempts_by};
ghost use Rattle.engine_parts.specs.Records.{HasRoom, IsTable};
ghost use Rattle.engine_parts.specs.Stages.{Stopped};
ghost use Rattle.ha_engine.specs.Named.{AreFirsts};
ghost use Rattle.engine_entry.specs.Stepping.{StepTold, StepTelling, halts_each, stops_by, stops_each};

use crate::conclude::{make_room, settle};
use crate::prepare::prepare;
use crate::step_end::{cause_of, count_call, end_if};
use crate::stop::{stop_if, stop_runs};
use crate::switch::ends_runs;
use engine_parts::parts::Parts;
use ha_journal::{Entry, Firing};
use ha_model::EndCause;
use ha_sight::{Item, Progress};
use ha_value::Many;
use named_runs::NamedRuns;
use segment_view::Segment;
use std::alloc::{AllocError, Global};

/// The runs of one automation end, where it is turned off with stop.
fn stop_target(runs: &mut NamedRuns, parts: &mut Parts, target: &(u32, bool, bool), place: u64)
    requires place { place < 2 ^ 56 }
    requires room { HasRoom 0 parts.old }
    ensures list { runs.new.list ≡ stops_each place (target.now ∷ []) runs.old.list }
    ensures kept { (k : Journal) → place ≡ last_place k → 0 < length k → IsTable k runs.old.list → Going nobody k runs.old.list parts.old → IsTable k runs.new.list × Going nobody k runs.new.list parts.new }
    ensures closed { runs.new.closed ≡ runs.old.closed }
    ensures firsts { runs.new.firsts ≡ runs.old.firsts }
    ensures spare { runs.old.spare ≤ runs.new.spare }
    ensures room { (n : ℕ) → HasRoom n parts.old → HasRoom n parts.new }
    ensures rested { parts.new.rested ≡ parts.old.rested }
{
    let stops = ends_runs(target.1, target.2);
    stop_if(stops, runs, parts, target.0, place);
}

/// The runs of those that are turned off with stop end, one automation after the other.
fn stop_targets(runs: &mut NamedRuns, parts: &mut Parts, targets: &[(u32, bool, bool)], place: u64)
    requires place { place < 2 ^ 56 }
    requires room { HasRoom 0 parts.old }
    ensures list { runs.new.list ≡ stops_each place targets.now runs.old.list }
    ensures kept { (k : Journal) → place ≡ last_place k → 0 < length k → IsTable k runs.old.list → Going nobody k runs.old.list parts.old → IsTable k runs.new.list × Going nobody k runs.new.list parts.new }
    ensures closed { runs.new.closed ≡ runs.old.closed }
    ensures firsts { runs.new.firsts ≡ runs.old.firsts }
    ensures spare { runs.old.spare ≤ runs.new.spare }
    ensures room { (n : ℕ) → HasRoom n parts.old → HasRoom n parts.new }
    ensures rested { parts.new.rested ≡ parts.old.rested }
{
    'targets: for target in targets {
        stop_target(runs, parts, target, place);
    }
}

/// The runs of these scripts end, one script after the other.
fn halt_scripts(runs: &mut NamedRuns, parts: &mut Parts, scripts: &[u32], place: u64)
    requires place { place < 2 ^ 56 }
    requires room { HasRoom 0 parts.old }
    ensures list { runs.new.list ≡ halts_each place scripts.now runs.old.list }
    ensures kept { (k : Journal) → place ≡ last_place k → 0 < length k → IsTable k runs.old.list → Going nobody k runs.old.list parts.old → IsTable k runs.new.list × Going nobody k runs.new.list parts.new }
    ensures closed { runs.new.closed ≡ runs.old.closed }
    ensures firsts { runs.new.firsts ≡ runs.old.firsts }
    ensures spare { runs.old.spare ≤ runs.new.spare }
    ensures room { (n : ℕ) → HasRoom n parts.old → HasRoom n parts.new }
    ensures rested { parts.new.rested ≡ parts.old.rested }
{
    'scripts: for script in scripts {
        stop_runs(runs, parts, *script, place, EndCause::SwitchedOff);
    }
}

/// The same of an item, where it switches automations or ends runs of scripts.
fn stop_switched(runs: &mut NamedRuns, parts: &mut Parts, item: &Item, place: u64)
    requires place { place < 2 ^ 56 }
    requires room { HasRoom 0 parts.old }
    ensures list { runs.new.list ≡ stops_by place item.now runs.old.list }
    ensures kept { (k : Journal) → place ≡ last_place k → 0 < length k → IsTable k runs.old.list → Going nobody k runs.old.list parts.old → IsTable k runs.new.list × Going nobody k runs.new.list parts.new }
    ensures closed { runs.new.closed ≡ runs.old.closed }
    ensures firsts { runs.new.firsts ≡ runs.old.firsts }
    ensures spare { runs.old.spare ≤ runs.new.spare }
    ensures room { (n : ℕ) → HasRoom n parts.old → HasRoom n parts.new }
    ensures rested { parts.new.rested ≡ parts.old.rested }
{
    match item {
        Item::Switched(targets) => stop_targets(runs, parts, targets.as_slice(), place),
        Item::Nothing => {}
        Item::Call { .. } => {}
        Item::Fired { .. } => {}
        Item::Triggered { .. } => {}
        Item::Failed(_) => {}
        Item::Started { .. } => {}
        Item::Halted(scripts) => halt_scripts(runs, parts, scripts.as_slice(), place),
        Item::Helped(_) => {}
    }
}

/// The calls of a step on the records: its call, its end and its stops.
fn tell_step(
    runs: &mut NamedRuns,
    parts: &mut Parts,
    alloc: Global,
    journal: &Segment<'_>,
    serial: u64,
    item: &Item,
    progress: Progress,
)
    requires told { StepTelling journal.now runs.old.list parts.old progress serial item.now }
    requires room { HasRoom 1 parts.old }
    ensures stopped { Stopped journal.now runs.new.list parts.new }
    ensures closed { runs.new.closed ≡ runs.old.closed }
    ensures firsts { runs.new.firsts ≡ runs.old.firsts }
    ensures spare { runs.old.spare ≤ runs.new.spare }
    ensures room { (n : ℕ) → HasRoom (suc n) parts.old → HasRoom n parts.new }
{
    count_call(runs, serial, item);
    end_if(runs, parts, alloc, journal, serial, cause_of(progress));
    stop_switched(runs, parts, item, journal.place());
}

/// The same for the step that the last entry is.
fn tell_records(
    runs: &mut NamedRuns,
    parts: &mut Parts,
    alloc: Global,
    journal: &Segment<'_>,
    progress: Progress,
)
    requires told { StepTold journal.now runs.old.list parts.old progress }
    requires room { HasRoom 1 parts.old }
    ensures stopped { Stopped journal.now runs.new.list parts.new }
    ensures closed { runs.new.closed ≡ runs.old.closed }
    ensures firsts { runs.new.firsts ≡ runs.old.firsts }
    ensures spare { runs.old.spare ≤ runs.new.spare }
    ensures room { (n : ℕ) → HasRoom (suc n) parts.old → HasRoom n parts.new }
{
    match journal.last_entry() {
        Entry::Step { serial, item, .. } => {
            tell_step(runs, parts, alloc, journal, *serial, item, progress)
        }
        _ => unreachable!(),
    }
}

/// The end of the work on a step. After an error the records are as before, and the parts may only be dropped.
pub(crate) fn conclude_step(
    alloc: Global,
    journal: &Segment<'_>,
    runs: &mut NamedRuns,
    parts: &mut Parts,
    progress: Progress,
    fired: Many<Firing>,
) -> Result<(), AllocError>
    requires told { StepTold journal.now runs.old.list parts.old progress }
    requires fired { attempts_by fired ≡ fired_lem journal.now (last_place journal.now) }
    requires named { AreFirsts journal.now runs.old.firsts }
    ensures ok { OnOk result (Right journal.now runs.new.list × Kept journal.now runs.new.list parts.new) }
    ensures err { OnErr result (runs.new.list ≡ runs.old.list) }
    ensures closed { runs.new.closed ≡ runs.old.closed }
    ensures firsts { runs.new.firsts ≡ runs.old.firsts }
{
    let stack = prepare(alloc, &*journal, parts, fired)?;
    make_room(runs, parts, stack.len() + 1)?;
    tell_records(runs, parts, alloc, journal, progress);
    settle(alloc, journal, runs, parts, stack);
    Ok(())
}
