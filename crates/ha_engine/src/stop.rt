//! The live runs of an automation that is turned off with stop: they go, and end.
ghost use Rattle.std.specs.Prelude.{◌≡◌, ◌<◌, ◌≤◌, ◌^◌, ℕ, [], Some, fold, length, nat_eq, if◌then◌else◌};
ghost use Rattle.ha_model.specs.declared.record.EndCause.{EndCause as Cause};
ghost use Rattle.ha_journal.specs.Journal.{Journal, last_place};
ghost use Rattle.run_modes.specs.Calls.{stop_turned};
ghost use Rattle.run_modes.specs.Table.{stopped};
ghost use Rattle.named_runs.specs.Named.{first_in};
ghost use Rattle.ha_engine.specs.Named.{named_as};
ghost use Rattle.engine_parts.specs.Kept.{Going, nobody};
ghost use Rattle.engine_parts.specs.Records.{HasRoom, IsTable};

use crate::admit::forget_live;
use engine_parts::parts::Parts;
use ha_model::EndCause;
use named_runs::NamedRuns;

/// All live runs of a unit go, and end at an entry for this cause.
pub(crate) fn stop_runs(
    runs: &mut NamedRuns,
    parts: &mut Parts,
    automation: u32,
    place: u64,
    cause: EndCause,
)
    requires place { place < 2 ^ 56 }
    requires room { HasRoom 0 parts.old }
    ensures list { runs.new.list ≡ stopped (Some automation) place cause runs.old.list }
    ensures kept { (k : Journal) → place ≡ last_place k → 0 < length k → IsTable k runs.old.list → Going nobody k runs.old.list parts.old → IsTable k runs.new.list × Going nobody k runs.new.list parts.new }
    ensures closed { runs.new.closed ≡ runs.old.closed }
    ensures firsts { runs.new.firsts ≡ runs.old.firsts }
    ensures spare { runs.old.spare ≤ runs.new.spare }
    ensures room { (n : ℕ) → HasRoom n parts.old → HasRoom n parts.new }
    ensures rested { parts.new.rested ≡ parts.old.rested }
{
    forget_live(runs, parts, automation, place);
    runs.stop_all(Some(automation), place, cause);
}

/// The same where they are to be stopped.
pub(crate) fn stop_if(
    stops: bool,
    runs: &mut NamedRuns,
    parts: &mut Parts,
    automation: u32,
    place: u64,
)
    requires place { place < 2 ^ 56 }
    requires room { HasRoom 0 parts.old }
    ensures list { runs.new.list ≡ (if stops then stopped (Some automation) place Cause.SwitchedOff runs.old.list else runs.old.list) }
    ensures kept { (k : Journal) → place ≡ last_place k → 0 < length k → IsTable k runs.old.list → Going nobody k runs.old.list parts.old → IsTable k runs.new.list × Going nobody k runs.new.list parts.new }
    ensures closed { runs.new.closed ≡ runs.old.closed }
    ensures firsts { runs.new.firsts ≡ runs.old.firsts }
    ensures spare { runs.old.spare ≤ runs.new.spare }
    ensures room { (n : ℕ) → HasRoom n parts.old → HasRoom n parts.new }
    ensures rested { parts.new.rested ≡ parts.old.rested }
{
    if stops {
        stop_runs(runs, parts, automation, place, EndCause::SwitchedOff);
    }
}

/// Whether two numbers are of one unit.
fn is_unit(one: u32, other: u32) -> bool
    ensures { result ≡ nat_eq one other }
{
    one == other
}

/// The runs of a unit end, where it has the name of another one.
fn stop_same(runs: &mut NamedRuns, parts: &mut Parts, unit: u32, first: u32, place: u64)
    requires place { place < 2 ^ 56 }
    requires room { HasRoom 0 parts.old }
    requires known { unit < length runs.old.firsts }
    ensures list { runs.new.list ≡ (if nat_eq (first_in runs.old.firsts unit) first then stop_turned place Cause.SwitchedOff runs.old.list unit else runs.old.list) }
    ensures kept { (k : Journal) → place ≡ last_place k → 0 < length k → IsTable k runs.old.list → Going nobody k runs.old.list parts.old → IsTable k runs.new.list × Going nobody k runs.new.list parts.new }
    ensures closed { runs.new.closed ≡ runs.old.closed }
    ensures firsts { runs.new.firsts ≡ runs.old.firsts }
    ensures spare { runs.old.spare ≤ runs.new.spare }
    ensures room { (n : ℕ) → HasRoom n parts.old → HasRoom n parts.new }
    ensures rested { parts.new.rested ≡ parts.old.rested }
{
    let same = is_unit(runs.first_unit(unit), first);
    stop_if(same, runs, parts, unit, place);
}

/// The live runs of all units end that have the name of this one.
fn stop_named(runs: &mut NamedRuns, parts: &mut Parts, automation: u32, place: u64)
    requires place { place < 2 ^ 56 }
    requires room { HasRoom 0 parts.old }
    requires known { automation < length runs.old.firsts }
    requires few { length runs.old.firsts < 2 ^ 32 }
    ensures list { runs.new.list ≡ fold (stop_turned place Cause.SwitchedOff) runs.old.list (named_as runs.old.firsts automation) }
    ensures kept { (k : Journal) → place ≡ last_place k → 0 < length k → IsTable k runs.old.list → Going nobody k runs.old.list parts.old → IsTable k runs.new.list × Going nobody k runs.new.list parts.new }
    ensures closed { runs.new.closed ≡ runs.old.closed }
    ensures firsts { runs.new.firsts ≡ runs.old.firsts }
    ensures spare { runs.old.spare ≤ runs.new.spare }
    ensures room { (n : ℕ) → HasRoom n parts.old → HasRoom n parts.new }
    ensures rested { parts.new.rested ≡ parts.old.rested }
{
    let first = runs.first_unit(automation);
    'each: for unit in 0..runs.units() {
        stop_same(runs, parts, unit as u32, first, place);
    }
}

/// The same where they are to be stopped.
pub(crate) fn stop_named_if(
    stops: bool,
    runs: &mut NamedRuns,
    parts: &mut Parts,
    automation: u32,
    place: u64,
)
    requires place { place < 2 ^ 56 }
    requires room { HasRoom 0 parts.old }
    requires known { automation < length runs.old.firsts }
    requires few { length runs.old.firsts < 2 ^ 32 }
    ensures list { runs.new.list ≡ fold (stop_turned place Cause.SwitchedOff) runs.old.list (if stops then named_as runs.old.firsts automation else []) }
    ensures kept { (k : Journal) → place ≡ last_place k → 0 < length k → IsTable k runs.old.list → Going nobody k runs.old.list parts.old → IsTable k runs.new.list × Going nobody k runs.new.list parts.new }
    ensures closed { runs.new.closed ≡ runs.old.closed }
    ensures firsts { runs.new.firsts ≡ runs.old.firsts }
    ensures spare { runs.old.spare ≤ runs.new.spare }
    ensures room { (n : ℕ) → HasRoom n parts.old → HasRoom n parts.new }
    ensures rested { parts.new.rested ≡ parts.old.rested }
{
    if stops {
        stop_named(runs, parts, automation, place);
    }
}
