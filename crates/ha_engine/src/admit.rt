//! The attempts of an entry that pass, in order: each that its mode admits has a run.
ghost use Rattle.std.specs.Prelude.{◌≡◌, ◌<◌, ◌≤◌, ◌^◌, ◌∷◌, [], ◌++◌, ℕ, suc, List, Some, length, vec_len};
ghost use Rattle.ha_journal.specs.Attempts.{Attempt as Tried};
ghost use Rattle.ha_journal.specs.Journal.{last_place, Journal};
ghost use Rattle.run_modes.specs.Calls.{all_tried, tried};
ghost use Rattle.ha_ready.specs.ReadyPairs.{pairs_of};
ghost use Rattle.engine_parts.specs.Records.{HasRoom, IsTable};
ghost use Rattle.run_modes.specs.Table.{live_of};
ghost use Rattle.engine_parts.specs.Kept.{Going, nobody};
ghost use Rattle.ha_engine.specs.Named.{AreFirsts, AreKnown};
ghost use Rattle.ha_engine.specs.Admits.{ArePrepared, IsPrepared, OneSlot, SlotsBy, are_in, branches_if, from_end, gone_by, pairs_by};

use engine_parts::forget::forget;
use engine_parts::parts::Parts;
use ha_config::Mode;
use ha_sight::Env;
use ha_value::Many;
use named_runs::NamedRuns;
use run_modes::Admission;
use script_step::Frames;
use std::alloc::Global;

/// An attempt that passes, with the frames that its run begins with.
#[derive(Drop)]
pub struct Prepared {
    pub(crate) automation: u32,
    pub(crate) mode: Mode,
    pub(crate) max: u32,
    /// Its place among all attempts of the entry.
    pub(crate) order: u64,
    pub(crate) env: Env,
    pub(crate) frames: Box<Frames>,
    /// Whether its script has an action.
    pub(crate) acts: bool,
}

/// All live runs of an automation go at the last place.
pub(crate) fn forget_live(runs: &NamedRuns, parts: &mut Parts, automation: u32, place: u64)
    requires { HasRoom 0 parts.old }
    ensures going { (k : Journal) → place ≡ last_place k → IsTable k runs.now.list → Going nobody k runs.now.list parts.old → Going (are_in (live_of automation runs.now.list)) k runs.now.list parts.new }
    ensures rested { parts.new.rested ≡ parts.old.rested }
    ensures room { (n : ℕ) → HasRoom n parts.old → HasRoom n parts.new }
{
    let most = runs.len();
    'runs: for at in 0..most {
        match runs.live(automation, at) {
            Some(serial) => forget(parts, serial, place),
            None => return,
        }
    }
}

/// Those that a new run replaces go.
fn clear_way(runs: &NamedRuns, parts: &mut Parts, mode: Mode, automation: u32, place: u64)
    requires { HasRoom 0 parts.old }
    ensures going { (k : Journal) → place ≡ last_place k → IsTable k runs.now.list → Going nobody k runs.now.list parts.old → Going (gone_by mode automation runs.now.list) k runs.now.list parts.new }
    ensures rested { parts.new.rested ≡ parts.old.rested }
    ensures room { (n : ℕ) → HasRoom n parts.old → HasRoom n parts.new }
{
    match mode {
        Mode::Restart => forget_live(runs, parts, automation, place),
        Mode::Single => {}
        Mode::Queued => {}
        Mode::Parallel => {}
    }
}

/// The frames of a new run, and its pair where it may step, are put behind the others.
fn put_run(parts: &mut Parts, alloc: Global, serial: u64, frames: Box<Frames>, first: bool)
    requires { HasRoom 1 parts.old }
    ensures slots { OneSlot serial frames.value parts.old.frames.items parts.new.frames.items }
    ensures pairs { parts.new.ready.pairs.items ≡ parts.old.ready.pairs.items ++ pairs_of serial (branches_if first) }
    ensures rest { parts.new ≡ record parts.old { frames = parts.new.frames; ready = parts.new.ready } }
    ensures room { (n : ℕ) → HasRoom (suc n) parts.old → HasRoom n parts.new }
{
    let mut frames = frames;
    frames.set_serial(serial);
    parts.frames.push(frames);
    if first {
        parts.ready.pairs.push_reserved((serial, Many::make(alloc)));
    }
}

/// What becomes of the frames of an attempt that is made: `told` says how its mode admits it.
fn take_in(parts: &mut Parts, alloc: Global, told: Admission, frames: Box<Frames>, acts: bool)
    requires { HasRoom 1 parts.old }
    ensures slots { SlotsBy told frames.value parts.old.frames.items parts.new.frames.items }
    ensures pairs { parts.new.ready.pairs.items ≡ parts.old.ready.pairs.items ++ pairs_by told acts }
    ensures rest { parts.new ≡ record parts.old { frames = parts.new.frames; ready = parts.new.ready } }
    ensures room { (n : ℕ) → HasRoom (suc n) parts.old → HasRoom n parts.new }
{
    match told {
        Admission::Begun(serial) => put_run(parts, alloc, serial, frames, acts),
        Admission::Replaces(serial, _) => put_run(parts, alloc, serial, frames, acts),
        Admission::Queued(serial) => put_run(parts, alloc, serial, frames, false),
        Admission::Refused => {}
    }
}

/// One attempt. There is room for its run.
fn admit_one(runs: &mut NamedRuns, parts: &mut Parts, alloc: Global, place: u64, prepared: Prepared)
    requires place { place < 2 ^ 56 }
    requires runs { 0 < runs.old.spare }
    requires parts { HasRoom 1 parts.old }
    requires known { prepared.automation < length runs.old.firsts }
    ensures list { (k : Journal) (x : ℕ × Tried) → IsPrepared k x prepared → AreFirsts k runs.old.firsts → place ≡ last_place k → runs.new.list ≡ tried k runs.old.list x }
    ensures going { (k : Journal) (x : ℕ × Tried) → IsPrepared k x prepared → AreFirsts k runs.old.firsts → place ≡ last_place k → 0 < length k → IsTable k runs.old.list → Going nobody k runs.old.list parts.old
        → IsTable k runs.new.list × Going nobody k runs.new.list parts.new }
    ensures closed { runs.new.closed ≡ runs.old.closed }
    ensures firsts { runs.new.firsts ≡ runs.old.firsts }
    ensures spare { runs.old.spare ≤ suc runs.new.spare }
    ensures room { (n : ℕ) → HasRoom (suc n) parts.old → HasRoom n parts.new }
    ensures rested { parts.new.rested ≡ parts.old.rested }
{
    let Prepared {
        automation,
        mode,
        max,
        order,
        env,
        frames,
        acts,
    } = prepared;
    clear_way(runs, parts, mode, automation, place);
    match runs.attempt(automation, mode, max, place, order, env) {
        Ok(told) => take_in(parts, alloc, told, frames, acts),
        Err(_) => unreachable!(),
    }
}

/// All of them, from the end of the list on: the first attempt stands last.
pub(crate) fn admit_all(
    runs: &mut NamedRuns,
    parts: &mut Parts,
    alloc: Global,
    place: u64,
    stack: Vec<Prepared>,
)
    requires place { place < 2 ^ 56 }
    requires runs { vec_len stack ≤ runs.old.spare }
    requires parts { HasRoom (vec_len stack) parts.old }
    requires known { AreKnown (length runs.old.firsts) stack.items }
    ensures all { (k : Journal) (xs : List (ℕ × Tried)) → ArePrepared k xs (from_end stack.items) → AreFirsts k runs.old.firsts → place ≡ last_place k → 0 < length k → IsTable k runs.old.list → Going nobody k runs.old.list parts.old
        → (runs.new.list ≡ all_tried k runs.old.list xs) × IsTable k runs.new.list × Going nobody k runs.new.list parts.new }
    ensures room { HasRoom 0 parts.new }
    ensures closed { runs.new.closed ≡ runs.old.closed }
    ensures firsts { runs.new.firsts ≡ runs.old.firsts }
    ensures rested { parts.new.rested ≡ parts.old.rested }
{
    let mut stack = stack;
    'attempts: while let Some(prepared) = stack.pop() {
        admit_one(runs, parts, alloc, place, prepared);
    }
}
