//! The end of the work on an entry: its attempts, and the flags of the sources.
ghost use Rattle.std.specs.Prelude.{◌≡◌, ◌≤◌, ◌+◌, [], ℕ, suc, OnOk, OnErr, length, vec_len, vec_capacity};
ghost use Rattle.ha_journal.specs.declared.entry.Entry.{Entry as Item};
ghost use Rattle.ha_journal.specs.Attempts.{fired as fired_lem, passing};
ghost use Rattle.ha_journal.specs.Journal.{Journal, last_place, more as longer};
ghost use Rattle.ha_model.specs.Records.{Records, call_end};
ghost use Rattle.ha_model.specs.RecordSteps.{records_after};
ghost use Rattle.ha_model.specs.Lawful.{Right};
ghost use Rattle.ha_engine.specs.Admits.{ArePrepared, from_end};
ghost use Rattle.ha_engine.specs.Named.{AreFirsts};
ghost use Rattle.engine_parts.specs.Kept.{Going, GoingWith, Kept, nobody};
ghost use Rattle.ha_ready.specs.RestedFlags.{RestedKept};
ghost use Rattle.engine_parts.specs.Owners.{attempts_by};
ghost use Rattle.engine_parts.specs.Records.{HasRoom, IsTable};
ghost use Rattle.ha_ready.specs.RestedFlags.{IsKnown, source_of};
ghost use Rattle.engine_parts.specs.Stages.{LineTold, Stopped};

use crate::admit::{Prepared, admit_all};
use crate::prepare::prepare;
use engine_parts::called::wake_caller;
use engine_parts::parts::Parts;
use engine_parts::rested::note_flags;
use engine_parts::slots::Slots;
use ha_journal::{Entry, Firing};
use ha_value::Many;
use named_runs::NamedRuns;
use script_step::Frames;
use segment_view::Segment;
use std::alloc::{AllocError, Global};

/// Room for so many pairs more, and for one of each call that waits.
fn reserve_pairs(parts: &mut Parts, more: usize) -> Result<(), AllocError>
    ensures rest { parts.new ≡ record parts.old { ready = parts.new.ready } }
    ensures items { parts.new.ready.pairs.items ≡ parts.old.ready.pairs.items }
    ensures room { OnOk result (vec_len parts.new.ready.pairs + more + length parts.new.calls ≤ vec_capacity parts.new.ready.pairs) }
{
    let calls = parts.calls.len();
    if usize::MAX - calls < more {
        return Err(AllocError);
    }
    parts.ready.pairs.reserve(more + calls)
}

/// Room for so many runs more, each with its frames and a pair, and for a pair of each call that waits.
pub(crate) fn make_room(
    runs: &mut NamedRuns,
    parts: &mut Parts,
    more: usize,
) -> Result<(), AllocError>
    ensures list { runs.new.list ≡ runs.old.list }
    ensures closed { runs.new.closed ≡ runs.old.closed }
    ensures firsts { runs.new.firsts ≡ runs.old.firsts }
    ensures going { OnOk result ((k : Journal) (rs : Records) → Going nobody k rs parts.old → Going nobody k rs parts.new) }
    ensures rested { OnOk result (parts.new.rested ≡ parts.old.rested) }
    ensures spare { OnOk result (more ≤ runs.new.spare) }
    ensures room { OnOk result (HasRoom more parts.new) }
{
    runs.reserve(more as u64)?;
    parts.frames.reserve(more)?;
    reserve_pairs(parts, more)?;
    Ok(())
}

/// The source whose line the last entry is.
fn last_source(journal: &Segment<'_>) -> Option<u32>
    ensures { (j : Journal) (x : Item) → journal.now ≡ longer j x → result ≡ source_of x }
{
    match journal.last_entry() {
        Entry::Line { source, .. } => Some(*source),
        _ => None,
    }
}

/// The flags go on to say who is rested, once the records of the entry were told.
fn note_source(parts: &mut Parts, journal: &Segment<'_>)
    requires { vec_len parts.old.rested ≤ 16 }
    ensures { (j : Journal) (x : Item) (rs : Records) → journal.now ≡ longer j x → Right j rs → IsKnown (source_of x) → RestedKept j rs parts.old.rested.items → Right journal.now (records_after j rs x)
        → GoingWith (call_end (records_after j rs x)) nobody journal.now (records_after j rs x) parts.old → Kept journal.now (records_after j rs x) parts.new }
{
    let source = last_source(journal);
    let quiet = parts.ready.pairs.len() == 0;
    note_flags(&mut parts.rested, source, quiet);
}

/// The serial of the run that comes next.
fn next_serial(frames: &Slots<Frames>) -> u64
    ensures { result ≡ suc (length frames.now.items) }
{
    frames.len() as u64 + 1
}

/// All records of an entry were told: where its own call has no run, the one that waits for it goes on.
pub(crate) fn drop_refused(parts: &mut Parts, place: u64)
    requires { HasRoom 0 parts.old }
    ensures going { (k : Journal) (rs : Records) → place ≡ last_place k → IsTable k rs → Going nobody k rs parts.old → GoingWith (call_end rs) nobody k rs parts.new }
    ensures rested { parts.new.rested ≡ parts.old.rested }
{
    let next = next_serial(&parts.frames);
    wake_caller(parts, next, place);
}

/// The end of the work on a line that stops nobody and asks for no run: its records are those before it, and the flags alone are left.
pub(crate) fn conclude_left(journal: &Segment<'_>, parts: &mut Parts)
    requires { vec_len parts.old.rested ≤ 16 }
    ensures { (rs : Records) → LineTold journal.now rs parts.old → passing journal.now ≡ []
        → Right journal.now rs × Kept journal.now rs parts.new }
{
    note_source(parts, journal);
}

/// The end of the work on an entry, whose own calls and stops were made: its attempts, and the flags. There is room for them.
pub(crate) fn settle(
    alloc: Global,
    journal: &Segment<'_>,
    runs: &mut NamedRuns,
    parts: &mut Parts,
    stack: Vec<Prepared>,
)
    requires stopped { Stopped journal.now runs.old.list parts.old }
    requires named { AreFirsts journal.now runs.old.firsts }
    requires prepared { ArePrepared journal.now (passing journal.now) (from_end stack.items) }
    requires spare { vec_len stack ≤ runs.old.spare }
    requires room { HasRoom (vec_len stack) parts.old }
    ensures kept { Right journal.now runs.new.list × Kept journal.now runs.new.list parts.new }
    ensures closed { runs.new.closed ≡ runs.old.closed }
    ensures firsts { runs.new.firsts ≡ runs.old.firsts }
{
    let place = journal.place();
    admit_all(runs, parts, alloc, place, stack);
    drop_refused(parts, place);
    note_source(parts, journal);
}

/// The end of the work on a line that stops nobody. After an error the records are as before, and the parts may only be dropped.
pub(crate) fn conclude(
    alloc: Global,
    journal: &Segment<'_>,
    runs: &mut NamedRuns,
    parts: &mut Parts,
    fired: Many<Firing>,
) -> Result<(), AllocError>
    requires told { LineTold journal.now runs.old.list parts.old }
    requires named { AreFirsts journal.now runs.old.firsts }
    requires fired { attempts_by fired ≡ fired_lem journal.now (last_place journal.now) }
    ensures ok { OnOk result (Right journal.now runs.new.list × Kept journal.now runs.new.list parts.new) }
    ensures err { OnErr result (runs.new.list ≡ runs.old.list) }
    ensures closed { runs.new.closed ≡ runs.old.closed }
    ensures firsts { runs.new.firsts ≡ runs.old.firsts }
{
    let stack = prepare(alloc, &*journal, parts, fired)?;
    if stack.is_empty() {
        conclude_left(journal, parts);
        return Ok(());
    }
    make_room(runs, parts, stack.len())?;
    settle(alloc, journal, runs, parts, stack);
    Ok(())
}
