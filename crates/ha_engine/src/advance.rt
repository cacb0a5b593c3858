//! One step of a run: which run it is, and what follows from it.
ghost use Rattle.std.specs.Prelude.{◌≡◌, ◌+◌, ◌<◌, ◌≤◌, ℕ, List, IfOk, OnOk, OnErr, Some, vec_len, vec_capacity, length};
ghost use Rattle.ha_journal.specs.declared.entry.Entry.{Entry as Put};
ghost use Rattle.ha_journal.specs.declared.entry.Entry.TheVariants.{Step};
ghost use Rattle.ha_sight.specs.declared.item.Item.{Item as Made};
ghost use Rattle.ha_journal.specs.Journal.{Journal, more};
ghost use Rattle.ha_journal.specs.Moves.{sight};
ghost use Rattle.ha_model.specs.Lawful.{Right, pick};
ghost use Rattle.ha_whole.specs.Segments.{segment};
ghost use Rattle.helper_set.specs.Kept.{StandsFor};
ghost use Rattle.script_step.specs.Taken.{out_of};
ghost use Rattle.engine_parts.specs.Kept.{AreSound, Kept, Looks};
ghost use Rattle.engine_parts.specs.Waiting.{ends};
ghost use Rattle.engine_entry.specs.Stepping.{MaySlot, SlotStep, Stepping};
ghost use Rattle.ha_engine.specs.Lies.{Lies};
ghost use Rattle.ha_engine.specs.Named.{AreFirsts};
ghost use Rattle.ha_journal.specs.Force.{force};
ghost use Rattle.unit_book.specs.Book.{Holds};
ghost use Rattle.ha_engine.specs.Put.{IsAdvanced, Makes};

use crate::bounds::Bounds;
use crate::step_follow::follow_step;
use engine_entry::step_run::step_slot;
use engine_parts::last::drop_last;
use engine_parts::parts::Parts;
use engine_parts::ready::Ready;
use ha_clock::Moment;
use ha_journal::Entry;
use ha_model::Record;
use ha_sight::{Branch, Ended, Item, Progress, WaitAsk, WaitEnd};
use ha_value::Plain;
use named_runs::NamedRuns;
use script_step::{Held, Taken};
use segment_view::{Behind, Segment};
use std::alloc::{AllocError, Global};
use unit_book::UnitBook;
use wait_set::Waits;

/// The pair at the place of the worker's number, modulo how many there are.
pub(crate) fn picked(alloc: Global, ready: &Ready, worker: u32) -> Result<(u64, Branch), AllocError>
    requires { 0 < length ready.now.pairs.items }
    ensures { IfOk result (λ x. pick worker ready.now.pairs.items ≡ Some (x.0, x.1)) }
{
    let pair = &ready.pairs[worker as usize % ready.pairs.len()];
    match pair.1.copy(alloc) {
        Ok(branch) => Ok((pair.0, branch)),
        Err(error) => Err(error),
    }
}

/// A copy of how a wait ended, in memory of its own: most steps end none.
#[inline(never)]
fn held_end(alloc: Global, end: &WaitEnd) -> Result<Held<WaitEnd>, AllocError>
    ensures { IfOk result (λ made. made ≡ end.now) }
{
    let copy = end.copy(alloc)?;
    let held = Held::make(alloc, copy)?;
    Ok(held)
}

/// How the wait of a branch ended, if it has.
pub(crate) fn end_told(
    alloc: Global,
    waits: &Waits,
    serial: u64,
    branch: &Branch,
) -> Result<Option<Held<WaitEnd>>, AllocError>
    ensures { IfOk result (λ end. end ≡ ends waits.now serial branch.now) }
{
    match waits.ended(serial, branch) {
        Some(end) => match held_end(alloc, end) {
            Ok(made) => Ok(Some(made)),
            Err(error) => Err(error),
        },
        None => Ok(None),
    }
}

/// The step is appended, its run counted from the segment's first; there is room for it.
fn push_step(journal: &mut Vec<Entry>, worker: u32, serial: u64, branch: Branch, item: Item)
    requires { vec_len journal.old < vec_capacity journal.old }
    ensures { journal.new.items ≡ more journal.old.items (Step worker serial branch item) }
{
    journal.push_reserved(Entry::Step {
        worker,
        serial,
        branch,
        item,
    });
}

/// The serial of a run among those of all segments, behind so many of closed ones.
fn whole_serial(records: &[Record], base: u64, serial: u64) -> u64
    requires { base + serial ≤ length records.now }
    ensures { result ≡ base + serial }
{
    let _count = records.len();
    base + serial
}

/// The run of a step gets this serial.
fn count_run(entry: &mut Entry, whole: u64)
    ensures { (worker serial : ℕ) (branch : List ℕ) (item : Made) → entry.old ≡ Step worker serial branch item → entry.new ≡ Step worker whole branch item }
{
    match entry {
        Entry::Step { serial, .. } => *serial = whole,
        Entry::Boot { .. } | Entry::Line { .. } | Entry::Again { .. } => {}
    }
}

/// The same of the last entry, where it stands.
fn count_last(journal: &mut [Entry], whole: u64)
    ensures last { (j : Journal) (worker serial : ℕ) (branch : List ℕ) (item : Made) → journal.old ≡ more j (Step worker serial branch item) → journal.new ≡ more j (Step worker whole branch item) }
    ensures len { length journal.new ≡ length journal.old }
{
    match journal.split_last_mut() {
        Some((last, _before)) => count_run(last, whole),
        None => {}
    }
}

/// The run of the pair makes its step on what the last segment shows.
fn make_step<'a>(
    alloc: Global,
    journal: &'a [Entry],
    bounds: Bounds,
    book: &'a UnitBook,
    parts: &mut Parts,
    serial: u64,
    branch: &Branch,
    wait: Option<Held<WaitEnd>>,
) -> Result<(Taken, Option<Moment>), AllocError>
    requires lies { Lies journal.now bounds }
    requires holds { Holds journal.now (force (segment journal.now)) book.now }
    requires looks { Looks (segment journal.now) parts.old.states parts.old.numbers parts.old.zone parts.old.at }
    requires helpers { StandsFor parts.old.helpers (segment journal.now) }
    requires sound { AreSound (segment journal.now) }
    requires slot { MaySlot (segment journal.now) serial branch.now parts.old.at wait parts.old.frames.items }
    ensures step { IfOk result (λ x. SlotStep (sight (segment journal.entry.now) (length (segment journal.entry.now))) serial branch.now wait parts.old.frames.items parts.new.frames.items (out_of x.0) x.1) }
    ensures rest { OnOk result (parts.new ≡ record parts.old { frames = parts.new.frames }) }
{
    let behind = Behind::make(journal, bounds.front, bounds.base, book);
    step_slot(
        &mut parts.frames,
        alloc,
        &behind,
        &parts.states,
        &parts.numbers,
        &parts.helpers,
        &parts.zone,
        parts.at,
        serial,
        branch,
        wait,
    )
}

/// What follows from the step that was pushed last.
fn follow_made<'a>(
    alloc: Global,
    journal: &'a [Entry],
    bounds: Bounds,
    book: &'a UnitBook,
    runs: &mut NamedRuns,
    parts: &mut Parts,
    progress: Progress,
    wait: Option<Held<WaitAsk>>,
    due: Option<Moment>,
) -> Result<(), AllocError>
    requires { Makes journal.now bounds book.now runs.old.firsts runs.old.list parts.old progress wait due }
    ensures ok { OnOk result ((j : Journal) (x : Put) → Lies j bounds → journal.entry.now ≡ more j x → Right (more (segment j) x) runs.new.list × Kept (more (segment j) x) runs.new.list parts.new) }
    ensures err { OnErr result (runs.new.list ≡ runs.old.list) }
    ensures closed { runs.new.closed ≡ runs.old.closed }
    ensures firsts { runs.new.firsts ≡ runs.old.firsts }
{
    let segment = Segment::of_list(journal, bounds.front, bounds.base, book);
    follow_step(alloc, &segment, runs, parts, progress, wait, due)
}

/// The worker's step is taken and appended, for which there is room. Till what follows from it is done its run counts from the segment's
/// first. After an error journal and records are as before, and the parts may only be dropped.
pub fn advance(
    alloc: Global,
    journal: &mut Vec<Entry>,
    bounds: Bounds,
    book: &UnitBook,
    runs: &mut NamedRuns,
    parts: &mut Parts,
    worker: u32,
) -> Result<(), AllocError>
    requires room { vec_len journal.old < vec_capacity journal.old }
    requires lies { Lies journal.old.items bounds }
    requires holds { Holds journal.old.items (force (segment journal.old.items)) book.now }
    requires named { AreFirsts (segment journal.old.items) runs.old.firsts }
    requires counted { length runs.old.closed.records ≡ bounds.base }
    requires stepping { Stepping (segment journal.old.items) runs.old.list parts.old }
    ensures ok { OnOk result (IsAdvanced worker bounds.base runs.old.list runs.new.list parts.new journal.old.items journal.new.items) }
    ensures journal { OnErr result (journal.new.items ≡ journal.old.items) }
    ensures records { OnErr result (runs.new.list ≡ runs.old.list) }
    ensures closed { runs.new.closed ≡ runs.old.closed }
    ensures firsts { runs.new.firsts ≡ runs.old.firsts }
{
    let (serial, branch) = picked(alloc, &parts.ready, worker)?;
    let wait = end_told(alloc, &parts.waits, serial, &branch)?;
    let (out, due) = make_step(
        alloc,
        journal.as_slice(),
        bounds,
        book,
        parts,
        serial,
        &branch,
        wait,
    )?;
    let Taken {
        item,
        progress,
        wait,
    } = out;
    let whole = whole_serial(runs.all(), bounds.base, serial);
    push_step(journal, worker, serial, branch, item);
    match follow_made(
        alloc,
        journal.as_slice(),
        bounds,
        book,
        runs,
        parts,
        progress,
        wait,
        due,
    ) {
        Ok(()) => {
            count_last(journal.as_mut_slice(), whole);
            Ok(())
        }
        Err(error) => {
            drop_last(journal);
            Err(error)
        }
    }
}
