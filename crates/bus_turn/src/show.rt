//! What is written of one put.
ghost use Rattle.std.specs.Prelude.{◌≡◌, ◌++◌, ◌-◌, [], IfErr, OnOk, length, option_map, slice_get, false, None, Some};
ghost use Rattle.std.specs.Option.{option_copied};
ghost use Rattle.ha_journal.specs.declared.entry.Entry.{Entry};
ghost use Rattle.ha_journal.specs.Entries.{is_again as is_again_lem};
ghost use Rattle.ha_journal.specs.Journal.{Journal, more};
ghost use Rattle.ha_journal.specs.EntryText.{error_text_of, trace_line as trace_line_lem};
ghost use Rattle.ha_texts.specs.Lines.{AreDated};
ghost use Rattle.ha_whole.specs.Trace.{call_text_of, names};
ghost use Rattle.ha_whole.specs.Whole.{put as put_lem, store_text};
ghost use Rattle.bus_turn.specs.Dated.{IsLastDated};
ghost use Rattle.bus_turn.specs.Shown.{saved_text, texts_of};
ghost use Rattle.bus_turn.specs.States.{SinkState, keeper_of, outside, outside_of, sink_of};
ghost use Rattle.bus_turn.specs.Writes.{Saves, Shows, WritesIn, entry_texts, fault_of, refusal};

use crate::fault::BusFault;
use crate::write::{write_call, write_error, write_trace};
use ha_io::{IoFault, Keeper, Sink};
use ha_journal::Entry;
use ha_value::{Many, Word};
use ha_whole::{Core, CoreFault};
use std::alloc::Global;

/// Saves a text.
fn save_text<Q: Keeper>(text: &[u8], keep: &mut Q) -> Result<(), BusFault>
    ensures { let q = keeper_of Q.kept Q.faults in Saves (Some text.now) (q keep.old) (fault_of result) (q keep.new) }
{
    match keep.save(text) {
        Ok(()) => Ok(()),
        Err(IoFault::Failed) => Err(BusFault::Keep),
        Err(IoFault::Memory) => Err(BusFault::Memory),
    }
}

/// Saves the switches of the core.
#[inline(never)]
fn save_switches<C: Core, Q: Keeper>(alloc: Global, core: &C, keep: &mut Q) -> Result<(), BusFault>
    requires { C.is_spent core.now ≡ false }
    ensures { let q = keeper_of Q.kept Q.faults in
        Saves (Some (store_text (C.entries core.now))) (q keep.old) (fault_of result) (q keep.new) }
{
    match core.store_text(alloc) {
        Ok(text) => save_text(text.bytes(), keep),
        Err(_) => Err(BusFault::Memory),
    }
}

/// Saves the switches, where the last put is the boot or changed what the store keeps.
fn save<C: Core, Q: Keeper>(alloc: Global, core: &C, keep: &mut Q) -> Result<(), BusFault>
    requires { C.is_spent core.now ≡ false }
    ensures { let q = keeper_of Q.kept Q.faults in
        Saves (saved_text (C.entries core.now)) (q keep.old) (fault_of result) (q keep.new) }
{
    if !core.last_changed_switch() {
        return Ok(());
    }
    save_switches(alloc, core, keep)
}

/// Writes the line of an entry to the trace as `write_trace` does, by the names of the core's units.
fn show_line<C: Core, K: Sink>(
    alloc: Global,
    shown: &mut Word,
    core: &C,
    entry: &Entry,
    trace: &mut Option<K>,
    goes_on: bool,
) -> Result<(), BusFault>
    requires { AreDated entry.now }
    ensures { let s = sink_of K.written K.faults K.zeros K.name in
        WritesIn (trace_line_lem (names (C.entries core.now)) entry.now) (option_map s trace.old) (fault_of result) (option_map s trace.new) }
{
    write_trace(alloc, shown, entry, core.units(), trace, goes_on)
}

/// Writes what a put of one entry gives, and saves the switches where it changed what the store keeps: first the call, then the error,
/// the trace and the store. After a fault nothing further is written. Unless more is at hand, the trace's sink hands on what it keeps.
fn show<C: Core, K: Sink, Q: Keeper>(
    alloc: Global,
    shown: &mut Word,
    core: &C,
    entry: &Entry,
    calls: &mut K,
    errors: &mut K,
    trace: &mut Option<K>,
    keep: &mut Q,
    goes_on: bool,
) -> Result<(), BusFault>
    requires usable { C.is_spent core.now ≡ false }
    requires dated { AreDated entry.now }
    ensures { let s = sink_of K.written K.faults K.zeros K.name in
        let q = keeper_of Q.kept Q.faults in
        (before : Journal)
        → C.entries core.now ≡ more before entry.now
        → Shows (entry_texts (call_text_of (C.runs core.now) before entry.now) (error_text_of entry.now)
        (trace_line_lem (names (C.entries core.now)) entry.now) (saved_text (C.entries core.now)))
        (outside_of s q calls.old errors.old trace.old keep.old)
        (fault_of result)
        (outside_of s q calls.new errors.new trace.new keep.new) }
{
    match write_call(alloc, shown, core, entry, calls) {
        Ok(()) => {}
        Err(fault) => return Err(fault),
    }
    match write_error(alloc, shown, entry, errors) {
        Ok(()) => {}
        Err(fault) => return Err(fault),
    }
    match show_line(alloc, shown, core, entry, trace, goes_on) {
        Ok(()) => {}
        Err(fault) => return Err(fault),
    }
    save(alloc, core, keep)
}

/// Writes the lines of two entries to the trace, where there is one, as `write_trace` writes one.
fn write_both<K: Sink>(
    alloc: Global,
    shown: &mut Word,
    first: &Entry,
    second: &Entry,
    units: &Many<Word>,
    trace: &mut Option<K>,
    goes_on: bool,
) -> Result<(), BusFault>
    requires first { AreDated first.now }
    requires second { AreDated second.now }
    ensures { let s = sink_of K.written K.faults K.zeros K.name in
        WritesIn (trace_line_lem units.now first.now ++ trace_line_lem units.now second.now)
        (option_map s trace.old)
        (fault_of result)
        (option_map s trace.new) }
{
    match write_trace(alloc, shown, first, units, trace, true) {
        Ok(()) => {}
        Err(fault) => return Err(fault),
    }
    write_trace(alloc, shown, second, units, trace, goes_on)
}

/// Writes what a restart gives, with the entry behind it that opens the next segment: a line in the trace for each, and the store. It has
/// neither a call line nor an error line.
#[inline(never)]
fn show_restart<C: Core, K: Sink, Q: Keeper>(
    alloc: Global,
    shown: &mut Word,
    core: &C,
    restart: &Entry,
    again: &Entry,
    trace: &mut Option<K>,
    keep: &mut Q,
    goes_on: bool,
) -> Result<(), BusFault>
    requires usable { C.is_spent core.now ≡ false }
    requires dated { AreDated restart.now × AreDated again.now }
    ensures { let s = sink_of K.written K.faults K.zeros K.name in
        let q = keeper_of Q.kept Q.faults in
        (calls errors : SinkState)
        → Shows (entry_texts [] [] (trace_line_lem (names (C.entries core.now)) restart.now ++ trace_line_lem (names (C.entries core.now)) again.now)
        (saved_text (C.entries core.now)))
        (outside calls errors (option_map s trace.old) (q keep.old))
        (fault_of result)
        (outside calls errors (option_map s trace.new) (q keep.new)) }
{
    match write_both(alloc, shown, restart, again, core.units(), trace, goes_on) {
        Ok(()) => {}
        Err(fault) => return Err(fault),
    }
    save(alloc, core, keep)
}

/// Whether an entry opens a segment behind a restart.
fn is_again(entry: &Entry) -> bool
    ensures { result ≡ is_again_lem entry.now }
{
    matches!(entry, Entry::Again { .. })
}

/// The entry before the last one.
fn before_last(journal: &[Entry]) -> Option<&Entry>
    ensures { option_copied result ≡ slice_get journal.now (length journal.now - 2) }
{
    journal.get(journal.len().saturating_sub(2))
}

/// Writes what the last put gives, be it one entry or a restart with the entry behind it.
fn show_put<C: Core, K: Sink, Q: Keeper>(
    alloc: Global,
    shown: &mut Word,
    core: &C,
    calls: &mut K,
    errors: &mut K,
    trace: &mut Option<K>,
    keep: &mut Q,
    goes_on: bool,
) -> Result<(), BusFault>
    requires usable { C.is_spent core.now ≡ false }
    requires dated { IsLastDated (C.entries core.now) }
    ensures { let s = sink_of K.written K.faults K.zeros K.name in
        let q = keeper_of Q.kept Q.faults in
        (before : Journal) (x : Entry)
        → is_again_lem x ≡ false
        → C.entries core.now ≡ put_lem before x
        → Shows (texts_of (C.runs core.now) before x)
        (outside_of s q calls.old errors.old trace.old keep.old)
        (fault_of result)
        (outside_of s q calls.new errors.new trace.new keep.new) }
{
    let entries = core.journal();
    let Some(last) = entries.last() else {
        return Ok(());
    };
    if !is_again(last) {
        return show(
            alloc, shown, core, last, calls, errors, trace, keep, goes_on,
        );
    }
    let Some(restart) = before_last(entries) else {
        return Ok(());
    };
    show_restart(alloc, shown, core, restart, last, trace, keep, goes_on)
}

/// What becomes of the outside after a put, and the fault that is to be kept: after a put that was refused nothing is written.
pub(crate) fn write_put<C: Core, K: Sink, Q: Keeper>(
    alloc: Global,
    shown: &mut Word,
    put: Result<(), CoreFault>,
    core: &C,
    calls: &mut K,
    errors: &mut K,
    trace: &mut Option<K>,
    keep: &mut Q,
    goes_on: bool,
) -> Option<BusFault>
    requires usable { OnOk put (C.is_spent core.now ≡ false) }
    requires dated { OnOk put (IsLastDated (C.entries core.now)) }
    ensures ok { let s = sink_of K.written K.faults K.zeros K.name in
        let q = keeper_of Q.kept Q.faults in
        OnOk put ((before : Journal) (x : Entry)
        → is_again_lem x ≡ false
        → C.entries core.now ≡ put_lem before x
        → Shows (texts_of (C.runs core.now) before x)
        (outside_of s q calls.old errors.old trace.old keep.old)
        result
        (outside_of s q calls.new errors.new trace.new keep.new)) }
    ensures err { let s = sink_of K.written K.faults K.zeros K.name in
        let q = keeper_of Q.kept Q.faults in
        IfErr put (λ fault. (result ≡ Some (refusal fault))
        × (outside_of s q calls.new errors.new trace.new keep.new ≡ outside_of s q calls.old errors.old trace.old keep.old)) }
{
    match put {
        Ok(()) => {}
        Err(CoreFault::Full) => return Some(BusFault::Full),
        Err(CoreFault::Memory) => return Some(BusFault::Memory),
    }
    match show_put(alloc, shown, core, calls, errors, trace, keep, goes_on) {
        Ok(()) => None,
        Err(fault) => Some(fault),
    }
}
