//! The lines of one entry: its call, its error, and its line in the trace.
ghost use Rattle.std.specs.Prelude.{◌≡◌, IfSome, OnOk, is_some, option_map, false};
ghost use Rattle.std.specs.Option.{option_copied};
ghost use Rattle.ha_sight.specs.Items.{call_in};
ghost use Rattle.ha_journal.specs.Entries.{step_of};
ghost use Rattle.ha_journal.specs.Journal.{Journal, more};
ghost use Rattle.ha_model.specs.Lawful.{record_of as record_of_lem};
ghost use Rattle.ha_config.specs.Names.{name_in};
ghost use Rattle.ha_journal.specs.EntryText.{call_line as call_line_lem, error_line, error_text_of, trace_line as trace_line_lem};
ghost use Rattle.ha_config.specs.Words.{Text};
ghost use Rattle.bus_turn.specs.States.{sink_of};
ghost use Rattle.ha_texts.specs.Lines.{AreDated};
ghost use Rattle.bus_turn.specs.Lines.{called_line, text_in};
ghost use Rattle.bus_turn.specs.Writes.{Hands, Writes, WritesIn, fault_of};
ghost use Rattle.ha_whole.specs.Trace.{call_text_of};

use crate::fault::BusFault;
use ha_config::Cmd;
use ha_io::{Sink, Unwritten, write_whole};
use ha_journal::Entry;
use ha_model::Record;
use ha_sight::Item;
use ha_texts::{call_line, err_line, trace_line};
use ha_value::{Many, Word};
use ha_whole::Core;
use std::alloc::{AllocError, Global};

/// Writes a text to its end.
pub(crate) fn write_text<K: Sink>(sink: &mut K, text: &[u8]) -> Result<(), BusFault>
    ensures { let s = sink_of K.written K.faults K.zeros K.name in Writes text.now (s sink.old) (fault_of result) (s sink.new) }
{
    match write_whole(sink, text) {
        Ok(()) => Ok(()),
        Err(Unwritten::Failed) => Err(BusFault::Write { zero: false }),
        Err(Unwritten::Zero) => Err(BusFault::Write { zero: true }),
        Err(Unwritten::Memory) => Err(BusFault::Memory),
    }
}

/// Has a sink hand on what it keeps.
fn hand_on<K: Sink>(sink: &mut K) -> Result<(), BusFault>
    ensures hands { let s = sink_of K.written K.faults K.zeros K.name in Hands (s sink.old) (fault_of result) (s sink.new) }
    ensures handed { OnOk result (K.kept sink.new ≡ 0) }
{
    match sink.flush() {
        Ok(()) => Ok(()),
        Err(_) => Err(BusFault::Write { zero: false }),
    }
}

/// Writes a text to its end. Unless more is at hand, the sink then hands on what it keeps.
pub(crate) fn write_kept<K: Sink>(sink: &mut K, text: &[u8], goes_on: bool) -> Result<(), BusFault>
    ensures writes { let s = sink_of K.written K.faults K.zeros K.name in Writes text.now (s sink.old) (fault_of result) (s sink.new) }
    ensures handed { goes_on ≡ false → OnOk result (K.kept sink.new ≡ 0) }
{
    match write_text(sink, text) {
        Ok(()) => {}
        Err(fault) => return Err(fault),
    }
    if goes_on {
        return Ok(());
    }
    hand_on(sink)
}

/// Writes a line that was made; of one for which memory ran out, nothing.
fn write_line<K: Sink>(
    sink: &mut K,
    made: Result<(), AllocError>,
    shown: &Word,
) -> Result<(), BusFault>
    ensures { let s = sink_of K.written K.faults K.zeros K.name in
        (text : Text) → OnOk made (shown.now ≡ text)
        → Writes text (s sink.old) (fault_of result) (s sink.new) }
{
    match made {
        Ok(()) => write_text(sink, shown.bytes()),
        Err(_) => Err(BusFault::Memory),
    }
}

/// Writes the line of an entry to the trace's sink, as `write_kept` does. The line is made in `shown`, as all lines are: so only a
/// longer one than those before asks for memory.
#[inline(never)]
fn write_traced<K: Sink>(
    alloc: Global,
    shown: &mut Word,
    entry: &Entry,
    units: &Many<Word>,
    sink: &mut K,
    goes_on: bool,
) -> Result<(), BusFault>
    requires { AreDated entry.now }
    ensures writes { let s = sink_of K.written K.faults K.zeros K.name in
        Writes (trace_line_lem units.now entry.now) (s sink.old) (fault_of result) (s sink.new) }
    ensures handed { goes_on ≡ false → OnOk result (K.kept sink.new ≡ 0) }
{
    match trace_line(alloc, shown, entry, units) {
        Ok(()) => write_kept(sink, shown.bytes(), goes_on),
        Err(_) => Err(BusFault::Memory),
    }
}

/// The record with that serial.
fn record_of(records: &[Record], serial: u64) -> Option<&Record>
    ensures { option_copied result ≡ record_of_lem records.now serial }
{
    records.get(serial.saturating_sub(1) as usize)
}

/// Makes the line of a call that a run made last, by what it did. For another item nothing is shown.
fn line_of_call(
    alloc: Global,
    shown: &mut Word,
    units: &Many<Word>,
    run: &Record,
    item: &Item,
) -> Result<(), AllocError>
    ensures { OnOk result (shown.new ≡ text_in (option_map (call_line_lem (name_in units.now run.now.automation) run.now.number run.now.calls) (call_in item.now))) }
{
    if !matches!(item, Item::Call { .. }) {
        shown.clear();
        return Ok(());
    }
    match units.get(run.automation as usize) {
        Some(name) => call_line(alloc, shown, name, run.number, run.calls, item),
        None => {
            let nameless = Word::new(alloc);
            call_line(alloc, shown, &nameless, run.number, run.calls, item)
        }
    }
}

/// Makes the line of an entry that calls. For another entry nothing is shown.
fn line_of_step(
    alloc: Global,
    shown: &mut Word,
    units: &Many<Word>,
    records: &[Record],
    entry: &Entry,
) -> Result<(), AllocError>
    ensures { OnOk result (shown.new ≡ text_in (called_line units.now records.now entry.now)) }
{
    shown.clear();
    match entry {
        Entry::Step { serial, item, .. } => match record_of(records, *serial) {
            Some(run) => line_of_call(alloc, shown, units, run, item),
            None => Ok(()),
        },
        Entry::Boot { .. } | Entry::Line { .. } | Entry::Again { .. } => Ok(()),
    }
}

/// Whether an entry may have a call line.
fn is_step(entry: &Entry) -> bool
    ensures { result ≡ is_some (step_of entry.now) }
{
    matches!(entry, Entry::Step { .. })
}

/// Writes the call line of a step that is the last entry, if it has one.
#[inline(never)]
fn write_called<C: Core, K: Sink>(
    alloc: Global,
    shown: &mut Word,
    core: &C,
    entry: &Entry,
    sink: &mut K,
) -> Result<(), BusFault>
    ensures { let s = sink_of K.written K.faults K.zeros K.name in
        (before : Journal)
        → C.entries core.now ≡ more before entry.now
        → Writes (call_text_of (C.runs core.now) before entry.now) (s sink.old) (fault_of result) (s sink.new) }
{
    let made = line_of_step(alloc, shown, core.units(), core.records(), entry);
    write_line(sink, made, shown)
}

/// Writes the call line of the last entry, if it has one. The line is made in the place of `shown`, whose room later lines have again.
#[inline]
pub fn write_call<C: Core, K: Sink>(
    alloc: Global,
    shown: &mut Word,
    core: &C,
    entry: &Entry,
    sink: &mut K,
) -> Result<(), BusFault>
    ensures { let s = sink_of K.written K.faults K.zeros K.name in
        (before : Journal)
        → C.entries core.now ≡ more before entry.now
        → Writes (call_text_of (C.runs core.now) before entry.now) (s sink.old) (fault_of result) (s sink.new) }
{
    if !is_step(entry) {
        return Ok(());
    }
    write_called(alloc, shown, core, entry, sink)
}

/// Whether an entry has an error line.
fn is_error(entry: &Entry) -> bool
    ensures { result ≡ is_some (error_line entry.now) }
{
    match entry {
        Entry::Boot { .. } | Entry::Again { .. } => false,
        Entry::Line { cmd, .. } => matches!(cmd, Cmd::Refused(_) | Cmd::Lost | Cmd::TooLong),
        Entry::Step { item, .. } => matches!(item, Item::Failed(_)),
    }
}

/// Writes the error line of an entry that has one.
#[inline(never)]
fn write_failed<K: Sink>(
    alloc: Global,
    shown: &mut Word,
    entry: &Entry,
    sink: &mut K,
) -> Result<(), BusFault>
    ensures { let s = sink_of K.written K.faults K.zeros K.name in
        Writes (error_text_of entry.now) (s sink.old) (fault_of result) (s sink.new) }
{
    let made = err_line(alloc, shown, entry);
    write_line(sink, made, shown)
}

/// Writes the error line of an entry, if it has one, as `write_call` does.
#[inline]
pub fn write_error<K: Sink>(
    alloc: Global,
    shown: &mut Word,
    entry: &Entry,
    sink: &mut K,
) -> Result<(), BusFault>
    ensures { let s = sink_of K.written K.faults K.zeros K.name in
        Writes (error_text_of entry.now) (s sink.old) (fault_of result) (s sink.new) }
{
    if !is_error(entry) {
        return Ok(());
    }
    write_failed(alloc, shown, entry, sink)
}

/// Writes the line of an entry to the trace, where there is one. Unless more entries are at hand, it then stands outside, with all lines
/// before it.
pub(crate) fn write_trace<K: Sink>(
    alloc: Global,
    shown: &mut Word,
    entry: &Entry,
    units: &Many<Word>,
    trace: &mut Option<K>,
    goes_on: bool,
) -> Result<(), BusFault>
    requires { AreDated entry.now }
    ensures writes { let s = sink_of K.written K.faults K.zeros K.name in
        WritesIn (trace_line_lem units.now entry.now) (option_map s trace.old) (fault_of result) (option_map s trace.new) }
    ensures handed { goes_on ≡ false → OnOk result (IfSome trace.new (λ k. K.kept k ≡ 0)) }
{
    match trace {
        Some(sink) => write_traced(alloc, shown, entry, units, sink, goes_on),
        None => Ok(()),
    }
}
