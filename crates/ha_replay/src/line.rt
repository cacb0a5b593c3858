//! A line of a trace behind the first, taken by a core.
//!
//! A line of a source gives the command that is put. Of a step the line names the worker alone: the core makes the step, and the line is
//! compared with the one that is printed of it.
ghost use Rattle.std.specs.Prelude.{◌≡◌, ◌<◌, ◌^◌, ◌-◌, ◌++◌, ◌||◌, ◌↔◌, ℕ, codes, false, true, length, not, slice_get, IfOk, IfSome, OnErr, OnOk, IsTrue};
ghost use Rattle.ha_config.specs.Words.{Text};
ghost use Rattle.ha_journal.specs.declared.entry.Entry.{Entry as Item};
ghost use Rattle.ha_journal.specs.Entries.{restarts as restarts_lem};
ghost use Rattle.ha_journal.specs.Journal.{Journal, more};
ghost use Rattle.ha_config.specs.CheckText.{as_line};
ghost use Rattle.ha_journal.specs.EntryText.{trace_line as trace_line_lem};
ghost use Rattle.ha_texts.specs.Lines.{AreDated};
ghost use Rattle.flow_printed.specs.Printed.{IsFairButForName, IsPrintOfLine};
ghost use Rattle.ha_whole.specs.Trace.{names};
ghost use Rattle.ha_whole.specs.Whole.{AreEntries, ends_segment, is_rested};
ghost use Rattle.ha_replay.specs.Traces.{Answers, IsEnd, IsFrontOf, IsUnfit, Stands, reached};
ghost use Rattle.ha_replay.specs.Steps.{IsAllowed, IsNextLine, IsOf, IsOnlyPrint, fault_of, is_reload_line, reloads as reloads_lem};

use crate::fault::TraceFault;
use crate::last::{is_named, next_number};
use crate::room::is_full;
use crate::same::is_same;
use crate::worker::worker_of;
use flow_printed::{PrintedLine, read_line};
use ha_config::Cmd;
use ha_journal::Entry;
use ha_texts::trace_line;
use ha_value::Word;
use ha_whole::{Core, CoreFault};
use std::alloc::{AllocError, Global};

/// What stands before the count in an end line.
const END: &[u8] = b"{\"end\":";

/// Whether the line begins as an end line does.
fn may_end(line: &[u8]) -> bool
    ensures { (rest : Text) → line.now ≡ codes "{\"end\":" ++ rest → result ≡ true }
{
    line.starts_with(END)
}

/// Whether the line is the end line of the journal, which is quiet. One is printed only where the line begins as one.
fn is_end<C: Core>(alloc: Global, core: &C, line: &[u8]) -> Result<bool, AllocError>
    requires usable { C.is_spent core.now ≡ false }
    requires opened { ends_segment (C.entries core.now) ≡ false }
    ensures { IfOk result (λ found. IsTrue found ↔ IsEnd (C.entries core.now) (C.runs core.now) line.now) }
{
    if !may_end(line) {
        return Ok(false);
    }
    if !core.quiet() {
        return Ok(false);
    }
    let count = core.journal().len();
    let shown = format!(in alloc; "{{\"end\":{count}}}")?;
    Ok(line == shown.as_bytes())
}

/// What a refused put comes to.
fn unput(fault: CoreFault) -> TraceFault
    ensures { result ≡ fault_of fault }
{
    match fault {
        CoreFault::Memory => TraceFault::Memory,
        CoreFault::Full => TraceFault::Full,
    }
}

/// What a line comes to that may not stand next: Full where the last segment or the journal is full.
fn unfit<C: Core>(core: &C) -> TraceFault
    requires entries { AreEntries (C.entries core.now) }
    ensures fault { IsUnfit (C.entries core.now) result }
    ensures size { length (C.entries core.now) < 2 ^ 64 }
{
    if is_full(core.journal()) {
        TraceFault::Full
    } else {
        TraceFault::Refused
    }
}

/// Whether a source's line stands next: no step closes so far, the source is rested and open, the number is its next one, and the
/// automation that the command names, if it names one, is there.
fn is_due<C: Core>(core: &C, line: &PrintedLine, closing: bool) -> bool
    requires usable { C.is_spent core.now ≡ false }
    requires stands { Stands (reached (C.entries core.now) (C.runs core.now) closing false) }
    ensures { IsTrue result ↔ IsNextLine (reached (C.entries core.now) (C.runs core.now) closing false) line.now }
{
    if closing || line.source >= 16 || !core.rested(line.source) {
        return false;
    }
    match next_number(core.journal(), line.source) {
        Some(number) => number == line.number && is_named(core, &line.cmd),
        None => false,
    }
}

fn is_restart(cmd: &Cmd) -> bool
    ensures { result ≡ restarts_lem cmd.now }
{
    matches!(cmd, Cmd::Restart)
}

fn is_reload(cmd: &Cmd) -> bool
    ensures { result ≡ reloads_lem cmd.now }
{
    matches!(cmd, Cmd::Reload { .. })
}

fn reloads_here(entry: &Entry) -> bool
    ensures { result ≡ is_reload_line entry.now }
{
    match entry {
        Entry::Line { cmd, .. } => is_reload(cmd),
        Entry::Boot { .. } | Entry::Step { .. } | Entry::Again { .. } => false,
    }
}

/// Whether the last entry is a reload, and not the refusal of one.
fn has_reloaded<C: Core>(core: &C) -> bool
    ensures { (j : Journal) (x : Item) → C.entries core.now ≡ more j x → result ≡ is_reload_line x }
{
    match core.journal().last() {
        Some(entry) => reloads_here(entry),
        None => false,
    }
}

/// Whether a reload was put as a refusal, which has another line.
fn was_refused<C: Core>(core: &C, reloads: bool) -> bool
    ensures other { reloads ≡ false → result ≡ false }
    ensures reload { reloads ≡ true → (j : Journal) (x : Item) → C.entries core.now ≡ more j x → result ≡ not (is_reload_line x) }
{
    if !reloads {
        return false;
    }
    !has_reloaded(core)
}

/// Puts the command of a source's line, where it stands next. Behind a Restart the line of its Again is due. A reload that is put as a
/// refusal has another line than this one.
fn put_source<C: Core>(
    core: &mut C,
    line: PrintedLine,
    closing: bool,
    again: &mut bool,
) -> Result<bool, TraceFault>
    requires usable { C.is_spent core.old ≡ false }
    requires stands { Stands (reached (C.entries core.old) (C.runs core.old) closing false) }
    requires told { again.old ≡ false }
    requires fair { IsFairButForName line.cmd }
    ensures answer { let before = reached (C.entries core.old) (C.runs core.old) closing false in
        let after = reached (C.entries core.new) (C.runs core.new) closing again.new in
        (text : Text) → IsPrintOfLine text line → IsOnlyPrint text line → (IsEnd (C.entries core.old) (C.runs core.old) text → ⊥) → Answers C.Prepare.reads text before after result }
    ensures usable { OnOk result (C.is_spent core.new ≡ false) }
    ensures stays { OnErr result (IsFrontOf (C.entries core.old) (C.entries core.new)) }
{
    if !is_due(core, &line, closing) {
        return Err(unfit(core));
    }
    let PrintedLine {
        source,
        number,
        cmd,
    } = line;
    let restarts = is_restart(&cmd);
    let reloads = is_reload(&cmd);
    match core.put_line(source, number, cmd) {
        Ok(()) => {
            if was_refused(core, reloads) {
                return Err(TraceFault::Refused);
            }
            *again = restarts;
            Ok(false)
        }
        Err(fault) => Err(unput(fault)),
    }
}

/// Whether the worker may step: one that is rested makes closing steps alone, and those are of worker 0.
fn may_step<C: Core>(core: &C, worker: u32, closing: bool) -> bool
    requires usable { C.is_spent core.now ≡ false }
    ensures { IsTrue result ↔ IsAllowed (reached (C.entries core.now) (C.runs core.now) closing false) worker }
{
    if core.quiet() {
        return false;
    }
    worker == 0 || (!closing && !core.rested(worker))
}

/// Whether the journal has a closing step, once the worker has stepped.
fn closes<C: Core>(core: &C, worker: u32, closing: bool) -> bool
    requires usable { C.is_spent core.now ≡ false }
    ensures { result ≡ (closing || is_rested (C.runs core.now) worker (C.entries core.now)) }
{
    closing || core.rested(worker)
}

/// Makes the line of an entry, by the names of the core's units.
fn shown_line<C: Core>(
    alloc: Global,
    shown: &mut Word,
    core: &C,
    entry: &Entry,
) -> Result<(), AllocError>
    requires { AreDated entry.now }
    ensures { OnOk result (shown.new ≡ trace_line_lem (names (C.entries core.now)) entry.now) }
{
    trace_line(alloc, shown, entry, core.units())
}

/// Whether the line is that of the last entry, which is made in `shown`.
fn is_last<C: Core>(
    alloc: Global,
    shown: &mut Word,
    core: &C,
    line: &[u8],
) -> Result<bool, AllocError>
    requires dated { IfSome (slice_get (C.entries core.now) (length (C.entries core.now) - 1)) AreDated }
    ensures { (j : Journal) (x : Entry) → C.entries core.now ≡ more j x
        → IfOk result (λ same. IsTrue same ↔ (as_line line.now ≡ trace_line_lem (names (more j x)) x)) }
{
    let Some(entry) = core.journal().last() else {
        return Ok(false);
    };
    shown_line(alloc, shown, core, entry)?;
    Ok(is_same(shown.bytes(), line))
}

/// Puts a step of the worker, where it may step, and compares the line with the one of that step.
fn put_worker<C: Core>(
    alloc: Global,
    shown: &mut Word,
    core: &mut C,
    worker: u32,
    line: &[u8],
    closing: &mut bool,
) -> Result<bool, TraceFault>
    requires usable { C.is_spent core.old ≡ false }
    requires stands { Stands (reached (C.entries core.old) (C.runs core.old) closing.old false) }
    requires unended { IsEnd (C.entries core.old) (C.runs core.old) line.now → ⊥ }
    requires begins { (rest : Text) × (line.now ≡ codes "{\"worker\":" ++ rest) }
    requires whose { (k : ℕ) → k < 16 → IsOf line.now k → k ≡ worker }
    ensures answer { Answers C.Prepare.reads line.now (reached (C.entries core.old) (C.runs core.old) closing.old false) (reached (C.entries core.new) (C.runs core.new) closing.new false) result }
    ensures usable { OnOk result (C.is_spent core.new ≡ false) }
    ensures stays { OnErr result (IsFrontOf (C.entries core.old) (C.entries core.new)) }
{
    if !may_step(core, worker, *closing) {
        return Err(unfit(core));
    }
    let closed = closes(core, worker, *closing);
    match core.put_step(worker) {
        Ok(()) => {}
        Err(fault) => return Err(unput(fault)),
    }
    match is_last(alloc, shown, core, line) {
        Ok(true) => {
            *closing = closed;
            Ok(false)
        }
        Ok(false) => Err(TraceFault::Refused),
        Err(_) => Err(TraceFault::Memory),
    }
}

/// Takes a line as that of the Again which was put with the Restart before it.
fn take_again<C: Core>(
    alloc: Global,
    shown: &mut Word,
    core: &C,
    line: &[u8],
    closing: bool,
    again: &mut bool,
) -> Result<bool, TraceFault>
    requires stands { Stands (reached (C.entries core.now) (C.runs core.now) closing again.old) }
    requires due { again.old ≡ true }
    ensures { Answers C.Prepare.reads line.now (reached (C.entries core.now) (C.runs core.now) closing again.old) (reached (C.entries core.now) (C.runs core.now) closing again.new) result }
{
    match is_last(alloc, shown, core, line) {
        Ok(true) => {
            *again = false;
            Ok(false)
        }
        Ok(false) => Err(unfit(core)),
        Err(_) => Err(TraceFault::Memory),
    }
}

/// Takes a line, without its LF, as the next lawful entry, and gives false, or as the lawful end of the journal, and gives true. Full comes
/// exactly where there is no room for it: the last segment or the journal is full, and it is neither the end nor the Again that is due; or
/// it is the next lawful Restart, which has no room. Refused comes exactly where there is room, and it is neither. After any fault the core
/// may only be let go: it may have the step that the line was compared with. `closing` tells whether the journal has a closing step,
/// `again` whether its last entry is an Again whose line is still due. `shown` is written over: what is compared with the line is printed
/// in it.
pub fn replay_line<C: Core>(
    alloc: Global,
    shown: &mut Word,
    core: &mut C,
    line: &[u8],
    closing: &mut bool,
    again: &mut bool,
) -> Result<bool, TraceFault>
    requires usable { C.is_spent core.old ≡ false }
    requires stands { Stands (reached (C.entries core.old) (C.runs core.old) closing.old again.old) }
    requires short { length line.now < 2 ^ 32 }
    ensures answer { Answers C.Prepare.reads line.now (reached (C.entries core.old) (C.runs core.old) closing.old again.old) (reached (C.entries core.new) (C.runs core.new) closing.new again.new) result }
    ensures usable { OnOk result (C.is_spent core.new ≡ false) }
    ensures stays { OnErr result (IsFrontOf (C.entries core.old) (C.entries core.new)) }
{
    if *again {
        return take_again(alloc, shown, core, line, *closing, again);
    }
    match is_end(alloc, core, line) {
        Ok(true) => return Ok(true),
        Ok(false) => {}
        Err(_) => return Err(TraceFault::Memory),
    }
    if let Some(worker) = worker_of(line) {
        return put_worker(alloc, shown, core, worker, line, closing);
    }
    match read_line(alloc, line, shown) {
        Ok(Some(read)) => put_source(core, read, *closing, again),
        Ok(None) => Err(unfit(core)),
        Err(_) => Err(TraceFault::Memory),
    }
}
