//! The lines of a trace, judged one after the other.
ghost use Rattle.std.specs.Prelude.{◌≡◌, ◌<◌, ◌≤◌, ◌+◌, ◌^◌, ◌++◌, ◌∷◌, Option, IfOk, IfErr, OnOk, false, true, length};
ghost use Rattle.ha_journal.specs.declared.entry.Entry.{Entry};
ghost use Rattle.ha_config.specs.Words.{Text};
ghost use Rattle.ha_journal.specs.Journal.{Journal, more};
ghost use Rattle.ha_journal.specs.EntryText.{error_text_of};
ghost use Rattle.bus_turn.specs.States.{sink_of};
ghost use Rattle.bus_turn.specs.Writes.{fault_of};
ghost use Rattle.ha_status.specs.Causes.{NeverFall, OneRose, WriteCause};
ghost use Rattle.ha_replay.specs.Traces.{reached, told};
ghost use Rattle.replay_file.specs.declared.front.FrontEnd.{FrontEnd as End};
ghost use Rattle.replay_file.specs.Fronts.{most_bytes};
ghost use Rattle.trace_laws.specs.Lines.{is_one_line};
ghost use Rattle.replay_file.specs.Judged.{IsAt, IsCutShort, IsTaken, Judged};
ghost use Rattle.replay_file.specs.Steps.{IfWrite, IsReady, WritesBoth};
ghost use Rattle.ha_whole.specs.Trace.{call_text_of};

use crate::boot::boot;
use crate::cut::cut_line;
use crate::front::FrontEnd;
use bus_turn::{BusFault, write_call, write_error};
use conf_reader::Reader;
use ha_boot::Boots;
use ha_io::Sink;
use ha_replay::{TraceFault, is_full, replay_line};
use ha_status::Status;
use ha_value::Word;
use ha_whole::Core;
use std::alloc::Global;

/// How far a trace was judged.
#[derive(Drop)]
struct Replay<E: Boots> {
    core: E,
    /// Whether a closing step was taken.
    closing: bool,
    /// Whether the last entry is an Again whose line is still due.
    again: bool,
    /// Whether the end line was taken.
    ended: bool,
    /// How many lines were taken.
    lines: u32,
    /// What was printed last. The next print is made in its place.
    shown: Word,
}

/// What a fault at the line behind these comes to.
fn status_of(fault: TraceFault, lines: u32) -> Status
    requires { lines < 2 ^ 31 }
    ensures refused { fault ≡ TraceFault.Refused → result ≡ Status.TraceRefused (lines + 1) }
    ensures full { fault ≡ TraceFault.Full → result ≡ Status.JournalFull }
    ensures memory { fault ≡ TraceFault.Memory → result ≡ Status.Memory }
{
    match fault {
        TraceFault::Refused => Status::TraceRefused { line: lines + 1 },
        TraceFault::Full => Status::JournalFull,
        TraceFault::Memory => Status::Memory,
    }
}

/// What a text that was not written comes to.
fn unwritten(fault: BusFault) -> Status
    ensures cut { IsCutShort result }
    ensures write { IfWrite result fault }
{
    match fault {
        BusFault::Write { zero } => Status::WriteFault { zero },
        BusFault::Keep | BusFault::Full | BusFault::Memory => Status::Memory,
    }
}

/// Writes the call line and the error line of the last entry. Behind a Restart that is its Again: neither has one.
fn write_last<C: Core, K: Sink>(
    alloc: Global,
    shown: &mut Word,
    core: &C,
    out: &mut K,
    err: &mut K,
) -> Result<(), BusFault>
    ensures { let s = sink_of K.written K.faults K.zeros K.name in
        (before : Journal) (x : Entry) → C.entries core.now ≡ more before x
        → WritesBoth (call_text_of (C.runs core.now) before x) (error_text_of x) (s out.old) (s err.old) (fault_of result) (s out.new) (s err.new) }
{
    let Some(entry) = core.journal().last() else {
        return Ok(());
    };
    match write_call(alloc, shown, core, entry, out) {
        Ok(()) => {}
        Err(fault) => return Err(fault),
    }
    write_error(alloc, shown, entry, err)
}

/// Takes a whole line as the next entry, and writes what that gives; or as the end of the trace, and gives true.
fn take_line<C: Core<Prepare = Reader>, K: Sink>(
    alloc: Global,
    shown: &mut Word,
    core: &mut C,
    line: &[u8],
    closing: &mut bool,
    again: &mut bool,
    lines: u32,
    out: &mut K,
    err: &mut K,
) -> Result<bool, Status>
    requires ready { IsReady (reached (C.entries core.old) (C.runs core.old) closing.old again.old) (C.is_spent core.old) false lines }
    requires short { length line.now < 2 ^ 32 }
    ensures goes_on { (text behind : Text) (o e : Option Text) → IsAt text (told (reached (C.entries core.old) (C.runs core.old) closing.old again.old)) (C.runs core.old) false (line.now ++ (10 ∷ behind)) o (K.written out.old) e (K.written err.old)
        → IfOk result (λ ended. IsAt text (told (reached (C.entries core.new) (C.runs core.new) closing.new again.new)) (C.runs core.new) ended behind o (K.written out.new) e (K.written err.new)) }
    ensures stops { (text behind : Text) (end : End) (o e : Option Text) → is_one_line line.now ≡ true
        → IsAt text (told (reached (C.entries core.old) (C.runs core.old) closing.old again.old)) (C.runs core.old) false (line.now ++ (10 ∷ behind)) o (K.written out.old) e (K.written err.old)
        → IfErr result (λ status. Judged text end status (λ t. IsTaken status t o (K.written out.new)) (λ t. IsTaken status t e (K.written err.new))) }
    ensures ready { IfOk result (λ ended. IsReady (reached (C.entries core.new) (C.runs core.new) closing.new again.new) (C.is_spent core.new) ended (lines + 1)) }
    ensures cause { IfErr result (λ status. WriteCause (OneRose (K.faults out.old) (K.faults out.new) (K.faults err.old) (K.faults err.new)) (OneRose (K.zeros out.old) (K.zeros out.new) (K.zeros err.old) (K.zeros err.new)) status) }
    ensures out_counts { NeverFall (K.faults out.old) (K.faults out.new) (K.zeros out.old) (K.zeros out.new) }
    ensures err_counts { NeverFall (K.faults err.old) (K.faults err.new) (K.zeros err.old) (K.zeros err.new) }
    ensures out_name { K.name out.new ≡ K.name out.old }
    ensures err_name { K.name err.new ≡ K.name err.old }
{
    match replay_line(alloc, shown, core, line, closing, again) {
        Ok(true) => Ok(true),
        Ok(false) => {
            let _ = core.journal();
            match write_last(alloc, shown, core, out, err) {
                Ok(()) => Ok(false),
                Err(fault) => Err(unwritten(fault)),
            }
        }
        Err(fault) => Err(status_of(fault, lines)),
    }
}

impl<E: Boots<Prepare = Reader>> Replay<E> {
    /// Takes a whole line, and writes what its entry gives. Nothing may follow the end line.
    fn take<K: Sink>(
        &mut self,
        alloc: Global,
        line: &[u8],
        out: &mut K,
        err: &mut K,
    ) -> Result<(), Status>
        requires ready { IsReady (reached (E.entries self.old.core) (E.runs self.old.core) self.old.closing self.old.again) (E.is_spent self.old.core) self.old.ended self.old.lines }
        requires short { length line.now < 2 ^ 32 }
        ensures goes_on { (text behind : Text) (o e : Option Text) → IsAt text (told (reached (E.entries self.old.core) (E.runs self.old.core) self.old.closing self.old.again)) (E.runs self.old.core) self.old.ended (line.now ++ (10 ∷ behind)) o (K.written out.old) e (K.written err.old)
            → OnOk result (IsAt text (told (reached (E.entries self.new.core) (E.runs self.new.core) self.new.closing self.new.again)) (E.runs self.new.core) self.new.ended behind o (K.written out.new) e (K.written err.new)) }
        ensures stops { (text behind : Text) (end : End) (o e : Option Text) → is_one_line line.now ≡ true
            → IsAt text (told (reached (E.entries self.old.core) (E.runs self.old.core) self.old.closing self.old.again)) (E.runs self.old.core) self.old.ended (line.now ++ (10 ∷ behind)) o (K.written out.old) e (K.written err.old)
            → IfErr result (λ status. Judged text end status (λ t. IsTaken status t o (K.written out.new)) (λ t. IsTaken status t e (K.written err.new))) }
        ensures ready { OnOk result (IsReady (reached (E.entries self.new.core) (E.runs self.new.core) self.new.closing self.new.again) (E.is_spent self.new.core) self.new.ended self.new.lines) }
        ensures cause { IfErr result (λ status. WriteCause (OneRose (K.faults out.old) (K.faults out.new) (K.faults err.old) (K.faults err.new)) (OneRose (K.zeros out.old) (K.zeros out.new) (K.zeros err.old) (K.zeros err.new)) status) }
        ensures out_counts { NeverFall (K.faults out.old) (K.faults out.new) (K.zeros out.old) (K.zeros out.new) }
        ensures err_counts { NeverFall (K.faults err.old) (K.faults err.new) (K.zeros err.old) (K.zeros err.new) }
        ensures out_name { K.name out.new ≡ K.name out.old }
        ensures err_name { K.name err.new ≡ K.name err.old }
    {
        if self.ended {
            return Err(status_of(TraceFault::Refused, self.lines));
        }
        match take_line(
            alloc,
            &mut self.shown,
            &mut self.core,
            line,
            &mut self.closing,
            &mut self.again,
            self.lines,
            out,
            err,
        ) {
            Ok(ended) => {
                self.ended = ended;
                self.lines += 1;
                Ok(())
            }
            Err(status) => Err(status),
        }
    }

    /// The status at the end of what was read, of which this is left behind the last LF.
    fn end(&self, left: &[u8], end: FrontEnd) -> Status
        requires ready { IsReady (reached (E.entries self.now.core) (E.runs self.now.core) self.now.closing self.now.again) (E.is_spent self.now.core) self.now.ended self.now.lines }
        requires no_line { is_one_line left.now ≡ true }
        ensures judged { (text : Text) (o o' e e' : Option Text) → IsAt text (told (reached (E.entries self.now.core) (E.runs self.now.core) self.now.closing self.now.again)) (E.runs self.now.core) self.now.ended left.now o o' e e'
            → Judged text end result (λ t. IsTaken result t o o') (λ t. IsTaken result t e e') }
        ensures cause { WriteCause ⊥ ⊥ result }
    {
        match end {
            FrontEnd::Failed => Status::ReadFault { source: Some(0) },
            FrontEnd::TooLong => Status::SourceTooLong { source: 0 },
            FrontEnd::Whole => {
                if self.ended {
                    if left.is_empty() {
                        return Status::Ok;
                    }
                    return status_of(TraceFault::Refused, self.lines);
                }
                if is_full(self.core.journal()) {
                    return Status::JournalFull;
                }
                status_of(TraceFault::Refused, self.lines)
            }
        }
    }

    /// Judges the lines behind the first one, and what is left behind them.
    fn judge_lines<K: Sink>(
        &mut self,
        alloc: Global,
        lines: &[u8],
        end: FrontEnd,
        out: &mut K,
        err: &mut K,
    ) -> Status
        requires ready { IsReady (reached (E.entries self.old.core) (E.runs self.old.core) self.old.closing self.old.again) (E.is_spent self.old.core) self.old.ended self.old.lines }
        requires short { length lines.now ≤ most_bytes }
        ensures judged { (text : Text) (o e : Option Text) → IsAt text (told (reached (E.entries self.old.core) (E.runs self.old.core) self.old.closing self.old.again)) (E.runs self.old.core) self.old.ended lines.now o (K.written out.old) e (K.written err.old)
            → Judged text end result (λ t. IsTaken result t o (K.written out.new)) (λ t. IsTaken result t e (K.written err.new)) }
        ensures cause { WriteCause (OneRose (K.faults out.old) (K.faults out.new) (K.faults err.old) (K.faults err.new)) (OneRose (K.zeros out.old) (K.zeros out.new) (K.zeros err.old) (K.zeros err.new)) result }
        ensures out_counts { NeverFall (K.faults out.old) (K.faults out.new) (K.zeros out.old) (K.zeros out.new) }
        ensures err_counts { NeverFall (K.faults err.old) (K.faults err.new) (K.zeros err.old) (K.zeros err.new) }
        ensures out_name { K.name out.new ≡ K.name out.old }
        ensures err_name { K.name err.new ≡ K.name err.old }
    {
        let mut left = lines;
        'lines: while let Some(cut) = cut_line(left) {
            match self.take(alloc, cut.line, out, err) {
                Ok(()) => {}
                Err(status) => return status,
            }
            left = cut.behind;
        }
        self.end(left, end)
    }
}

/// The status of what was read of a trace, with the lines of its calls and errors written.
pub(crate) fn judge<E: Boots<Prepare = Reader>, K: Sink>(
    alloc: Global,
    text: &[u8],
    end: FrontEnd,
    out: &mut K,
    err: &mut K,
) -> Status
    requires short { length text.now ≤ most_bytes }
    ensures judged { Judged text.now end result (λ t. IsTaken result t (K.written out.old) (K.written out.new)) (λ t. IsTaken result t (K.written err.old) (K.written err.new)) }
    ensures cause { WriteCause (OneRose (K.faults out.old) (K.faults out.new) (K.faults err.old) (K.faults err.new)) (OneRose (K.zeros out.old) (K.zeros out.new) (K.zeros err.old) (K.zeros err.new)) result }
    ensures out_counts { NeverFall (K.faults out.old) (K.faults out.new) (K.zeros out.old) (K.zeros out.new) }
    ensures err_counts { NeverFall (K.faults err.old) (K.faults err.new) (K.zeros err.old) (K.zeros err.new) }
    ensures out_name { K.name out.new ≡ K.name out.old }
    ensures err_name { K.name err.new ≡ K.name err.old }
{
    let Some(first) = cut_line(text) else {
        return match end {
            FrontEnd::Failed => Status::ReadFault { source: Some(0) },
            FrontEnd::TooLong => Status::SourceTooLong { source: 0 },
            FrontEnd::Whole => status_of(TraceFault::Refused, 0),
        };
    };
    let core = match boot::<E>(alloc, first.line) {
        Ok(core) => core,
        Err(fault) => return status_of(fault, 0),
    };
    let mut replay = Replay {
        core,
        closing: false,
        again: false,
        ended: false,
        lines: 1,
        shown: Word::new(alloc),
    };
    replay.judge_lines(alloc, first.behind, end, out, err)
}
