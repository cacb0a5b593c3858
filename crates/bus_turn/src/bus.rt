//! The bus.
ghost use Rattle.std.specs.Prelude.{◌≡◌, ◌∷◌, ◌<◌, [], ◌⊎◌, true, false, ℕ, List, Some, None, IfSome, count_by, option_map, length};
ghost use Rattle.std.specs.List.{list_any};
ghost use Rattle.ha_journal.specs.declared.entry.Entry.{Entry};
ghost use Rattle.ha_config.specs.Fair.{prepared};
ghost use Rattle.ha_journal.specs.Commands.{IsFair, put_as};
ghost use Rattle.ha_journal.specs.Entries.{restarts};
ghost use Rattle.ha_model.specs.Lawful.{is_line_of, shuts};
ghost use Rattle.ha_whole.specs.Whole.{is_quiet, is_rested};
ghost use Rattle.ha_texts.specs.Lines.{AreDated};
ghost use Rattle.bus_turn.specs.States.{keeper_of, outside_of, sink_of};
ghost use Rattle.bus_turn.specs.Shown.{texts_of};
ghost use Rattle.bus_turn.specs.Writes.{Shows};
ghost use Rattle.bus_turn.specs.Buses.{IsBus, IsStep, Puts};
ghost use Rattle.bus_turn.specs.Ends.{Ends, HasEnded};

use crate::end::{Ended, write_end};
use crate::fault::BusFault;
use crate::show::write_put;
use ha_config::Cmd;
use ha_io::{Keeper, Sink};
use ha_value::Word;
use ha_whole::Core;
use std::alloc::Global;
use std::marker::Model;

/// A core with the sinks of its calls and errors, that of its trace, where there is one, and the keeper of its switches. Contracts see
/// its journal with the records, what lies outside, and the first fault.
#[derive(Drop)]
pub struct Bus<C: Core, K: Sink, Q: Keeper> {
    core: C,
    calls: K,
    errors: K,
    trace: Option<K>,
    keep: Q,
    /// The line that was written last. The next one is made in its place.
    shown: Word,
    first: Option<BusFault>,
}

impl<C: Core, K: Sink, Q: Keeper> Model for Bus<C, K, Q> {
    ghost use Rattle.std.specs.Coded.{codes};
    ghost use Rattle.ha_model.specs.contracts.record.Record as run;
    ghost use Rattle.ha_journal.specs.contracts.entry.Entry as item;
    ghost use Rattle.bus_turn.specs.States.{keeper_of, outside_of, sink_of};
    ghost use Rattle.bus_turn.specs.Shown.{BusView, bus_view};
    ghost use Rattle.bus_turn.specs.Buses.{IsBus};

    ghost Value = { BusView };

    ghost coded = { Prim.hlevel (codes, run.the_row.coded, item.the_row.coded) };

    ghost view = { λ b.
        let s = sink_of K.written K.faults K.zeros K.name in
        let q = keeper_of Q.kept Q.faults in
        bus_view (C.entries b.core) (C.runs b.core) (C.is_spent b.core) (outside_of s q b.calls b.errors b.trace b.keep) b.first };

    ghost invariant = { λ b.
        let s = sink_of K.written K.faults K.zeros K.name in
        let q = keeper_of Q.kept Q.faults in
        IsBus (bus_view (C.entries b.core) (C.runs b.core) (C.is_spent b.core) (outside_of s q b.calls b.errors b.trace b.keep) b.first) };
}

impl<C: Core, K: Sink, Q: Keeper> Bus<C, K, Q> {
    /// A bus over a core whose journal is the boot alone, and sinks that took nothing. It writes the boot's line in the trace, where there
    /// is one, and saves what is to be stored. A fault of a part is kept.
    pub fn start(
        alloc: Global,
        core: C,
        calls: K,
        errors: K,
        trace: Option<K>,
        keep: Q,
    ) -> Bus<C, K, Q>
        requires usable { C.is_spent core ≡ false }
        requires boot { (boot : Entry) × (C.entries core ≡ boot ∷ []) × AreDated boot }
        requires no_calls { IfSome (K.written calls) (λ t. t ≡ []) }
        requires no_errors { IfSome (K.written errors) (λ t. t ≡ []) }
        requires no_trace { IfSome trace (λ k. IfSome (K.written k) (λ t. t ≡ [])) }
        ensures journal { result.journal ≡ C.entries core }
        ensures records { result.records ≡ C.runs core }
        ensures shows { let s = sink_of K.written K.faults K.zeros K.name in
            let q = keeper_of Q.kept Q.faults in
            (boot : Entry) → C.entries core ≡ boot ∷ []
            → Shows (texts_of (C.runs core) [] boot) (outside_of s q calls errors trace keep) result.first result.out }
    {
        let mut calls = calls;
        let mut errors = errors;
        let mut trace = trace;
        let mut keep = keep;
        let mut shown = Word::new(alloc);
        let _ = core.journal();
        let first = write_put(
            alloc,
            &mut shown,
            Ok(()),
            &core,
            &mut calls,
            &mut errors,
            &mut trace,
            &mut keep,
            false,
        );
        Bus {
            core,
            calls,
            errors,
            trace,
            keep,
            shown,
            first,
        }
    }

    /// The core.
    pub fn core(&self) -> &C
        ensures journal { C.entries result.now ≡ self.now.journal }
        ensures records { C.runs result.now ≡ self.now.records }
        ensures usable { self.now.first ≡ None → C.is_spent result.now ≡ false }
    {
        &self.core
    }

    /// The core, the sinks of the calls, the errors and the trace, and the keeper.
    pub fn into_parts(self) -> (C, K, K, Option<K>, Q)
        ensures journal { C.entries result.0 ≡ self.journal }
        ensures records { C.runs result.0 ≡ self.records }
        ensures out { let s = sink_of K.written K.faults K.zeros K.name in
            let q = keeper_of Q.kept Q.faults in
            outside_of s q result.1 result.2 result.3 result.4 ≡ self.out }
    {
        let Bus {
            core,
            calls,
            errors,
            trace,
            keep,
            shown: _,
            first: _,
        } = self;
        (core, calls, errors, trace, keep)
    }

    /// Ends a bus on which no run is ready to step: writes the end line to the trace, where there is one, has its sink hand on what it
    /// keeps, and gives the parts. A fault of that is told beside them.
    pub fn end(self, alloc: Global) -> Ended<C, K, Q>
        requires open { self.first ≡ None }
        requires quiet { is_quiet self.records self.journal ≡ true }
        ensures journal { C.entries result.core ≡ self.journal }
        ensures records { C.runs result.core ≡ self.records }
        ensures writes { let s = sink_of K.written K.faults K.zeros K.name in
            let q = keeper_of Q.kept Q.faults in
            Ends self.journal self.out result.first (outside_of s q result.calls result.errors result.trace result.keep) }
        ensures stands { let s = sink_of K.written K.faults K.zeros K.name in HasEnded self.journal result.first (option_map s result.trace) }
        ensures handed { result.first ≡ None → IfSome result.trace (λ k. K.kept k ≡ 0) }
    {
        let Bus {
            core,
            calls,
            errors,
            mut trace,
            keep,
            shown: _,
            first: _,
        } = self;
        let first = write_end(alloc, core.journal().len(), &mut trace).err();
        Ended {
            core,
            calls,
            errors,
            trace,
            keep,
            first,
        }
    }

    /// The first fault, after which the bus takes no put. What a bus always is stands here for its callers.
    pub fn first(&self) -> Option<BusFault>
        ensures value { result ≡ self.now.first }
        ensures stands { IsBus self.now }
    {
        let _ = &self.core;
        self.first
    }

    /// Whether the source may put a line.
    pub fn rested(&self, source: u32) -> bool
        requires { self.now.first ≡ None }
        ensures { result ≡ is_rested self.now.records source self.now.journal }
    {
        self.core.rested(source)
    }

    /// Whether no run is ready to step.
    pub fn quiet(&self) -> bool
        requires { self.now.first ≡ None }
        ensures { result ≡ is_quiet self.now.records self.now.journal }
    {
        self.core.quiet()
    }

    /// Puts a line of a source and writes what it gives: its lines in order, call, error and trace, behind a restart's line in the trace
    /// that of the entry that opens the next segment, and then the store's text, where it changed. The first fault is kept, and nothing
    /// further is written. Where it `goes_on`, the trace's sink may keep its line: the caller then puts more before it waits for anything.
    #[inline(always)]
    pub fn line(&mut self, alloc: Global, source: u32, number: u64, cmd: Cmd, goes_on: bool)
        requires open { self.old.first ≡ None }
        requires known { source < 16 }
        requires rested { is_rested self.old.records source self.old.journal ≡ true }
        requires next { number ≡ count_by (is_line_of source) self.old.journal }
        requires unshut { list_any (shuts source) self.old.journal ≡ false }
        requires fair { IsFair self.old.journal (put_as self.old.journal (prepared C.Prepare.reads cmd)) }
        ensures { Puts (restarts cmd) (λ x. x ≡ Entry.Line source number (put_as self.old.journal (prepared C.Prepare.reads cmd))) self.old self.new }
    {
        let put = self.core.put_line(source, number, cmd);
        self.first = write_put(
            alloc,
            &mut self.shown,
            put,
            &self.core,
            &mut self.calls,
            &mut self.errors,
            &mut self.trace,
            &mut self.keep,
            goes_on,
        );
    }

    /// Puts one step of a worker and writes what it gives, as a line is put and written.
    pub fn step(&mut self, alloc: Global, worker: u32, goes_on: bool)
        requires open { self.old.first ≡ None }
        requires busy { is_quiet self.old.records self.old.journal ≡ false }
        ensures { Puts false (IsStep worker self.old) self.old self.new }
    {
        let put = self.core.put_step(worker);
        self.first = write_put(
            alloc,
            &mut self.shown,
            put,
            &self.core,
            &mut self.calls,
            &mut self.errors,
            &mut self.trace,
            &mut self.keep,
            goes_on,
        );
    }

    /// Keeps as the first fault that memory ran out, before a line could be put.
    pub fn run_out(&mut self)
        requires { self.old.first ≡ None }
        ensures { self.new ≡ record self.old { first = Some BusFault.Memory } }
    {
        self.first = Some(BusFault::Memory);
    }
}
