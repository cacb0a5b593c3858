//! The bus as a worker holds it.
ghost use Rattle.std.specs.Prelude.{◌≡◌, ◌<◌, true, false, Some, None, IfOk, IfErr, count_by};
ghost use Rattle.std.specs.List.{list_any};
ghost use Rattle.ha_journal.specs.declared.entry.Entry.{Entry};
ghost use Rattle.ha_config.specs.Fair.{prepared};
ghost use Rattle.ha_journal.specs.Commands.{IsFair, put_as};
ghost use Rattle.ha_journal.specs.Entries.{restarts};
ghost use Rattle.ha_model.specs.Lawful.{is_line_of, shuts};
ghost use Rattle.ha_whole.specs.Whole.{is_quiet, is_rested};
ghost use Rattle.bus_turn.specs.Buses.{IsBus, IsStep, Puts};

use bus_turn::{Bus, BusFault};
use ha_config::Cmd;
use ha_io::{Keeper, Sink};
use ha_whole::Core;
use std::alloc::{AllocFailed, Global};
use std::marker::Model;

/// A bus in memory of its own: what goes from worker to worker is a pointer to it. Contracts see the bus.
#[derive(Drop)]
pub struct Held<C: Core + Drop, K: Sink, Q: Keeper> {
    bus: Box<Bus<C, K, Q>, Global>,
}

impl<C: Core + Drop, K: Sink, Q: Keeper> Model for Held<C, K, Q> {
    ghost use Rattle.std.specs.Coded.{codes};
    ghost use Rattle.ha_model.specs.contracts.record.Record as run;
    ghost use Rattle.ha_journal.specs.contracts.entry.Entry as item;
    ghost use Rattle.bus_turn.specs.Shown.{BusView};

    ghost Value = { BusView };

    ghost coded = { Prim.hlevel (codes, run.the_row.coded, item.the_row.coded) };

    ghost view = { λ h. h.bus.value };
}

impl<C: Core + Drop, K: Sink, Q: Keeper> Held<C, K, Q> {
    /// Puts the bus into memory of its own. Where there is none, it comes back.
    pub(crate) fn make(alloc: Global, bus: Bus<C, K, Q>) -> Result<Held<C, K, Q>, Bus<C, K, Q>>
        ensures held { IfOk result (λ h. h ≡ bus) }
        ensures back { IfErr result (λ b. b ≡ bus) }
    {
        match Box::new(alloc, bus) {
            Ok(bus) => Ok(Held { bus }),
            Err(AllocFailed { value }) => Err(value),
        }
    }

    /// The bus, and its memory is given back.
    pub(crate) fn into_bus(self) -> Bus<C, K, Q>
        ensures { result ≡ self }
    {
        let Held { bus } = self;
        Box::into_inner(bus)
    }

    /// As `Bus::core`.
    #[inline(always)]
    pub fn core(&self) -> &C
        ensures journal { C.entries result.now ≡ self.now.journal }
        ensures records { C.runs result.now ≡ self.now.records }
        ensures usable { self.now.first ≡ None → C.is_spent result.now ≡ false }
    {
        self.bus.as_ref().core()
    }

    /// As `Bus::first`.
    #[inline(always)]
    pub fn first(&self) -> Option<BusFault>
        ensures value { result ≡ self.now.first }
        ensures stands { IsBus self.now }
    {
        self.bus.as_ref().first()
    }

    /// As `Bus::rested`.
    #[inline(always)]
    pub fn rested(&self, source: u32) -> bool
        requires { self.now.first ≡ None }
        ensures { result ≡ is_rested self.now.records source self.now.journal }
    {
        self.bus.as_ref().rested(source)
    }

    /// As `Bus::line`.
    #[inline(always)]
    pub fn line(&mut self, alloc: Global, source: u32, number: u64, cmd: Cmd, goes_on: bool)
        requires open { self.old.first ≡ None }
        requires known { source < 16 }
        requires rested { is_rested self.old.records source self.old.journal ≡ true }
        requires next { number ≡ count_by (is_line_of source) self.old.journal }
        requires unshut { list_any (shuts source) self.old.journal ≡ false }
        requires fair { IsFair self.old.journal (put_as self.old.journal (prepared C.Prepare.reads cmd)) }
        ensures { Puts (restarts cmd) (λ x. x ≡ Entry.Line source number (put_as self.old.journal (prepared C.Prepare.reads cmd))) self.old self.new }
    {
        self.bus.as_mut().line(alloc, source, number, cmd, goes_on);
    }

    /// As `Bus::step`.
    #[inline(always)]
    pub fn step(&mut self, alloc: Global, worker: u32, goes_on: bool)
        requires open { self.old.first ≡ None }
        requires busy { is_quiet self.old.records self.old.journal ≡ false }
        ensures { Puts false (IsStep worker self.old) self.old self.new }
    {
        self.bus.as_mut().step(alloc, worker, goes_on);
    }

    /// As `Bus::run_out`.
    pub fn run_out(&mut self)
        requires { self.old.first ≡ None }
        ensures { self.new ≡ record self.old { first = Some BusFault.Memory } }
    {
        self.bus.as_mut().run_out();
    }
}
