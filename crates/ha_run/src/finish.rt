//! The end of a run, when the workers have ended.
ghost use Rattle.std.specs.Prelude.{◌≡◌, None, option_map, true};
ghost use Rattle.ha_journal.specs.Commands.{AreRead};
ghost use Rattle.ha_whole.specs.Whole.{Lawful, is_quiet};
ghost use Rattle.bus_turn.specs.States.{keeper_of, outside_of, sink_of};
ghost use Rattle.ha_run.specs.Core.{IsHandedOn};
ghost use Rattle.ha_run.specs.Finish.{Finishes, MayClose, StopsOrEnds, ended_status};

use crate::status::status_of;
use bus_turn::{Bus, BusFault, Ended};
use ha_io::{Keeper, Sink};
use ha_journal::Entry;
use ha_model::Record;
use ha_status::Status;
use ha_value::Many;
use ha_whole::Core;
use ha_worker::close;
use std::alloc::Global;

/// What is left of a bus that was ended, with the status.
#[derive(Drop)]
pub(crate) struct Rest<K: Sink, Q: Keeper> {
    pub(crate) status: Status,
    pub(crate) journal: Many<Entry>,
    pub(crate) records: Many<Record>,
    pub(crate) calls: K,
    pub(crate) errors: K,
    pub(crate) trace: Option<K>,
    pub(crate) keep: Q,
}

/// Puts the closing steps, where the bus keeps no fault.
fn close_free<C: Core, K: Sink, Q: Keeper>(alloc: Global, bus: &mut Bus<C, K, Q>)
    requires lawful { bus.old.first ≡ None → Lawful bus.old.journal bus.old.records }
    ensures { MayClose bus.old bus.new }
{
    if bus.first().is_none() {
        close(alloc, bus);
    }
}

/// The parts of a bus that keeps a fault, with the status of that fault.
fn stopped<C: Core, K: Sink, Q: Keeper>(bus: Bus<C, K, Q>, status: Status) -> Rest<K, Q>
    ensures status { result.status ≡ status }
    ensures journal { result.journal ≡ bus.journal }
    ensures records { result.records ≡ bus.records }
    ensures read { AreRead C.Prepare.reads result.journal }
    ensures out { let s = sink_of K.written K.faults K.zeros K.name in
        let q = keeper_of Q.kept Q.faults in
        outside_of s q result.calls result.errors result.trace result.keep ≡ bus.out }
{
    let (core, calls, errors, trace, keep) = bus.into_parts();
    let _ = core.journal();
    let (journal, records) = core.into_parts();
    Rest {
        status,
        journal,
        records,
        calls,
        errors,
        trace,
        keep,
    }
}

/// The status behind the end line of the trace: that of a fault of this line, and else `told`.
fn status_behind(first: Option<BusFault>, told: Status) -> Status
    ensures { result ≡ ended_status first told }
{
    match first {
        Some(fault) => status_of(fault),
        None => told,
    }
}

/// Ends a bus that keeps no fault and on which no run can go on: the end line of the trace is written. The status is `told`, unless that
/// fails.
fn ended<C: Core, K: Sink, Q: Keeper>(alloc: Global, bus: Bus<C, K, Q>, told: Status) -> Rest<K, Q>
    requires free { bus.first ≡ None }
    requires quiet { is_quiet bus.records bus.journal ≡ true }
    ensures read { AreRead C.Prepare.reads result.journal }
    ensures handed { IsHandedOn (option_map K.kept result.trace) result.status }
    ensures ends { let s = sink_of K.written K.faults K.zeros K.name in
        let q = keeper_of Q.kept Q.faults in
        StopsOrEnds told result.status result.journal result.records (outside_of s q result.calls result.errors result.trace result.keep) bus }
{
    let _ = bus.first();
    let Ended {
        core,
        calls,
        errors,
        trace,
        keep,
        first,
    } = bus.end(alloc);
    let status = status_behind(first, told);
    let _ = core.journal();
    let (journal, records) = core.into_parts();
    Rest {
        status,
        journal,
        records,
        calls,
        errors,
        trace,
        keep,
    }
}

/// Ends a bus: the status is that of its first fault, and else `told`.
fn end<C: Core, K: Sink, Q: Keeper>(alloc: Global, bus: Bus<C, K, Q>, told: Status) -> Rest<K, Q>
    requires quiet { bus.first ≡ None → is_quiet bus.records bus.journal ≡ true }
    ensures read { AreRead C.Prepare.reads result.journal }
    ensures handed { IsHandedOn (option_map K.kept result.trace) result.status }
    ensures ends { let s = sink_of K.written K.faults K.zeros K.name in
        let q = keeper_of Q.kept Q.faults in
        StopsOrEnds told result.status result.journal result.records (outside_of s q result.calls result.errors result.trace result.keep) bus }
{
    match bus.first() {
        Some(fault) => stopped(bus, status_of(fault)),
        None => ended(alloc, bus, told),
    }
}

/// Puts the closing steps, and ends the bus.
pub(crate) fn finish<C: Core, K: Sink, Q: Keeper>(
    alloc: Global,
    bus: Bus<C, K, Q>,
    told: Status,
) -> Rest<K, Q>
    requires lawful { bus.first ≡ None → Lawful bus.journal bus.records }
    ensures read { AreRead C.Prepare.reads result.journal }
    ensures handed { IsHandedOn (option_map K.kept result.trace) result.status }
    ensures finishes { let s = sink_of K.written K.faults K.zeros K.name in
        let q = keeper_of Q.kept Q.faults in
        Finishes told result.status result.journal result.records (outside_of s q result.calls result.errors result.trace result.keep) bus }
{
    let mut bus = bus;
    close_free(alloc, &mut bus);
    end(alloc, bus, told)
}
