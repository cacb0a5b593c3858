//! A run over a booted core.
ghost use Rattle.std.specs.Prelude.{◌≡◌, ◌∷◌, ◌<◌, ◌≤◌, [], false, IfSome, List, Option, length, map, option_map, vec_capacity, None, true};
ghost use Rattle.crossbeam_channel.specs.Claims.{view};
ghost use Rattle.ha_journal.specs.declared.entry.Entry.{Entry};
ghost use Rattle.ha_texts.specs.Lines.{AreDated};
ghost use Rattle.bus_turn.specs.Shown.{BusView};
ghost use Rattle.bus_turn.specs.States.{keeper_of, outside_of, sink_of};
ghost use Rattle.bus_pass.specs.Origins.{origin_of};
ghost use Rattle.bus_pass.specs.Turns.{IsPassOf};
ghost use Rattle.ha_worker.specs.declared.end.WorkerEnd.{WorkerEnd as End};
ghost use Rattle.ha_run.specs.Core.{CoreRan, IsHandedOn};
ghost use Rattle.ha_run.specs.Opened.{source_of};
ghost use Rattle.ha_run.specs.Team.{IsLead, Teamed, WentRound, told_by};

use crate::finish::{Rest, finish};
use crate::status::told_by;
use crate::team::{gather, hire, work_all};
use bus_pass::{Pass, Turn};
use bus_turn::Bus;
use ha_io::{Gate, Keeper, Sink, Source};
use ha_journal::Entry;
use ha_model::Record;
use ha_status::Status;
use ha_value::Many;
use ha_whole::Core;
use ha_worker::Worker;
use std::alloc::Global;
use std::sync::Wait;
use std::thread::Threads;

/// What a run of a core leaves, before its status line.
#[derive(Drop)]
pub struct CoreRun<S: Source, K: Sink, Q: Keeper> {
    pub status: Status,
    pub journal: Many<Entry>,
    pub records: Many<Record>,
    /// The sources, in order.
    pub sources: Many<S>,
    pub out: K,
    pub err: K,
    pub trace: Option<K>,
    pub keep: Q,
}

/// Where the bus stands behind the workers, with their sources, and the status by their ends.
#[derive(Drop)]
struct Round<S: Source, C: Core + Drop, K: Sink, Q: Keeper> {
    bus: Bus<C, K, Q>,
    sources: Many<S>,
    told: Status,
}

/// Memory ran out before the workers could work, of which the bus is told.
fn without_memory<S: Source, C: Core + Drop, K: Sink, Q: Keeper>(
    bus: Bus<C, K, Q>,
    sources: Many<S>,
) -> Round<S, C, K, Q>
    requires free { bus.first ≡ None }
    ensures { Teamed C.Prepare.reads bus result.bus (map (source_of S.faults S.left S.name) sources) (map (source_of S.faults S.left S.name) result.sources) [] × (result.told ≡ Status.Ok) }
{
    let mut bus = bus;
    bus.run_out();
    Round {
        bus,
        sources,
        told: Status::Ok,
    }
}

/// Sends the bus round among the workers, one for each source.
fn send_round<
    R: Threads + Wait + Sync,
    S: Source,
    C: Core + Drop + Send,
    K: Sink,
    Q: Keeper,
    G: Gate,
>(
    rt: &R,
    alloc: Global,
    turn: Turn<C, K, Q>,
    pass: Pass<C, K, Q>,
    sources: Many<S>,
    seats: Vec<Worker<S, C, K, Q>>,
    back: Vec<S>,
    gate: &G,
) -> Round<S, C, K, Q>
    requires turn { IsPassOf turn pass }
    requires few { length sources ≤ 16 }
    requires lead { (base : BusView) × IsLead 0 (origin_of base) (view pass) }
    requires no_worker { seats.items ≡ [] }
    requires seats { length sources ≤ vec_capacity seats }
    requires no_source { back.items ≡ [] }
    requires back { length sources ≤ vec_capacity back }
    ensures { (base : BusView) → IsLead 0 (origin_of base) (view pass) → (ends : List (Option End)) × WentRound C.Prepare.reads base result.bus (map (source_of S.faults S.left S.name) sources) (map (source_of S.faults S.left S.name) result.sources) ends × (result.told ≡ told_by 0 ends) }
{
    let mut pass = pass;
    let workers = hire(&turn, &mut pass, sources, seats);
    let mut workers = workers.into_vec();
    work_all(rt, alloc, &turn, gate, workers.as_mut_slice());
    let told = told_by(workers.as_slice());
    let sources = gather(&turn, &mut pass, Many::from_vec(workers), back);
    let bus = turn.close(rt, pass);
    Round { bus, sources, told }
}

/// Sends the bus round, unless it keeps a fault, or memory runs out before.
fn go_round<
    R: Threads + Wait + Sync,
    S: Source,
    C: Core + Drop + Send,
    K: Sink,
    Q: Keeper,
    G: Gate,
>(rt: &R, alloc: Global, bus: Bus<C, K, Q>, sources: Many<S>, gate: &G) -> Round<S, C, K, Q>
    requires boot { (boot : Entry) × (bus.journal ≡ boot ∷ []) }
    requires few { length sources ≤ 16 }
    ensures { (ends : List (Option End)) × Teamed C.Prepare.reads bus result.bus (map (source_of S.faults S.left S.name) sources) (map (source_of S.faults S.left S.name) result.sources) ends × (result.told ≡ told_by 0 ends) }
{
    if bus.first().is_some() {
        return Round {
            bus,
            sources,
            told: Status::Ok,
        };
    }
    let Ok(seats) = Vec::with_capacity(alloc, sources.len()) else {
        return without_memory(bus, sources);
    };
    let Ok(back) = Vec::with_capacity(alloc, sources.len()) else {
        return without_memory(bus, sources);
    };
    match Turn::make(rt, alloc, bus) {
        Ok((turn, pass)) => send_round(rt, alloc, turn, pass, sources, seats, back, gate),
        Err(bus) => without_memory(bus, sources),
    }
}

/// Runs a core whose journal is the boot alone on its sources: the boot is written, then a worker for each source works in a thread of its
/// own, until all sources are through, or a first fault of the bus or want of memory ends it. Then come the closing steps and the end of
/// the trace.
pub fn run_core<
    R: Threads + Wait + Sync,
    C: Core + Drop + Send,
    K: Sink,
    Q: Keeper,
    S: Source,
    G: Gate,
>(
    rt: &R,
    alloc: Global,
    core: C,
    sources: Many<S>,
    out: K,
    err: K,
    trace: Option<K>,
    keep: Q,
    gate: &G,
) -> CoreRun<S, K, Q>
    requires usable { C.is_spent core ≡ false }
    requires boot { (boot : Entry) × (C.entries core ≡ boot ∷ []) × AreDated boot }
    requires some { 0 < length sources }
    requires few { length sources ≤ 16 }
    requires no_calls { IfSome (K.written out) (λ t. t ≡ []) }
    requires no_errors { IfSome (K.written err) (λ t. t ≡ []) }
    requires no_trace { IfSome trace (λ k. IfSome (K.written k) (λ t. t ≡ [])) }
    ensures handed { IsHandedOn (option_map K.kept result.trace) result.status }
    ensures ran { let s = sink_of K.written K.faults K.zeros K.name in
        let q = keeper_of Q.kept Q.faults in
        (boot : Entry) → C.entries core ≡ boot ∷ []
        → CoreRan C.Prepare.reads boot (outside_of s q out err trace keep) (map (source_of S.faults S.left S.name) sources) result.status result.journal result.records
        (map (source_of S.faults S.left S.name) result.sources) (outside_of s q result.out result.err result.trace result.keep) }
{
    let bus = Bus::start(alloc, core, out, err, trace, keep);
    let _ = bus.first();
    let Round { bus, sources, told } = go_round(rt, alloc, bus, sources, gate);
    let Rest {
        status,
        journal,
        records,
        calls,
        errors,
        trace,
        keep,
    } = finish(alloc, bus, told);
    CoreRun {
        status,
        journal,
        records,
        sources,
        out: calls,
        err: errors,
        trace,
        keep,
    }
}
