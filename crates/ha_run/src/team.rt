//! The workers of a run: one for each source, each in a thread of its own.
ghost use Rattle.std.specs.Prelude.{◌≡◌, ℕ, ◌∷◌, ◌++◌, ◌<◌, ◌≤◌, [], All, None, Some, length, map, true, vec_capacity, vec_len};
ghost use Rattle.crossbeam_channel.specs.Claims.{view};
ghost use Rattle.bus_pass.specs.declared.hand.Origin.{Origin as Lasting};
ghost use Rattle.bus_pass.specs.Rule.{parent};
ghost use Rattle.bus_pass.specs.Turns.{IsPassOf};
ghost use Rattle.ha_run.specs.Opened.{source_of};
ghost use Rattle.ha_run.specs.Team.{AreDone, AreReady, IsAble, IsLater, IsLead, IsReady, Works, joined, seat_of};

use bus_pass::{Pass, Turn};
use ha_io::{Gate, Keeper, Sink, Source};
use ha_value::Many;
use ha_whole::Core;
use ha_worker::Worker;
use std::alloc::Global;
use std::sync::Wait;
use std::thread;
use std::thread::Threads;

/// Takes the first item.
fn take_first<T: Drop>(list: &mut Many<T>) -> T
    requires { 0 < length list.old }
    ensures { list.old ≡ result ∷ list.new }
{
    list.remove(0)
}

/// A worker of a source, with a pass of its own.
fn worker_of<S: Source, C: Core + Drop, K: Sink, Q: Keeper>(
    turn: &Turn<C, K, Q>,
    pass: &mut Pass<C, K, Q>,
    source: S,
    id: u32,
) -> Worker<S, C, K, Q>
    requires turn { IsPassOf turn.now pass.old }
    requires first { (view pass.old).first ≡ true }
    requires next { id ≡ (view pass.old).made }
    ensures turn { IsPassOf turn.now pass.new × IsPassOf turn.now result.pass }
    ensures parent { view pass.new ≡ parent (view pass.old) }
    ensures ready { IsReady id (source_of S.faults S.left S.name source) (seat_of (source_of S.faults S.left S.name) result) }
{
    let own = turn.split(pass, id);
    Worker {
        source,
        id,
        next: 0,
        pass: own,
        end: None,
    }
}

/// A worker for each source, in order.
pub(crate) fn hire<S: Source, C: Core + Drop, K: Sink, Q: Keeper>(
    turn: &Turn<C, K, Q>,
    pass: &mut Pass<C, K, Q>,
    sources: Many<S>,
    empty: Vec<Worker<S, C, K, Q>>,
) -> Many<Worker<S, C, K, Q>>
    requires turn { IsPassOf turn.now pass.old }
    requires first { (view pass.old).first ≡ true }
    requires none { (view pass.old).made ≡ 0 }
    requires few { length sources ≤ 16 }
    requires empty { empty.items ≡ [] }
    requires room { length sources ≤ vec_capacity empty }
    ensures turn { IsPassOf turn.now pass.new }
    ensures lead { (origin : Lasting) → IsLead 0 origin (view pass.old) → IsLead (length sources) origin (view pass.new) }
    ensures passes { All (λ w. IsPassOf turn.now w.pass) result }
    ensures ready { AreReady 0 (map (source_of S.faults S.left S.name) sources) (map (seat_of (source_of S.faults S.left S.name)) result) }
{
    let mut sources = sources;
    let mut workers = empty;
    'sources: while !sources.is_empty() {
        let source = take_first(&mut sources);
        let id = workers.len() as u32;
        let worker = worker_of(turn, pass, source, id);
        workers.push_reserved(worker);
    }
    Many::from_vec(workers)
}

/// Lets a worker work, and keeps how it ended.
fn work_one<W: Wait, S: Source, C: Core + Drop, K: Sink, Q: Keeper, G: Gate>(
    rt: &W,
    alloc: Global,
    turn: &Turn<C, K, Q>,
    gate: &G,
    worker: &mut Worker<S, C, K, Q>,
)
    requires { IsPassOf turn.now worker.old.pass × IsAble (seat_of (source_of S.faults S.left S.name) worker.old) }
    ensures { IsPassOf turn.now worker.new.pass × Works C.Prepare.reads (seat_of (source_of S.faults S.left S.name) worker.old) (seat_of (source_of S.faults S.left S.name) worker.new) }
{
    let end = worker.work(rt, alloc, turn, gate);
    worker.end = Some(end);
}

/// Lets all workers work, each in a thread of its own where one can be made, until all have ended.
pub(crate) fn work_all<
    R: Threads + Wait + Sync,
    S: Source,
    C: Core + Drop + Send,
    K: Sink,
    Q: Keeper,
    G: Gate,
>(rt: &R, alloc: Global, turn: &Turn<C, K, Q>, gate: &G, workers: &mut [Worker<S, C, K, Q>])
    requires passes { All (λ w. IsPassOf turn.now w.pass) workers.old }
    requires able { All (λ w. IsAble (seat_of (source_of S.faults S.left S.name) w)) workers.old }
    ensures len { length workers.new ≡ length workers.old }
    ensures passes { All (λ w. IsPassOf turn.now w.pass) workers.new }
    ensures done { (before : _) → AreReady 0 before (map (seat_of (source_of S.faults S.left S.name)) workers.old) → AreDone C.Prepare.reads 0 before (map (seat_of (source_of S.faults S.left S.name)) workers.new) }
{
    let threads = workers.len().max(1);
    thread::for_each_mut(
        rt,
        workers,
        threads,
        &|_place: usize, worker: &mut Worker<S, C, K, Q>|
            requires { IsPassOf turn.now worker.old.pass × IsAble (seat_of (source_of S.faults S.left S.name) worker.old) }
            ensures { IsPassOf turn.entry.now worker.new.pass × Works C.Prepare.reads (seat_of (source_of S.faults S.left S.name) worker.old) (seat_of (source_of S.faults S.left S.name) worker.new) }
        { work_one(rt, alloc, turn, gate, worker) },
    );
}

/// Takes what the workers' passes know into the first one, and gives their sources back.
pub(crate) fn gather<S: Source, C: Core + Drop, K: Sink, Q: Keeper>(
    turn: &Turn<C, K, Q>,
    pass: &mut Pass<C, K, Q>,
    workers: Many<Worker<S, C, K, Q>>,
    empty: Vec<S>,
) -> Many<S>
    requires turn { IsPassOf turn.now pass.old }
    requires idle { (view pass.old).taken ≡ None }
    requires passes { All (λ w. IsPassOf turn.now w.pass) workers }
    requires later { All (λ w. IsLater (view w.pass)) workers }
    requires empty { empty.items ≡ [] }
    requires room { length workers ≤ vec_capacity empty }
    ensures turn { IsPassOf turn.now pass.new }
    ensures view { view pass.new ≡ joined (view pass.old) (map (seat_of (source_of S.faults S.left S.name)) workers) }
    ensures sources { result ≡ map (λ w. w.source) workers }
{
    let mut workers = workers;
    let mut sources = empty;
    'workers: while !workers.is_empty() {
        let Worker {
            source,
            id: _,
            next: _,
            pass: own,
            end: _,
        } = take_first(&mut workers);
        turn.join(pass, own);
        sources.push_reserved(source);
    }
    Many::from_vec(sources)
}
