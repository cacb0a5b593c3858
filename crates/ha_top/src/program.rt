//! The program: what its words ask for.
ghost use Rattle.std.specs.Prelude.{◌≡◌, ◌<◌, ◌≤◌, ◌⊎◌, [], IfSome, None, map, option_map, option_to_list, string_bytes, vec_capacity, vec_len};
ghost use Rattle.bus_turn.specs.Growth.{SinkGrows};
ghost use Rattle.bus_turn.specs.States.{keeper_of, sink_of};
ghost use Rattle.ha_worker.specs.Courses.{source_of};
ghost use Rattle.ha_io.specs.Counts.{Rose};
ghost use Rattle.ha_status.specs.Causes.{NeverFall, OneRose, WriteCause};
ghost use Rattle.ha_status.specs.Written.{TookLine};
ghost use Rattle.ha_words.specs.PlanOf.{plan_of};
ghost use Rattle.ha_rehearse.specs.Rehearsed.{IsCounted, IsRehearseStatus};
ghost use Rattle.ha_top.specs.Program.{AnsweredBy, Checked, Replayed};
ghost use Rattle.ha_top.specs.Written.{AreTheSame};
ghost use Rattle.ha_top.specs.Views.{after_run, before_run, place_state};

use crate::outcome::Outcome;
use crate::top::run_live;
use conf_reader::Reader;
use ha_boot::Boots;
use ha_check::check_call;
use ha_io::{Gate, Keeper, Place, Source};
use ha_rehearse::rehearse_call;
use ha_status::{Status, told};
use ha_value::{Many, Word};
use ha_words::{Plan, WordsFault, read_words};
use replay_file::replay_call;
use std::alloc::Global;
use std::sync::Wait;
use std::thread::Threads;

/// Ends with this status, and nothing else.
fn ended<P: Place, Q: Keeper>(
    alloc: Global,
    status: Status,
    out: P::Sink,
    err: P::Sink,
    keep: Q,
) -> Outcome<P, Q>
    ensures status { (result.status ≡ status) ⊎ (result.status ≡ Status.Memory) }
    ensures journal { result.journal ≡ [] }
    ensures records { result.records ≡ [] }
    ensures sources { result.sources ≡ [] }
    ensures out { result.out ≡ out }
    ensures trace { result.trace ≡ None }
    ensures keep { result.keep ≡ keep }
    ensures line { TookLine (OneRose (P.Sink.faults err) (P.Sink.faults result.err) (P.Sink.zeros err) (P.Sink.zeros result.err)) result.status (P.Sink.written err) (P.Sink.written result.err) }
    ensures counts { NeverFall (P.Sink.faults err) (P.Sink.faults result.err) (P.Sink.zeros err) (P.Sink.zeros result.err) }
    ensures same_name { P.Sink.name result.err ≡ P.Sink.name err }
    ensures same_err { SinkGrows (sink_of P.Sink.written P.Sink.faults P.Sink.zeros P.Sink.name err) (sink_of P.Sink.written P.Sink.faults P.Sink.zeros P.Sink.name result.err) }
{
    let mut err = err;
    let status = told(alloc, &mut err, status);
    Outcome {
        status,
        journal: Many::make(alloc),
        records: Many::make(alloc),
        sources: Many::make(alloc),
        out,
        err,
        trace: None,
        keep,
    }
}

/// The list of a source that may be there.
fn listed<S: Source>(mut sources: Vec<S>, source: Option<S>) -> Many<S>
    requires room { vec_len sources < vec_capacity sources }
    requires fresh { sources.items ≡ [] }
    ensures { result ≡ option_to_list source }
{
    if let Some(source) = source {
        sources.push_reserved(source);
    }
    Many::from_vec(sources)
}

/// `check` of the file of this name.
fn check<P: Place, Q: Keeper>(
    alloc: Global,
    name: &Word,
    place: &mut P,
    out: P::Sink,
    err: P::Sink,
    keep: Q,
) -> Outcome<P, Q>
    ensures same_keep { result.keep ≡ keep }
    ensures same_out { SinkGrows (sink_of P.Sink.written P.Sink.faults P.Sink.zeros P.Sink.name out) (sink_of P.Sink.written P.Sink.faults P.Sink.zeros P.Sink.name result.out) }
    ensures same_err { SinkGrows (sink_of P.Sink.written P.Sink.faults P.Sink.zeros P.Sink.name err) (sink_of P.Sink.written P.Sink.faults P.Sink.zeros P.Sink.name result.err) }
    ensures answers { let s = sink_of P.Sink.written P.Sink.faults P.Sink.zeros P.Sink.name in
        let q = keeper_of Q.kept Q.faults in
        Checked name.now (before_run (place_state (P.holds place.old) (P.faults place.old) (P.last place.old) (P.asked place.old)) (s out) (s err) (q keep)) (after_run result.status result.journal result.records (map (source_of P.Source.faults P.Source.left P.Source.name) result.sources) (place_state (P.holds place.new) (P.faults place.new) (P.last place.new) (P.asked place.new)) (s result.out) (s result.err) (option_map s result.trace) (option_map P.Sink.kept result.trace) (q result.keep)) }
{
    let Ok(sources) = Vec::with_capacity(alloc, 1) else {
        return ended(alloc, Status::Memory, out, err, keep);
    };
    let mut out = out;
    let mut err = err;
    let (status, source) = check_call(alloc, name.as_str(), place, &mut out, &mut err);
    Outcome {
        status,
        journal: Many::make(alloc),
        records: Many::make(alloc),
        sources: listed(sources, source),
        out,
        err,
        trace: None,
        keep,
    }
}

/// `replay` of the trace in the file of this name.
fn replay<E: Boots<Prepare = Reader>, P: Place, Q: Keeper>(
    alloc: Global,
    name: &Word,
    place: &mut P,
    out: P::Sink,
    err: P::Sink,
    keep: Q,
) -> Outcome<P, Q>
    ensures same_keep { result.keep ≡ keep }
    ensures same_out { SinkGrows (sink_of P.Sink.written P.Sink.faults P.Sink.zeros P.Sink.name out) (sink_of P.Sink.written P.Sink.faults P.Sink.zeros P.Sink.name result.out) }
    ensures same_err { SinkGrows (sink_of P.Sink.written P.Sink.faults P.Sink.zeros P.Sink.name err) (sink_of P.Sink.written P.Sink.faults P.Sink.zeros P.Sink.name result.err) }
    ensures answers { let s = sink_of P.Sink.written P.Sink.faults P.Sink.zeros P.Sink.name in
        let q = keeper_of Q.kept Q.faults in
        Replayed name.now (before_run (place_state (P.holds place.old) (P.faults place.old) (P.last place.old) (P.asked place.old)) (s out) (s err) (q keep)) (after_run result.status result.journal result.records (map (source_of P.Source.faults P.Source.left P.Source.name) result.sources) (place_state (P.holds place.new) (P.faults place.new) (P.last place.new) (P.asked place.new)) (s result.out) (s result.err) (option_map s result.trace) (option_map P.Sink.kept result.trace) (q result.keep)) }
{
    let Ok(sources) = Vec::with_capacity(alloc, 1) else {
        return ended(alloc, Status::Memory, out, err, keep);
    };
    let mut out = out;
    let mut err = err;
    let (status, source) = replay_call::<E, P>(alloc, name.as_str(), place, &mut out, &mut err);
    Outcome {
        status,
        journal: Many::make(alloc),
        records: Many::make(alloc),
        sources: listed(sources, source),
        out,
        err,
        trace: None,
        keep,
    }
}

/// `rehearse` of so many lines.
fn rehearse<E: Boots<Prepare = Reader>, P: Place, Q: Keeper>(
    alloc: Global,
    lines: u32,
    out: P::Sink,
    err: P::Sink,
    keep: Q,
) -> Outcome<P, Q>
    requires few { lines ≤ 100_000 }
    ensures same_out { SinkGrows (sink_of P.Sink.written P.Sink.faults P.Sink.zeros P.Sink.name out) (sink_of P.Sink.written P.Sink.faults P.Sink.zeros P.Sink.name result.out) }
    ensures same_err { SinkGrows (sink_of P.Sink.written P.Sink.faults P.Sink.zeros P.Sink.name err) (sink_of P.Sink.written P.Sink.faults P.Sink.zeros P.Sink.name result.err) }
    ensures answer { IsRehearseStatus lines result.status }
    ensures unwritten { WriteCause (Rose (P.Sink.faults out) (P.Sink.faults result.out)) (Rose (P.Sink.zeros out) (P.Sink.zeros result.out)) result.status }
    ensures output { IsCounted lines result.status (P.Sink.written out) (P.Sink.written result.out) }
    ensures line { TookLine (OneRose (P.Sink.faults err) (P.Sink.faults result.err) (P.Sink.zeros err) (P.Sink.zeros result.err)) result.status (P.Sink.written err) (P.Sink.written result.err) }
    ensures journal { result.journal ≡ [] }
    ensures records { result.records ≡ [] }
    ensures sources { result.sources ≡ [] }
    ensures trace { result.trace ≡ None }
    ensures keep { result.keep ≡ keep }
{
    let mut out = out;
    let mut err = err;
    let status = rehearse_call::<E, P::Sink>(alloc, lines, &mut out, &mut err);
    Outcome {
        status,
        journal: Many::make(alloc),
        records: Many::make(alloc),
        sources: Many::make(alloc),
        out,
        err,
        trace: None,
        keep,
    }
}

/// The program: what its words ask for, on the outside that it is handed. A run may wait for a worker's turn.
pub fn hearth<R: Threads + Wait + Sync, E: Boots<Prepare = Reader>, P: Place, Q: Keeper, G: Gate>(
    rt: &R,
    alloc: Global,
    words: &[String],
    place: &mut P,
    out: P::Sink,
    err: P::Sink,
    keep: Q,
    gate: &G,
) -> Outcome<P, Q>
    requires no_calls { IfSome (P.Sink.written out) (λ t. t ≡ []) }
    requires no_errors { IfSome (P.Sink.written err) (λ t. t ≡ []) }
    requires out_new { (P.Sink.faults out ≡ 0) × (P.Sink.zeros out ≡ 0) }
    requires err_new { (P.Sink.faults err ≡ 0) × (P.Sink.zeros err ≡ 0) }
    requires keep_new { Q.faults keep ≡ 0 }
    // The sinks and the keeper are those that were handed in, whatever the words ask for.
    ensures same { let s = sink_of P.Sink.written P.Sink.faults P.Sink.zeros P.Sink.name in
        let q = keeper_of Q.kept Q.faults in
        AreTheSame (before_run (place_state (P.holds place.old) (P.faults place.old) (P.last place.old) (P.asked place.old)) (s out) (s err) (q keep)) (after_run result.status result.journal result.records (map (source_of P.Source.faults P.Source.left P.Source.name) result.sources) (place_state (P.holds place.new) (P.faults place.new) (P.last place.new) (P.asked place.new)) (s result.out) (s result.err) (option_map s result.trace) (option_map P.Sink.kept result.trace) (q result.keep)) }
    ensures answers { let s = sink_of P.Sink.written P.Sink.faults P.Sink.zeros P.Sink.name in
        let q = keeper_of Q.kept Q.faults in
        AnsweredBy (plan_of (map string_bytes words.now)) (before_run (place_state (P.holds place.old) (P.faults place.old) (P.last place.old) (P.asked place.old)) (s out) (s err) (q keep)) (after_run result.status result.journal result.records (map (source_of P.Source.faults P.Source.left P.Source.name) result.sources) (place_state (P.holds place.new) (P.faults place.new) (P.last place.new) (P.asked place.new)) (s result.out) (s result.err) (option_map s result.trace) (option_map P.Sink.kept result.trace) (q result.keep)) }
{
    match read_words(alloc, words) {
        Ok(Plan::Run(words)) => run_live::<R, E, P, Q, G>(
            rt, alloc, &words, place, out, err, keep, gate,
        ),
        Ok(Plan::Check(name)) => check(alloc, &name, place, out, err, keep),
        Ok(Plan::Replay(name)) => replay::<E, P, Q>(alloc, &name, place, out, err, keep),
        Ok(Plan::Rehearse(lines)) => rehearse::<E, P, Q>(alloc, lines, out, err, keep),
        Err(WordsFault::Usage) => ended(alloc, Status::Usage, out, err, keep),
        Err(WordsFault::Memory) => ended(alloc, Status::Memory, out, err, keep),
    }
}
