//! The program as a function over its words and the outside.
ghost use Rattle.std.specs.Prelude.{◌≡◌, ◌≤◌, ◌∷◌, [], IfSome, IsUtf8, length, map, option_map};
ghost use Rattle.ha_clock.specs.Local.{last_moment};
ghost use Rattle.bus_turn.specs.States.{keeper_of, sink_of};
ghost use Rattle.ha_worker.specs.Courses.{source_of};
ghost use Rattle.ha_top.specs.Answered.{Answered};
ghost use Rattle.ha_top.specs.Views.{after_run, before_run, place_state};

use crate::files::run_files;
use crate::outcome::Outcome;
use conf_reader::Reader;
use ha_boot::Boots;
use ha_io::{Gate, Keeper, Place};
use ha_status::told;
use ha_words::RunWords;
use std::alloc::Global;
use std::sync::Wait;
use std::thread::Threads;

/// Runs the words: reads the configuration and the store, opens the sources and the trace, boots, puts each line of the sources as it
/// comes, with the steps that it begins, and writes the service calls to `out`, the errors and the status line to `err`, the journal to the
/// trace, and the switches to `keep`. Each source has a worker, in a thread of its own where one can be made. It may wait for a worker's
/// turn.
pub fn run_live<R: Threads + Wait + Sync, E: Boots<Prepare = Reader>, P: Place, Q: Keeper, G: Gate>(
    rt: &R,
    alloc: Global,
    words: &RunWords,
    place: &mut P,
    out: P::Sink,
    err: P::Sink,
    keep: Q,
    gate: &G,
) -> Outcome<P, Q>
    requires some { 1 ≤ length words.now.sources }
    requires few { length words.now.sources ≤ 16 }
    requires in_time { words.now.start ≤ last_moment }
    requires zone_is_text { IsUtf8 words.now.zone }
    requires no_calls { IfSome (P.Sink.written out) (λ t. t ≡ []) }
    requires no_errors { IfSome (P.Sink.written err) (λ t. t ≡ []) }
    requires out_new { (P.Sink.faults out ≡ 0) × (P.Sink.zeros out ≡ 0) }
    requires err_new { (P.Sink.faults err ≡ 0) × (P.Sink.zeros err ≡ 0) }
    requires keep_new { Q.faults keep ≡ 0 }
    ensures { let s = sink_of P.Sink.written P.Sink.faults P.Sink.zeros P.Sink.name in
        let q = keeper_of Q.kept Q.faults in
        Answered words.now (before_run (place_state (P.holds place.old) (P.faults place.old) (P.last place.old) (P.asked place.old)) (s out) (s err) (q keep)) (after_run result.status result.journal result.records (map (source_of P.Source.faults P.Source.left P.Source.name) result.sources) (place_state (P.holds place.new) (P.faults place.new) (P.last place.new) (P.asked place.new)) (s result.out) (s result.err) (option_map s result.trace) (option_map P.Sink.kept result.trace) (q result.keep)) }
{
    let _ = words.zone.text();
    let Outcome {
        status,
        journal,
        records,
        sources,
        out,
        mut err,
        trace,
        keep,
    } = run_files::<R, E, P, Q, G>(rt, alloc, words, place, out, err, keep, gate);
    let status = told(alloc, &mut err, status);
    Outcome {
        status,
        journal,
        records,
        sources,
        out,
        err,
        trace,
        keep,
    }
}
