//! A run before its status line: the configuration, the store, the sources, the trace, the boot, and then the lines.
ghost use Rattle.std.specs.Prelude.{◌≡◌, ◌<◌, ◌≤◌, ◌∷◌, [], None, IfSome, IsSome, IsUtf8, length, map, option_map};
ghost use Rattle.ha_clock.specs.Local.{last_moment};
ghost use Rattle.ha_clock.specs.Zone.{zone_of};
ghost use Rattle.ha_journal.specs.declared.entry.Entry.TheVariants.{Boot};
ghost use Rattle.ha_journal.specs.Entries.{first_carry};
ghost use Rattle.ha_config.specs.Names.{of_automations};
ghost use Rattle.ha_config.specs.Sound.{AreSoundMoments, IsSoundConfig};
ghost use Rattle.bus_turn.specs.States.{keeper_of, outside_of, sink_of};
ghost use Rattle.ha_worker.specs.Courses.{source_of};
ghost use Rattle.ha_run.specs.Core.{IsHandedOn};
ghost use Rattle.ha_top.specs.Answered.{IsAskedFor, StopsAt, opens};
ghost use Rattle.ha_top.specs.Booted.{RanOrNot};
ghost use Rattle.ha_top.specs.Lived.{Lived};
ghost use Rattle.ha_top.specs.Unready.{GivesBack};
ghost use Rattle.ha_top.specs.Views.{after_run, before_run, place_state};

use crate::outcome::Outcome;
use crate::prepare::{Opened, Taken, load_store, open_sources, open_trace};
use conf_reader::Reader;
use ha_boot::Boots;
use ha_check::{Configured, read_config_at};
use ha_config::Config;
use ha_io::{Gate, Keeper, Place, Source};
use ha_run::{CoreRun, run_core};
use ha_status::{Status, Unready};
use ha_value::{Many, Word};
use ha_words::RunWords;
use std::alloc::{AllocError, AllocFailed, Global};
use std::sync::Wait;
use std::thread::Threads;

/// Nothing was booted.
fn unbooted<P: Place, Q: Keeper>(
    alloc: Global,
    status: Status,
    sources: Many<P::Source>,
    out: P::Sink,
    err: P::Sink,
    keep: Q,
) -> Outcome<P, Q>
    ensures status { result.status ≡ status }
    ensures journal { result.journal ≡ [] }
    ensures records { result.records ≡ [] }
    ensures sources { result.sources ≡ sources }
    ensures out { result.out ≡ out }
    ensures err { result.err ≡ err }
    ensures trace { result.trace ≡ None }
    ensures handed { IsHandedOn (option_map P.Sink.kept result.trace) result.status }
    ensures keep { result.keep ≡ keep }
{
    Outcome {
        status,
        journal: Many::make(alloc),
        records: Many::make(alloc),
        sources,
        out,
        err,
        trace: None,
        keep,
    }
}

/// The status and the sources where the configuration was not read: its source is handed back where reading it failed.
fn given_back<S: Source>(alloc: Global, end: Unready<S>) -> (Status, Many<S>)
    ensures { GivesBack end.status end.source result.0 result.1 }
{
    let Unready { status, source } = end;
    let mut sources = Many::make(alloc);
    if let Status::ReadFault { .. } = &status {
        if let Some(source) = source {
            if sources.push(source).is_err() {
                return (Status::Memory, sources);
            }
        }
    }
    (status, sources)
}

/// Boots the core, and runs it on the sources.
fn run_booted<R: Threads + Wait + Sync, E: Boots<Prepare = Reader>, P: Place, Q: Keeper, G: Gate>(
    rt: &R,
    alloc: Global,
    words: &RunWords,
    text: Word,
    config: Config,
    taken: Taken,
    sources: Many<P::Source>,
    out: P::Sink,
    err: P::Sink,
    trace: Option<P::Sink>,
    keep: Q,
    gate: &G,
) -> Outcome<P, Q>
    requires config { IsSoundConfig config }
    requires in_time { words.now.start ≤ last_moment }
    requires zoned { IsSome (zone_of words.now.zone) }
    requires zone_is_text { IsUtf8 words.now.zone }
    requires some { 0 < length sources }
    requires few { length sources ≤ 16 }
    requires last { AreSoundMoments taken.last }
    requires no_calls { IfSome (P.Sink.written out) (λ t. t ≡ []) }
    requires no_errors { IfSome (P.Sink.written err) (λ t. t ≡ []) }
    requires no_trace { IfSome trace (λ sink. IfSome (P.Sink.written sink) (λ t. t ≡ [])) }
    ensures handed { IsHandedOn (option_map P.Sink.kept result.trace) result.status }
    ensures ran { let s = sink_of P.Sink.written P.Sink.faults P.Sink.zeros P.Sink.name in
        let q = keeper_of Q.kept Q.faults in
        RanOrNot (Boot text config taken.switches words.now.start words.now.zone (first_carry (of_automations config.automations taken.last))) (outside_of s q out err trace keep) (map (source_of P.Source.faults P.Source.left P.Source.name) sources)
        result.status result.journal result.records (map (source_of P.Source.faults P.Source.left P.Source.name) result.sources) (outside_of s q result.out result.err result.trace result.keep) }
{
    let Ok(zone) = Word::from_bytes(alloc, words.zone.text()) else {
        return unbooted(alloc, Status::Memory, sources, out, err, keep);
    };
    let Taken { switches, last } = taken;
    let Ok(core) = E::boot(
        alloc,
        text,
        config,
        switches,
        words.start,
        zone,
        last,
        Reader,
    ) else {
        return unbooted(alloc, Status::Memory, sources, out, err, keep);
    };
    let CoreRun {
        status,
        journal,
        records,
        sources,
        out,
        err,
        trace,
        keep,
    } = run_core(rt, alloc, core, sources, out, err, trace, keep, gate);
    Outcome {
        status,
        journal,
        records,
        sources,
        out,
        err,
        trace,
        keep,
    }
}

/// Reads the configuration and the store, opens the sources and the trace, boots, and runs, before the status line.
pub(crate) fn run_files<
    R: Threads + Wait + Sync,
    E: Boots<Prepare = Reader>,
    P: Place,
    Q: Keeper,
    G: Gate,
>(
    rt: &R,
    alloc: Global,
    words: &RunWords,
    place: &mut P,
    out: P::Sink,
    err: P::Sink,
    keep: Q,
    gate: &G,
) -> Outcome<P, Q>
    requires some { 1 ≤ length words.now.sources }
    requires few { length words.now.sources ≤ 16 }
    requires in_time { words.now.start ≤ last_moment }
    requires zoned { IsSome (zone_of words.now.zone) }
    requires zone_is_text { IsUtf8 words.now.zone }
    requires no_calls { IfSome (P.Sink.written out) (λ t. t ≡ []) }
    requires no_errors { IfSome (P.Sink.written err) (λ t. t ≡ []) }
    requires out_new { (P.Sink.faults out ≡ 0) × (P.Sink.zeros out ≡ 0) }
    requires err_new { (P.Sink.faults err ≡ 0) × (P.Sink.zeros err ≡ 0) }
    requires keep_new { Q.faults keep ≡ 0 }
    ensures lived { let s = sink_of P.Sink.written P.Sink.faults P.Sink.zeros P.Sink.name in
        let q = keeper_of Q.kept Q.faults in
        Lived words.now (before_run (place_state (P.holds place.old) (P.faults place.old) (P.last place.old) (P.asked place.old)) (s out) (s err) (q keep)) (after_run result.status result.journal result.records (map (source_of P.Source.faults P.Source.left P.Source.name) result.sources) (place_state (P.holds place.new) (P.faults place.new) (P.last place.new) (P.asked place.new)) (s result.out) (s result.err) (option_map s result.trace) (option_map P.Sink.kept result.trace) (q result.keep)) }
    ensures asked { IsAskedFor (opens words.now) result.journal (P.asked place.old) (P.asked place.new) }
    ensures stops { StopsAt words.now (P.holds place.old) result.journal (map (source_of P.Source.faults P.Source.left P.Source.name) result.sources) (P.asked place.old) (P.asked place.new) result.status }
    ensures handed { IsHandedOn (option_map P.Sink.kept result.trace) result.status }
{
    let mut keep = keep;
    let (text, config) = match read_config_at(alloc, place, words.config.as_str()) {
        Ok(made) => {
            let Configured {
                text,
                config,
                source: _,
            } = made;
            (text, config)
        }
        Err(end) => {
            let (status, sources) = given_back(alloc, end);
            return unbooted(alloc, status, sources, out, err, keep);
        }
    };
    let taken = match load_store(alloc, &mut keep) {
        Ok(taken) => taken,
        Err(status) => return unbooted(alloc, status, Many::make(alloc), out, err, keep),
    };
    let Opened { sources, fault } = open_sources(
        alloc,
        place,
        words.sources.as_slice(),
        Vec::new(alloc),
    );
    if let Some(status) = fault {
        return unbooted(alloc, status, sources, out, err, keep);
    }
    let trace = match open_trace(alloc, place, &words.trace) {
        Ok(trace) => trace,
        Err(status) => return unbooted(alloc, status, sources, out, err, keep),
    };
    run_booted::<R, E, P, Q, G>(
        rt, alloc, words, text, config, taken, sources, out, err, trace, keep, gate,
    )
}
