//! What a run needs before it boots: what the store keeps, its sources, and the sink of its trace.
ghost use Rattle.std.specs.Prelude.{◌≡◌, ◌≤◌, ◌++◌, ◌∷◌, [], ◌⊎◌, IfOk, IfErr, IfSome, List, is_none, is_ok, map, option_map, option_to_list};
ghost use Rattle.ha_io.specs.declared.place.Opening.{Opening};
ghost use Rattle.ha_io.specs.Told.{AreAsked};
ghost use Rattle.ha_config.specs.Sound.{AreSoundMoments, IsSoundStore};
ghost use Rattle.ha_config.specs.Words.{Text};
ghost use Rattle.ha_status.specs.Causes.{KeepCause, OpenCause};
ghost use Rattle.bus_turn.specs.States.{sink_of};
ghost use Rattle.ha_worker.specs.Courses.{source_of};
ghost use Rattle.ha_run.specs.Opened.{AreNew, IsOpened};
ghost use Rattle.ha_top.specs.Answered.{IsNamedTrace, IsStored, IsStoreFault, StoreCause};
ghost use Rattle.ha_top.specs.Opening.{IsOpenFault, IsTextRefused, OpensAs, StoppedAmong, StoppedAt, StoppedAtTrace, TraceOpenCause};

use ha_clock::Moment;
use ha_io::{IoFault, Keeper, Place, Source};
use ha_status::Status;
use ha_value::{Many, Word};
use std::alloc::Global;
use store_text::{StoreFault, Stored, read_store};

/// What is taken over from the store: the switches, where there is one, and when automations last triggered, the names of each in byte order.
#[derive(Drop)]
pub(crate) struct Taken {
    pub(crate) switches: Option<Many<(Word, bool)>>,
    pub(crate) last: Many<(Word, Moment)>,
}

/// What a store's text keeps.
fn read_text(alloc: Global, text: &[u8]) -> Result<Taken, Status>
    ensures ok { IfOk result (λ taken. IsStored (Some text.now) taken.switches taken.last) }
    ensures sound { IfOk result (λ taken. IsSoundStore taken.switches) }
    ensures last { IfOk result (λ taken. AreSoundMoments taken.last) }
    ensures fault { IfErr result IsStoreFault }
    ensures refused { IfErr result (IsTextRefused text.now) }
    ensures not_kept { IfErr result (λ status. status ≡ Status.KeepFault → ⊥) }
{
    match read_store(alloc, text) {
        Ok(Stored { switches, last }) => Ok(Taken {
            switches: Some(switches),
            last,
        }),
        Err(StoreFault::Refused(code)) => Err(Status::StoreRefused { code }),
        Err(StoreFault::Memory) => Err(Status::Memory),
    }
}

/// Loads the store and reads it; nothing is taken over where nothing is kept.
pub(crate) fn load_store<Q: Keeper>(alloc: Global, keep: &mut Q) -> Result<Taken, Status>
    ensures ok { IfOk result (λ taken. IfSome (Q.kept keep.old) (λ kept. IsStored kept taken.switches taken.last)) }
    ensures sound { IfOk result (λ taken. IsSoundStore taken.switches) }
    ensures last { IfOk result (λ taken. AreSoundMoments taken.last) }
    ensures fault { IfErr result IsStoreFault }
    ensures refused { IfErr result (StoreCause (Q.kept keep.old)) }
    ensures cause { IfErr result (KeepCause (Q.faults keep.old) (Q.faults keep.new)) }
    ensures keeps { Q.kept keep.new ≡ Q.kept keep.old }
    ensures never_falls { Q.faults keep.old ≤ Q.faults keep.new }
{
    match keep.load(alloc) {
        Ok(Some(text)) => read_text(alloc, text.as_slice()),
        Ok(None) => Ok(Taken {
            switches: None,
            last: Many::make(alloc),
        }),
        Err(IoFault::Failed) => Err(Status::KeepFault),
        Err(IoFault::Memory) => Err(Status::Memory),
    }
}

/// Opens a source of the words.
fn open_source<P: Place>(alloc: Global, place: &mut P, name: &Word) -> Result<P::Source, Status>
    ensures ok { IfOk result (λ source. IsOpened (P.holds place.old) name.now (source_of P.Source.faults P.Source.left P.Source.name source)) }
    ensures asked { AreAsked (is_ok result) (P.asked place.old) ((name.now, Opening.Reading) ∷ []) (P.asked place.new) }
    ensures fault { IfErr result IsOpenFault }
    ensures stopped { IfErr result (StoppedAt (name.now, Opening.Reading) (P.asked place.old) (P.asked place.new)) }
    ensures cause { IfErr result (OpenCause (name.now ∷ []) (P.faults place.old) (P.faults place.new) (P.last place.new)) }
    ensures never_falls { P.faults place.old ≤ P.faults place.new }
    ensures same_files { P.holds place.new ≡ P.holds place.old }
{
    match place.reading(alloc, name.as_str()) {
        Ok(source) => Ok(source),
        Err(IoFault::Failed) => match Word::from_str(alloc, name.as_str()) {
            Ok(name) => Err(Status::OpenFault { name }),
            Err(_) => Err(Status::Memory),
        },
        Err(IoFault::Memory) => Err(Status::Memory),
    }
}

/// The sources that were opened, and why the next one was not, where one is lacking.
#[derive(Drop)]
pub(crate) struct Opened<S: Source> {
    pub(crate) sources: Many<S>,
    pub(crate) fault: Option<Status>,
}

/// Opens the sources of these names, in order, behind those that are open, up to the first that is not opened.
pub(crate) fn open_sources<P: Place>(
    alloc: Global,
    place: &mut P,
    names: &[Word],
    sources: Vec<P::Source>,
) -> Opened<P::Source>
    ensures opens { (before : List Text) → AreNew (P.holds place.old) before (map (source_of P.Source.faults P.Source.left P.Source.name) sources.items)
        → OpensAs (P.holds place.old) (before ++ names.now) (map (source_of P.Source.faults P.Source.left P.Source.name) result.sources) result.fault }
    ensures asked { AreAsked (is_none result.fault) (P.asked place.old) (map (λ name. (name, Opening.Reading)) names.now) (P.asked place.new) }
    ensures stopped { (before : List Text) → AreNew (P.holds place.old) before (map (source_of P.Source.faults P.Source.left P.Source.name) sources.items)
        → IfSome result.fault (StoppedAmong (P.holds place.old) before names.now (map (source_of P.Source.faults P.Source.left P.Source.name) result.sources) (P.asked place.old) (P.asked place.new)) }
    ensures fault { IfSome result.fault IsOpenFault }
    ensures cause { IfSome result.fault (OpenCause names.now (P.faults place.old) (P.faults place.new) (P.last place.new)) }
    ensures never_falls { P.faults place.old ≤ P.faults place.new }
    ensures same_files { P.holds place.new ≡ P.holds place.old }
{
    let [name, later @ ..] = names else {
        return Opened {
            sources: Many::from_vec(sources),
            fault: None,
        };
    };
    let source = match open_source(alloc, place, name) {
        Ok(source) => source,
        Err(status) => {
            return Opened {
                sources: Many::from_vec(sources),
                fault: Some(status),
            };
        }
    };
    let mut sources = sources;
    if sources.push(source).is_err() {
        return Opened {
            sources: Many::from_vec(sources),
            fault: Some(Status::Memory),
        };
    }
    open_sources(alloc, place, later, sources)
}

/// Opens the trace, where there is to be one.
pub(crate) fn open_trace<P: Place>(
    alloc: Global,
    place: &mut P,
    name: &Option<Word>,
) -> Result<Option<P::Sink>, Status>
    ensures empty { IfOk result (λ trace. IfSome trace (λ sink. IfSome (P.Sink.written sink) (λ t. t ≡ []))) }
    ensures asked { AreAsked (is_ok result) (P.asked place.old) (map (λ name. (name, Opening.Writing)) (option_to_list name.now)) (P.asked place.new) }
    ensures named { IfOk result (λ trace. IsNamedTrace name.now (option_map (sink_of P.Sink.written P.Sink.faults P.Sink.zeros P.Sink.name) trace)) }
    ensures fault { IfErr result IsOpenFault }
    ensures stopped { IfErr result (StoppedAtTrace name.now (P.asked place.old) (P.asked place.new)) }
    ensures cause { IfErr result (TraceOpenCause name.now (P.faults place.old) (P.faults place.new) (P.last place.new)) }
    ensures never_falls { P.faults place.old ≤ P.faults place.new }
    ensures same_files { P.holds place.new ≡ P.holds place.old }
{
    let Some(name) = name else {
        return Ok(None);
    };
    match place.writing(alloc, name.as_str()) {
        Ok(sink) => Ok(Some(sink)),
        Err(IoFault::Failed) => match Word::from_str(alloc, name.as_str()) {
            Ok(name) => Err(Status::OpenFault { name }),
            Err(_) => Err(Status::Memory),
        },
        Err(IoFault::Memory) => Err(Status::Memory),
    }
}
