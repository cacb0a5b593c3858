//! The command `replay`.
ghost use Rattle.std.specs.Prelude.{◌≡◌, ◌≤◌, ◌∷◌, [], IsSome, Some, map, option_to_list};
ghost use Rattle.ha_io.specs.declared.place.Opening.{Opening};
ghost use Rattle.ha_io.specs.Told.{IsAskedSome};
ghost use Rattle.ha_status.specs.Causes.{NeverFall, OneRose, OpenCause, ReadCause, WriteCause};
ghost use Rattle.ha_status.specs.Files.{IsHandedBack};
ghost use Rattle.replay_file.specs.Judged.{AreErrorsTaken, IsTaken};
ghost use Rattle.replay_file.specs.Replays.{IsReplay};

use crate::front::read_front;
use crate::judge::judge;
use conf_reader::Reader;
use ha_boot::Boots;
use ha_io::{IoFault, Place};
use ha_status::{Status, told};
use ha_value::Word;
use std::alloc::Global;

/// The bytes that a trace may have.
const MOST_BYTES: usize = 268_435_456;

/// What was found, before it is told on the error sink.
fn replayed<E: Boots<Prepare = Reader>, P: Place>(
    alloc: Global,
    name: &str,
    place: &mut P,
    out: &mut P::Sink,
    err: &mut P::Sink,
) -> (Status, Option<P::Source>)
    ensures replay { IsReplay (P.holds place.old) name.now (map P.Source.left (option_to_list result.1)) result.0 (λ t. IsTaken result.0 t (P.Sink.written out.old) (P.Sink.written out.new)) (λ t. IsTaken result.0 t (P.Sink.written err.old) (P.Sink.written err.new)) }
    ensures unopened { OpenCause (name.now ∷ []) (P.faults place.old) (P.faults place.new) (P.last place.new) result.0 }
    ensures unread { ReadCause name.now (name.now ∷ []) (map P.Source.faults (option_to_list result.1)) (map P.Source.name (option_to_list result.1)) result.0 }
    ensures unwritten { WriteCause (OneRose (P.Sink.faults out.old) (P.Sink.faults out.new) (P.Sink.faults err.old) (P.Sink.faults err.new)) (OneRose (P.Sink.zeros out.old) (P.Sink.zeros out.new) (P.Sink.zeros err.old) (P.Sink.zeros err.new)) result.0 }
    ensures handed_back { IsHandedBack name.now (map P.Source.name (option_to_list result.1)) result.0 }
    ensures at_end { IsSome (P.holds place.old) → result.0 ≡ Status.Ok → map P.Source.left (option_to_list result.1) ≡ Some [] ∷ [] }
    ensures asked { IsAskedSome (P.asked place.old) ((name.now, Opening.Reading) ∷ []) (P.asked place.new) }
    ensures never_falls { P.faults place.old ≤ P.faults place.new }
    ensures same_files { P.holds place.new ≡ P.holds place.old }
    ensures out_counts { NeverFall (P.Sink.faults out.old) (P.Sink.faults out.new) (P.Sink.zeros out.old) (P.Sink.zeros out.new) }
    ensures err_counts { NeverFall (P.Sink.faults err.old) (P.Sink.faults err.new) (P.Sink.zeros err.old) (P.Sink.zeros err.new) }
    ensures out_name { P.Sink.name out.new ≡ P.Sink.name out.old }
    ensures err_name { P.Sink.name err.new ≡ P.Sink.name err.old }
{
    let mut source = match place.reading(alloc, name) {
        Ok(source) => source,
        Err(IoFault::Failed) => {
            return match Word::from_str(alloc, name) {
                Ok(name) => (Status::OpenFault { name }, None),
                Err(_) => (Status::Memory, None),
            };
        }
        Err(IoFault::Memory) => return (Status::Memory, None),
    };
    match read_front(alloc, &mut source, MOST_BYTES) {
        Ok(front) => (
            judge::<E, _>(alloc, front.text.as_slice(), front.end, out, err),
            Some(source),
        ),
        Err(_) => (Status::Memory, Some(source)),
    }
}

/// `replay`: judges the trace in a file line by line, and writes the lines of its calls to `out` and those of its errors to `err`, and
/// behind them, where it is no trace of a finished lawful run, or something failed, the status line. The source of the file is handed back
/// where it was opened.
pub fn replay_call<E: Boots<Prepare = Reader>, P: Place>(
    alloc: Global,
    name: &str,
    place: &mut P,
    out: &mut P::Sink,
    err: &mut P::Sink,
) -> (Status, Option<P::Source>)
    // The status by the bytes of the file, and the calls and errors of the run that they begin with.
    ensures replay { let faulted = OneRose (P.Sink.faults err.old) (P.Sink.faults err.new) (P.Sink.zeros err.old) (P.Sink.zeros err.new) in
        IsReplay (P.holds place.old) name.now (map P.Source.left (option_to_list result.1)) result.0 (λ t. IsTaken result.0 t (P.Sink.written out.old) (P.Sink.written out.new)) (λ t. AreErrorsTaken faulted result.0 t (P.Sink.written err.old) (P.Sink.written err.new)) }

    // The outside's faults.
    ensures unopened { OpenCause (name.now ∷ []) (P.faults place.old) (P.faults place.new) (P.last place.new) result.0 }
    ensures unread { ReadCause name.now (name.now ∷ []) (map P.Source.faults (option_to_list result.1)) (map P.Source.name (option_to_list result.1)) result.0 }
    ensures unwritten { WriteCause (OneRose (P.Sink.faults out.old) (P.Sink.faults out.new) (P.Sink.faults err.old) (P.Sink.faults err.new)) (OneRose (P.Sink.zeros out.old) (P.Sink.zeros out.new) (P.Sink.zeros err.old) (P.Sink.zeros err.new)) result.0 }

    // The source, the place and the sinks afterwards.
    ensures handed_back { IsHandedBack name.now (map P.Source.name (option_to_list result.1)) result.0 }
    ensures at_end { IsSome (P.holds place.old) → result.0 ≡ Status.Ok → map P.Source.left (option_to_list result.1) ≡ Some [] ∷ [] }
    ensures asked { IsAskedSome (P.asked place.old) ((name.now, Opening.Reading) ∷ []) (P.asked place.new) }
    ensures never_falls { P.faults place.old ≤ P.faults place.new }
    ensures same_files { P.holds place.new ≡ P.holds place.old }
    ensures out_counts { NeverFall (P.Sink.faults out.old) (P.Sink.faults out.new) (P.Sink.zeros out.old) (P.Sink.zeros out.new) }
    ensures err_counts { NeverFall (P.Sink.faults err.old) (P.Sink.faults err.new) (P.Sink.zeros err.old) (P.Sink.zeros err.new) }
    ensures out_name { P.Sink.name out.new ≡ P.Sink.name out.old }
    ensures err_name { P.Sink.name err.new ≡ P.Sink.name err.old }
{
    let (status, source) = replayed::<E, P>(alloc, name, place, out, err);
    (told(alloc, err, status), source)
}
