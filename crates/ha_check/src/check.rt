//! The command `check`.
ghost use Rattle.std.specs.Prelude.{◌≡◌, ◌≤◌, ◌∷◌, [], IfSome, IsSome, Some, map, option_to_list};
ghost use Rattle.ha_io.specs.declared.place.Opening.{Opening};
ghost use Rattle.ha_io.specs.Counts.{Rose};
ghost use Rattle.ha_io.specs.Told.{IsAskedSome};
ghost use Rattle.ha_status.specs.Causes.{NeverFall, OneRose, OpenCause, ReadCause, WriteCause};
ghost use Rattle.ha_status.specs.Files.{IsHandedBack};
ghost use Rattle.ha_status.specs.Written.{IsWritten, TookLine};
ghost use Rattle.ha_config.specs.CheckText.{check_text};
ghost use Rattle.ha_check.specs.Checked.{IsAnswerOf, IsCheckStatus, IsOutput, IsShown};
ghost use Rattle.ha_check.specs.Configured.{RefusedCause};

use crate::configured::{Configured, read_config_at};
use crate::lines::check_text;
use ha_config::Config;
use ha_io::{Place, Sink, Unwritten, write_whole};
use ha_status::{Status, Unready, told};
use std::alloc::Global;

/// Writes what was read.
fn show<K: Sink>(alloc: Global, config: &Config, out: &mut K) -> Status
    ensures shown { IsShown result }
    ensures written { IsWritten result (check_text config.now) (K.written out.old) (K.written out.new) }
    ensures cause { WriteCause (Rose (K.faults out.old) (K.faults out.new)) (Rose (K.zeros out.old) (K.zeros out.new)) result }
    ensures counts { NeverFall (K.faults out.old) (K.faults out.new) (K.zeros out.old) (K.zeros out.new) }
    ensures same_name { K.name out.new ≡ K.name out.old }
{
    let Ok(text) = check_text(alloc, config) else {
        return Status::Memory;
    };
    match write_whole(out, text.as_slice()) {
        Ok(()) => Status::Ok,
        Err(Unwritten::Failed) => Status::WriteFault { zero: false },
        Err(Unwritten::Zero) => Status::WriteFault { zero: true },
        Err(Unwritten::Memory) => Status::Memory,
    }
}

/// What was found, before it is told on the error sink.
fn checked<P: Place>(
    alloc: Global,
    name: &str,
    place: &mut P,
    out: &mut P::Sink,
) -> (Status, Option<P::Source>)
    ensures answer { IsCheckStatus name.now result.0 }
    ensures of_file { IfSome (P.holds place.old) (λ f. IsAnswerOf (f name.now) result.0) }
    ensures refused { RefusedCause (P.holds place.old) name.now result.0 }
    ensures output { IsOutput (P.holds place.old) name.now result.0 (P.Sink.written out.old) (P.Sink.written out.new) }
    ensures unopened { OpenCause (name.now ∷ []) (P.faults place.old) (P.faults place.new) (P.last place.new) result.0 }
    ensures unread { ReadCause name.now [] (map P.Source.faults (option_to_list result.1)) (map P.Source.name (option_to_list result.1)) result.0 }
    ensures unwritten { WriteCause (Rose (P.Sink.faults out.old) (P.Sink.faults out.new)) (Rose (P.Sink.zeros out.old) (P.Sink.zeros out.new)) result.0 }
    ensures handed_back { IsHandedBack name.now (map P.Source.name (option_to_list result.1)) result.0 }
    ensures at_end { IsSome (P.holds place.old) → result.0 ≡ Status.Ok → map P.Source.left (option_to_list result.1) ≡ Some [] ∷ [] }
    ensures counts { NeverFall (P.Sink.faults out.old) (P.Sink.faults out.new) (P.Sink.zeros out.old) (P.Sink.zeros out.new) }
    ensures same_name { P.Sink.name out.new ≡ P.Sink.name out.old }
    ensures asked { IsAskedSome (P.asked place.old) ((name.now, Opening.Reading) ∷ []) (P.asked place.new) }
    ensures never_falls { P.faults place.old ≤ P.faults place.new }
    ensures same_files { P.holds place.new ≡ P.holds place.old }
{
    match read_config_at(alloc, place, name) {
        Ok(
            Configured {
                text: _,
                config,
                source,
            },
        ) => (show(alloc, &config, out), Some(source)),
        Err(Unready { status, source }) => (status, source),
    }
}

/// `check`: reads the configuration of a file, and writes a line for each automation and their count to `out`, and where it is refused,
/// or something failed, the status line to `err`. The source of the file is handed back where it was opened.
pub fn check_call<P: Place>(
    alloc: Global,
    name: &str,
    place: &mut P,
    out: &mut P::Sink,
    err: &mut P::Sink,
) -> (Status, Option<P::Source>)
    // The status, by the bytes of the file: which answers come, and where.
    ensures answer { IsCheckStatus name.now result.0 }
    ensures of_file { IfSome (P.holds place.old) (λ f. IsAnswerOf (f name.now) result.0) }
    ensures refused { RefusedCause (P.holds place.old) name.now result.0 }

    // The configuration's lines and the status line that were written.
    ensures output { IsOutput (P.holds place.old) name.now result.0 (P.Sink.written out.old) (P.Sink.written out.new) }
    ensures line { TookLine (OneRose (P.Sink.faults err.old) (P.Sink.faults err.new) (P.Sink.zeros err.old) (P.Sink.zeros err.new)) result.0 (P.Sink.written err.old) (P.Sink.written err.new) }

    // The outside's faults.
    ensures unopened { OpenCause (name.now ∷ []) (P.faults place.old) (P.faults place.new) (P.last place.new) result.0 }
    ensures unread { ReadCause name.now [] (map P.Source.faults (option_to_list result.1)) (map P.Source.name (option_to_list result.1)) result.0 }
    ensures unwritten { WriteCause (Rose (P.Sink.faults out.old) (P.Sink.faults out.new)) (Rose (P.Sink.zeros out.old) (P.Sink.zeros out.new)) result.0 }

    // The source, the place and the sinks afterwards.
    ensures handed_back { IsHandedBack name.now (map P.Source.name (option_to_list result.1)) result.0 }
    ensures at_end { IsSome (P.holds place.old) → result.0 ≡ Status.Ok → map P.Source.left (option_to_list result.1) ≡ Some [] ∷ [] }
    ensures asked { IsAskedSome (P.asked place.old) ((name.now, Opening.Reading) ∷ []) (P.asked place.new) }
    ensures never_falls { P.faults place.old ≤ P.faults place.new }
    ensures same_files { P.holds place.new ≡ P.holds place.old }
    ensures out_counts { NeverFall (P.Sink.faults out.old) (P.Sink.faults out.new) (P.Sink.zeros out.old) (P.Sink.zeros out.new) }
    ensures err_counts { NeverFall (P.Sink.faults err.old) (P.Sink.faults err.new) (P.Sink.zeros err.old) (P.Sink.zeros err.new) }
    ensures out_name { P.Sink.name out.new ≡ P.Sink.name out.old }
    ensures err_name { P.Sink.name err.new ≡ P.Sink.name err.old }
{
    let (status, source) = checked(alloc, name, place, out);
    (told(alloc, err, status), source)
}
