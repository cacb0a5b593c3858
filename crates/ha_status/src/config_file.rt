//! The file of a configuration, opened and read whole.
ghost use Rattle.std.specs.Prelude.{◌≡◌, ◌≤◌, ◌∷◌, [], ◌⊎◌, IfOk, IfErr, IfSome, IsSome, is_ok, length, map, option_to_list, Some};
ghost use Rattle.std.specs.Io.KnownBytes.{IsAtEnd};
ghost use Rattle.ha_io.specs.declared.place.Opening.{Opening};
ghost use Rattle.ha_io.specs.Told.{AreAsked, HasFile};
ghost use Rattle.ha_status.specs.Causes.{OpenCause, ReadCause};
ghost use Rattle.ha_status.specs.Files.{AskedAt, HoldsText, IsAlone, IsHandedBack, IsTextFault, LongCause, ThereCause, most_config_bytes};

use crate::status::Status;
use ha_io::{IoFault, Place, Source, Unread, read_whole};
use ha_value::Word;
use std::alloc::Global;

/// The bytes that a configuration may have.
const MOST_CONFIG_BYTES: usize = 1_048_576;

/// A file that was read whole, and the source that it was read from.
#[derive(Drop)]
pub struct FileText<S: Source> {
    /// All bytes of the file.
    pub text: Vec<u8>,
    pub source: S,
}

/// Why a command ended before it began, and the source of its file, where it was opened.
#[derive(Drop)]
pub struct Unready<S: Source> {
    pub status: Status,
    pub source: Option<S>,
}

/// Opens and reads the file of a configuration. The source is handed back wherever it was opened.
pub fn read_config_file<P: Place>(
    alloc: Global,
    place: &mut P,
    name: &str,
) -> Result<FileText<P::Source>, Unready<P::Source>>
    ensures text { IfOk result (λ made. HoldsText (P.holds place.old) name.now made.text.items) }
    ensures within { IfOk result (λ made. length made.text.items ≤ most_config_bytes) }
    ensures named { IfOk result (λ made. IfSome (P.Source.name made.source) (λ told. told ≡ name.now)) }
    ensures tells_name { IsSome (P.holds place.old) → IfOk result (λ made. P.Source.name made.source ≡ Some name.now) }
    ensures at_end { IsSome (P.holds place.old) → IfOk result (λ made. P.Source.left made.source ≡ Some []) }

    // Where it was not read: which answers come, each with its cause.
    ensures fault { IfErr result (λ end. IsTextFault name.now end.status) }
    ensures unopened { IfErr result (λ end. OpenCause (name.now ∷ []) (P.faults place.old) (P.faults place.new) (P.last place.new) end.status) }
    ensures unread { IfErr result (λ end. ReadCause name.now [] (map P.Source.faults (option_to_list end.source)) (map P.Source.name (option_to_list end.source)) end.status) }
    ensures long { IfErr result (λ end. LongCause (P.holds place.old) name.now end.status) }
    ensures there { IfErr result (λ end. ThereCause (P.holds place.old) name.now end.status) }
    ensures handed_back { IfErr result (λ end. IsHandedBack name.now (map P.Source.name (option_to_list end.source)) end.status) }

    ensures asked_once { IfErr result (λ end. AskedAt (name.now, Opening.Reading) (P.asked place.old) (P.asked place.new) end.status) }
    ensures asked { AreAsked (is_ok result) (P.asked place.old) ((name.now, Opening.Reading) ∷ []) (P.asked place.new) }
    ensures never_falls { P.faults place.old ≤ P.faults place.new }
    ensures same_files { P.holds place.new ≡ P.holds place.old }
{
    let mut source = match place.reading(alloc, name) {
        Ok(source) => source,
        Err(IoFault::Failed) => {
            return match Word::from_str(alloc, name) {
                Ok(name) => Err(Unready {
                    status: Status::OpenFault { name },
                    source: None,
                }),
                Err(_) => Err(Unready {
                    status: Status::Memory,
                    source: None,
                }),
            };
        }
        Err(IoFault::Memory) => return Err(Unready {
            status: Status::Memory,
            source: None,
        }),
    };
    match read_whole(alloc, &mut source, MOST_CONFIG_BYTES) {
        Ok(text) => Ok(FileText { text, source }),
        Err(Unread::Failed) => Err(Unready {
            status: Status::ReadFault { source: None },
            source: Some(source),
        }),
        Err(Unread::TooLong) => Err(Unready {
            status: Status::ConfigRefused { line: 1, code: 12 },
            source: Some(source),
        }),
        Err(Unread::Memory) => Err(Unready {
            status: Status::Memory,
            source: Some(source),
        }),
    }
}
