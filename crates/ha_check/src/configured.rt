//! The configuration of a file.
ghost use Rattle.std.specs.Prelude.{◌≡◌, ◌≤◌, ◌∷◌, [], IfOk, IfErr, IfSome, IsSome, Ok, Some, is_ok, map, option_to_list};
ghost use Rattle.ha_io.specs.declared.place.Opening.{Opening};
ghost use Rattle.ha_io.specs.Told.{AreAsked};
ghost use Rattle.ha_status.specs.Causes.{OpenCause, ReadCause};
ghost use Rattle.ha_status.specs.Files.{AskedAt, IsHandedBack, IsTextFault, ThereCause};
ghost use Rattle.ha_config.specs.Sound.{IsSoundConfig};
ghost use Rattle.conf_auto.specs.Config.{config_of};
ghost use Rattle.ha_check.specs.Configured.{IsConfigOf, IsRefusal, RefusedCause};

use conf_auto::read_config;
use ha_config::Config;
use ha_io::{Place, Source};
use ha_status::{FileText, Status, Unready, read_config_file};
use ha_value::Word;
use sound_laws::laws::what_is_read_is_sound;
use std::alloc::Global;
use yaml_scan::YamlFault;

/// A configuration with its text, and the source that it was read from.
#[derive(Drop)]
pub struct Configured<S: Source> {
    /// All of the file.
    pub text: Word,
    pub config: Config,
    pub source: S,
}

/// A configuration with its text.
#[derive(Drop)]
struct Parsed {
    text: Word,
    config: Config,
}

/// The configuration of a text. One that is a configuration is UTF-8.
fn read_text(alloc: Global, text: &[u8]) -> Result<Parsed, YamlFault>
    ensures text { IfOk result (λ made. made.text ≡ text.now) }
    ensures config { IfOk result (λ made. config_of text.now ≡ Ok made.config) }
    ensures sound { IfOk result (λ made. IsSoundConfig made.config) }
    ensures refused { IfErr result (λ fault. IsRefusal (config_of text.now) fault) }
{
    what_is_read_is_sound();
    let config = match read_config(alloc, text) {
        Ok(config) => config,
        Err(fault) => return Err(fault),
    };
    match Word::read(alloc, text) {
        Ok(text) => Ok(Parsed { text, config }),
        Err(_) => Err(YamlFault::Memory),
    }
}

/// Opens and reads a file, and reads its text as a configuration. The source is handed back wherever it was opened.
pub fn read_config_at<P: Place>(
    alloc: Global,
    place: &mut P,
    name: &str,
) -> Result<Configured<P::Source>, Unready<P::Source>>
    ensures config { IfOk result (λ made. IsConfigOf (P.holds place.old) name.now made.text made.config) }
    ensures sound { IfOk result (λ made. IsSoundConfig made.config) }
    ensures named { IfOk result (λ made. IfSome (P.Source.name made.source) (λ told. told ≡ name.now)) }
    ensures tells_name { IsSome (P.holds place.old) → IfOk result (λ made. P.Source.name made.source ≡ Some name.now) }
    ensures at_end { IsSome (P.holds place.old) → IfOk result (λ made. P.Source.left made.source ≡ Some []) }

    // Where it is none: which answers come, each with its cause.
    ensures fault { IfErr result (λ end. IsTextFault name.now end.status) }
    ensures refused { IfErr result (λ end. RefusedCause (P.holds place.old) name.now end.status) }
    ensures unopened { IfErr result (λ end. OpenCause (name.now ∷ []) (P.faults place.old) (P.faults place.new) (P.last place.new) end.status) }
    ensures unread { IfErr result (λ end. ReadCause name.now [] (map P.Source.faults (option_to_list end.source)) (map P.Source.name (option_to_list end.source)) end.status) }
    ensures there { IfErr result (λ end. ThereCause (P.holds place.old) name.now end.status) }
    ensures handed_back { IfErr result (λ end. IsHandedBack name.now (map P.Source.name (option_to_list end.source)) end.status) }

    ensures asked_once { IfErr result (λ end. AskedAt (name.now, Opening.Reading) (P.asked place.old) (P.asked place.new) end.status) }
    ensures asked { AreAsked (is_ok result) (P.asked place.old) ((name.now, Opening.Reading) ∷ []) (P.asked place.new) }
    ensures never_falls { P.faults place.old ≤ P.faults place.new }
    ensures same_files { P.holds place.new ≡ P.holds place.old }
{
    let FileText { text, source } = match read_config_file(alloc, place, name) {
        Ok(file) => file,
        Err(end) => return Err(end),
    };
    match read_text(alloc, text.as_slice()) {
        Ok(Parsed { text, config }) => Ok(Configured {
            text,
            config,
            source,
        }),
        Err(YamlFault::Bad { line, code }) => Err(Unready {
            status: Status::ConfigRefused {
                line,
                code: code.number(),
            },
            source: Some(source),
        }),
        Err(YamlFault::Memory) => Err(Unready {
            status: Status::Memory,
            source: Some(source),
        }),
    }
}
