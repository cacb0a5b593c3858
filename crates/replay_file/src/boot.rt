//! The core that the first line of a trace boots.
ghost use Rattle.std.specs.Prelude.{◌≡◌, ◌<◌, ◌≤◌, ◌^◌, IfOk, IfErr, IsSome, false, is_some, length, true};
ghost use Rattle.std.specs.List.{list_all};
ghost use Rattle.std.specs.Str.{is_utf8};
ghost use Rattle.ha_clock.specs.Local.{last_moment};
ghost use Rattle.ha_clock.specs.Zone.{zone_of};
ghost use Rattle.ha_config.specs.Names.{automation_named};
ghost use Rattle.ha_config.specs.Sound.{IsSoundConfig, are_in_name_order};
ghost use Rattle.ha_config.specs.Words.{Text};
ghost use Rattle.ha_replay.specs.Boots.{IsBootLine, are_in_time, are_stored, have_utf8_names};
ghost use Rattle.trace_laws.specs.Runs.{IsConfigured, boot_line};
ghost use Rattle.replay_file.specs.Boot.{IsBooted, IsUnbooted};

use conf_auto::read_config;
use conf_reader::Reader;
use ha_boot::Boots;
use ha_clock::Moment;
use ha_config::{Automation, Config, is_automation};
use ha_replay::{BootLine, TraceFault, read_boot};
use ha_value::{Many, Word};
use sound_laws::laws::what_is_read_is_sound;
use std::alloc::Global;
use yaml_scan::YamlFault;

/// The parts of a first entry.
#[derive(Drop)]
struct First {
    text: Word,
    config: Config,
    stored: Option<Many<(Word, bool)>>,
    start: Moment,
    zone: Word,
    last: Many<(Word, Moment)>,
}

/// Names are texts: it looks at each.
fn are_texts<T>(pairs: &[(Word, T)])
    ensures { list_all (λ p. is_utf8 p.0) pairs.now ≡ true }
{
    for pair in pairs {
        let _ = pair.0.bytes();
    }
}

/// Stored names are texts.
fn are_stored_texts(stored: &Option<Many<(Word, bool)>>)
    ensures { have_utf8_names stored.now ≡ true }
{
    if let Some(pairs) = stored {
        are_texts(pairs.as_slice());
    }
}

/// Whether each name is that of an automation.
fn are_known(all: &[Automation], last: &[(Word, Moment)]) -> bool
    ensures { result ≡ list_all (λ p. is_some (automation_named all.now p.0)) last.now }
{
    last.iter().all(|pair| is_automation(all, &pair.0))
}

/// The configuration of a first line, with its other parts.
fn with_config(
    alloc: Global,
    text: Word,
    stored: Option<Many<(Word, bool)>>,
    start: Moment,
    zone: Word,
    last: Many<(Word, Moment)>,
) -> Result<First, TraceFault>
    requires start { start ≤ last_moment }
    requires zone { IsSome (zone_of zone) }
    requires ordered { are_stored stored ≡ true }
    requires last_ordered { are_in_name_order last ≡ true }
    requires last_in_time { are_in_time last ≡ true }
    ensures configured { IfOk result (λ made. IsConfigured (boot_line made.text made.stored made.start made.zone made.last) made.config) }
    ensures sound { IfOk result (λ made. IsSoundConfig made.config) }
    ensures line_is { (line : Text) → IsBootLine line (boot_line text stored start zone last) → IfOk result (λ made. IsBootLine line (boot_line made.text made.stored made.start made.zone made.last)) }
    ensures refused { (line : Text) → IsBootLine line (boot_line text stored start zone last) → IfErr result (IsUnbooted line) }
{
    are_stored_texts(&stored);
    are_texts(last.as_slice());
    let _ = zone.bytes();
    what_is_read_is_sound();
    match read_config(alloc, text.bytes()) {
        Ok(config) => {
            if !are_known(config.automations.as_slice(), last.as_slice()) {
                return Err(TraceFault::Refused);
            }
            Ok(First {
                text,
                config,
                stored,
                start,
                zone,
                last,
            })
        }
        Err(YamlFault::Bad { .. }) => Err(TraceFault::Refused),
        Err(YamlFault::Memory) => Err(TraceFault::Memory),
    }
}

/// The parts of the first entry whose line this is.
fn read_first(alloc: Global, line: &[u8]) -> Result<First, TraceFault>
    requires short { length line.now < 2 ^ 32 }
    ensures configured { IfOk result (λ made. IsConfigured (boot_line made.text made.stored made.start made.zone made.last) made.config) }
    ensures line_is { IfOk result (λ made. IsBootLine line.now (boot_line made.text made.stored made.start made.zone made.last)) }
    ensures sound { IfOk result (λ made. IsSoundConfig made.config) }
    ensures refused { IfErr result (IsUnbooted line.now) }
{
    let BootLine {
        text,
        stored,
        start,
        zone,
        last,
    } = match read_boot(alloc, line) {
        Ok(read) => read,
        Err(fault) => return Err(fault),
    };
    let zone = match Word::read(alloc, zone.text()) {
        Ok(zone) => zone,
        Err(_) => return Err(TraceFault::Memory),
    };
    with_config(alloc, text, stored, start, zone, last)
}

/// Boots a core by the first line, without its LF. Refused where it is no first line, or its configuration is refused, or a name under `last`
/// is that of no automation.
pub(crate) fn boot<E: Boots<Prepare = Reader>>(alloc: Global, line: &[u8]) -> Result<E, TraceFault>
    requires short { length line.now < 2 ^ 32 }
    ensures booted { IfOk result (λ core. IsBooted line.now (E.entries core) (E.runs core)) }
    ensures usable { IfOk result (λ core. E.is_spent core ≡ false) }
    ensures refused { IfErr result (IsUnbooted line.now) }
{
    let First {
        text,
        config,
        stored,
        start,
        zone,
        last,
    } = match read_first(alloc, line) {
        Ok(made) => made,
        Err(fault) => return Err(fault),
    };
    match E::boot(alloc, text, config, stored, start, zone, last, Reader) {
        Ok(core) => {
            let _ = core.journal();
            Ok(core)
        }
        Err(_) => Err(TraceFault::Memory),
    }
}
