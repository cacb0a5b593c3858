//! The first line of a trace.
ghost use Rattle.std.specs.Prelude.{◌≡◌, ◌≤◌, ◌<◌, ◌^◌, ◌↔◌, ◌∷◌, [], IfOk, IfSome, IsTrue, length, true};
ghost use Rattle.ha_clock.specs.Local.{last_moment};
ghost use Rattle.ha_config.specs.CheckText.{as_line};
ghost use Rattle.ha_journal.specs.EntryText.{trace_line as trace_line_lem};
ghost use Rattle.ha_replay.specs.Boots.{Reads, ReadsFrom, ReadsZone, are_in_time, boot_of, parts_in as parts_in_lem};

use crate::fault::TraceFault;
use crate::same::is_same;
use crate::stored::{
    are_in_order, are_stored, last_under, moment_under, stored_under, text_under, under,
};
use flow_line::{FlowFault, read_value};
use ha_clock::{ClockFault, Moment, Zone};
use ha_config::Config;
use ha_journal::{Carry, Entry, copy_moments};
use ha_texts::{empty_line, trace_line};
use ha_value::{Many, Plain, Value, Word};
use std::alloc::{AllocError, Global};

/// What the first line of a trace says.
#[derive(Drop)]
pub struct BootLine {
    /// The text of the configuration.
    pub text: Word,
    /// The names with their switches that the store held, in the byte order of the names, each once.
    pub stored: Option<Many<(Word, bool)>>,
    pub start: Moment,
    pub zone: Zone,
    /// When automations last triggered, in the byte order of their names, each once.
    pub last: Many<(Word, Moment)>,
}

/// What a value says as the first line, before it is looked at.
#[derive(Drop)]
pub struct Parts {
    pub text: Word,
    pub stored: Option<Many<(Word, bool)>>,
    pub start: Moment,
    pub zone: Word,
    pub last: Many<(Word, Moment)>,
}

/// The parts that a value names; none where one is missing or of another kind.
#[tactic(auto, unfolding(crate::specs::Boots::parts_in))]
fn parts_in(alloc: Global, value: &Value) -> Result<Option<Parts>, AllocError>
    ensures parts { IfOk result (λ found. found ≡ parts_in_lem value.now) }
    ensures start { IfOk result (λ found. IfSome found (λ p. p.start ≤ last_moment)) }
    ensures last { IfOk result (λ found. IfSome found (λ p. are_in_time p.last ≡ true)) }
{
    let Some(boot) = under(value, "boot") else {
        return Ok(None);
    };
    let Some(text) = text_under(boot, "config") else {
        return Ok(None);
    };
    let Some(start) = moment_under(boot, "start") else {
        return Ok(None);
    };
    let Some(zone) = text_under(boot, "zone") else {
        return Ok(None);
    };
    let Some(stored) = stored_under(alloc, boot, "stored")? else {
        return Ok(None);
    };
    let Some(last) = last_under(alloc, boot, "last")? else {
        return Ok(None);
    };
    Ok(Some(Parts {
        text: text.copy(alloc)?,
        stored,
        start,
        zone: zone.copy(alloc)?,
        last,
    }))
}

/// A copy of stored switches.
fn copy_stored(
    alloc: Global,
    stored: &Option<Many<(Word, bool)>>,
) -> Result<Option<Many<(Word, bool)>>, AllocError>
    ensures { IfOk result (λ made. made ≡ stored.now) }
{
    match stored {
        Some(switches) => Ok(Some(switches.copy(alloc)?)),
        None => Ok(None),
    }
}

/// The first entry with these parts, and with no automation.
fn boot_entries(alloc: Global, parts: &Parts) -> Result<Vec<Entry>, AllocError>
    ensures { IfOk result (λ made. made.items ≡ boot_of parts.now ∷ []) }
{
    let text = parts.text.copy(alloc)?;
    let stored = copy_stored(alloc, &parts.stored)?;
    let zone = parts.zone.copy(alloc)?;
    let last = copy_moments(alloc, parts.last.as_slice())?;
    let carry = Carry::first(alloc, last)?;
    let mut entries = Vec::new(alloc);
    entries.push(Entry::Boot {
        text,
        config: Config {
            automations: Many::make(alloc),
            scripts: Many::make(alloc),
            helpers: Many::make(alloc),
        },
        stored,
        start: parts.start,
        zone,
        carry,
    })?;
    Ok(entries)
}

/// Whether the line is that of a first entry with these parts. A configuration is not in the line.
fn is_line_of(alloc: Global, parts: &Parts, line: &[u8]) -> Result<bool, AllocError>
    requires start { parts.now.start ≤ last_moment }
    requires last { are_in_time parts.now.last ≡ true }
    ensures { IfOk result (λ same. IsTrue same ↔ (as_line line.now ≡ trace_line_lem [] (boot_of parts.now))) }
{
    let entries = boot_entries(alloc, parts)?;
    let units = Many::make(alloc);
    let Some(entry) = entries.first() else {
        return Ok(false);
    };
    let mut shown = empty_line(alloc)?;
    trace_line(alloc, &mut shown, entry, &units)?;
    Ok(is_same(shown.bytes(), line))
}

/// The first line, where the zone of its parts is read.
fn with_zone(alloc: Global, parts: Parts) -> Result<BootLine, TraceFault>
    ensures { ReadsZone parts result }
{
    let Parts {
        text,
        stored,
        start,
        zone,
        last,
    } = parts;
    match Zone::read(alloc, zone.bytes()) {
        Ok(zone) => Ok(BootLine {
            text,
            stored,
            start,
            zone,
            last,
        }),
        Err(ClockFault::Text) => Err(TraceFault::Refused),
        Err(ClockFault::Memory) => Err(TraceFault::Memory),
    }
}

/// The first line that a value is read as, where the line is printed of its parts and the names stand in order.
fn boot_of_value(alloc: Global, value: &Value, line: &[u8]) -> Result<BootLine, TraceFault>
    ensures { ReadsFrom (parts_in_lem value.now) line.now result }
{
    let parts = match parts_in(alloc, value) {
        Ok(Some(parts)) => parts,
        Ok(None) => return Err(TraceFault::Refused),
        Err(_) => return Err(TraceFault::Memory),
    };
    if !are_stored(&parts.stored) || !are_in_order(parts.last.as_slice()) {
        return Err(TraceFault::Refused);
    }
    match is_line_of(alloc, &parts, line) {
        Ok(true) => with_zone(alloc, parts),
        Ok(false) => Err(TraceFault::Refused),
        Err(_) => Err(TraceFault::Memory),
    }
}

/// Reads the first line of a trace, without its LF. Refused comes exactly where it is none: where it is not the line of a first entry, or
/// its zone is not read, or the names of its switches or of its moments do not stand in byte order, each once. Full never comes.
pub fn read_boot(alloc: Global, line: &[u8]) -> Result<BootLine, TraceFault>
    requires { length line.now < 2 ^ 32 }
    ensures { Reads line.now result }
{
    match read_value(alloc, line) {
        Ok(value) => boot_of_value(alloc, &value, line),
        Err(FlowFault::Bad { .. }) => Err(TraceFault::Refused),
        Err(FlowFault::Memory) => Err(TraceFault::Memory),
    }
}
