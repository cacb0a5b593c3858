//! The command `rehearse`.
ghost use Rattle.std.specs.Prelude.{◌≡◌, ◌≤◌, ◌∷◌, [], false, IfErr, IfOk, Ok};
ghost use Rattle.ha_io.specs.Counts.{Rose};
ghost use Rattle.ha_config.specs.declared.config.Config.{Config as Configuration};
ghost use Rattle.ha_config.specs.Sound.{IsSoundConfig};
ghost use Rattle.ha_model.specs.Texts.{rehearse_text};
ghost use Rattle.ha_status.specs.Causes.{NeverFall, OneRose, WriteCause};
ghost use Rattle.ha_status.specs.Written.{IsWritten, TookLine};
ghost use Rattle.rehearsal.specs.Generated.{config_text};
ghost use Rattle.conf_auto.specs.Config.{config_of};
ghost use Rattle.ha_rehearse.specs.Rehearsed.{IsCounted, IsRehearseFault, IsRehearseStatus, IsShown, Rehearsed, boot_of};

use crate::puts::rehearse_lines;
use crate::text::rehearse_text;
use conf_auto::read_config;
use conf_reader::Reader;
use ha_boot::Boots;
use ha_clock::Moment;
use ha_config::Config;
use ha_io::{Sink, Unwritten, write_whole};
use ha_journal::Entry;
use ha_model::Record;
use ha_status::{Status, told};
use ha_value::{Many, Word};
use ha_whole::CoreFault;
use rehearsal::{START, rehearse_config};
use sound_laws::laws::what_is_read_is_sound;
use std::alloc::Global;
use yaml_scan::YamlFault;

/// The configuration of a text that is one.
fn read_text(alloc: Global, text: &[u8]) -> Result<Config, Status>
    requires read { (config : Configuration) × (config_of text.now ≡ Ok config) }
    ensures config { IfOk result (λ config. config_of text.now ≡ Ok config) }
    ensures sound { IfOk result IsSoundConfig }
    ensures fault { IfErr result (λ status. status ≡ Status.Memory) }
{
    what_is_read_is_sound();
    match read_config(alloc, text) {
        Ok(config) => Ok(config),
        Err(YamlFault::Memory) => Err(Status::Memory),
        Err(YamlFault::Bad { .. }) => unreachable!(),
    }
}

/// A core whose journal is the boot of the generated configuration alone.
fn booted<C: Boots<Prepare = Reader>>(alloc: Global) -> Result<C, Status>
    ensures boot { IfOk result (λ core. (config : Configuration) × (config_of config_text ≡ Ok config) × (C.Core.entries core ≡ boot_of config ∷ [])) }
    ensures usable { IfOk result (λ core. C.Core.is_spent core ≡ false) }
    ensures fault { IfErr result (λ status. status ≡ Status.Memory) }
{
    let Ok(text) = rehearse_config(alloc) else {
        return Err(Status::Memory);
    };
    let Ok(zone) = Word::from_str(alloc, "UTC") else {
        return Err(Status::Memory);
    };
    let config = match read_text(alloc, text.bytes()) {
        Ok(config) => config,
        Err(status) => return Err(status),
    };
    match C::boot(
        alloc,
        text,
        config,
        None,
        Moment::at(START),
        zone,
        Many::make(alloc),
        Reader,
    ) {
        Ok(core) => Ok(core),
        Err(_) => Err(Status::Memory),
    }
}

/// A core to which all generated lines were put, with all steps.
fn rehearsed<C: Boots<Prepare = Reader>>(alloc: Global, lines: u32) -> Result<C, Status>
    requires few { lines ≤ 100_000 }
    ensures rehearsed { IfOk result (λ core. Rehearsed lines (C.Core.entries core) (C.Core.runs core)) }
    ensures fault { IfErr result (IsRehearseFault lines) }
{
    let mut core = match booted::<C>(alloc) {
        Ok(core) => core,
        Err(status) => return Err(status),
    };
    let _ = core.journal();
    match rehearse_lines(alloc, &mut core, lines) {
        Ok(()) => Ok(core),
        Err(CoreFault::Full) => Err(Status::JournalFull),
        Err(CoreFault::Memory) => Err(Status::Memory),
    }
}

/// Writes the counts of a journal.
fn show<K: Sink>(alloc: Global, journal: &[Entry], records: &[Record], out: &mut K) -> Status
    ensures shown { IsShown result }
    ensures written { IsWritten result (rehearse_text journal.now records.now) (K.written out.old) (K.written out.new) }
    ensures cause { WriteCause (Rose (K.faults out.old) (K.faults out.new)) (Rose (K.zeros out.old) (K.zeros out.new)) result }
    ensures counts { NeverFall (K.faults out.old) (K.faults out.new) (K.zeros out.old) (K.zeros out.new) }
    ensures same_name { K.name out.new ≡ K.name out.old }
{
    let Ok(text) = rehearse_text(alloc, journal, records) else {
        return Status::Memory;
    };
    match write_whole(out, text.as_slice()) {
        Ok(()) => Status::Ok,
        Err(Unwritten::Failed) => Status::WriteFault { zero: false },
        Err(Unwritten::Zero) => Status::WriteFault { zero: true },
        Err(Unwritten::Memory) => Status::Memory,
    }
}

/// What came about, before it is told on the error sink.
fn tried<C: Boots<Prepare = Reader>, K: Sink>(alloc: Global, lines: u32, out: &mut K) -> Status
    requires few { lines ≤ 100_000 }
    ensures answer { IsRehearseStatus lines result }
    ensures output { IsCounted lines result (K.written out.old) (K.written out.new) }
    ensures unwritten { WriteCause (Rose (K.faults out.old) (K.faults out.new)) (Rose (K.zeros out.old) (K.zeros out.new)) result }
    ensures counts { NeverFall (K.faults out.old) (K.faults out.new) (K.zeros out.old) (K.zeros out.new) }
    ensures same_name { K.name out.new ≡ K.name out.old }
{
    match rehearsed::<C>(alloc, lines) {
        Ok(core) => show(alloc, core.journal(), core.records(), out),
        Err(status) => status,
    }
}

/// `rehearse`: boots the generated configuration, puts so many generated lines with their steps and the closing steps, and writes to `out` how many
/// lines, entries, runs and calls there are. Where something failed, the status line goes to `err`.
pub fn rehearse_call<C: Boots<Prepare = Reader>, K: Sink>(
    alloc: Global,
    lines: u32,
    out: &mut K,
    err: &mut K,
) -> Status
    requires few { lines ≤ 100_000 }

    // The status, and where it comes.
    ensures answer { IsRehearseStatus lines result }
    ensures unwritten { WriteCause (Rose (K.faults out.old) (K.faults out.new)) (Rose (K.zeros out.old) (K.zeros out.new)) result }

    // The counts and the status line that were written.
    ensures output { IsCounted lines result (K.written out.old) (K.written out.new) }
    ensures line { TookLine (OneRose (K.faults err.old) (K.faults err.new) (K.zeros err.old) (K.zeros err.new)) result (K.written err.old) (K.written err.new) }

    // The sinks afterwards.
    ensures out_counts { NeverFall (K.faults out.old) (K.faults out.new) (K.zeros out.old) (K.zeros out.new) }
    ensures err_counts { NeverFall (K.faults err.old) (K.faults err.new) (K.zeros err.old) (K.zeros err.new) }
    ensures out_name { K.name out.new ≡ K.name out.old }
    ensures err_name { K.name err.new ≡ K.name err.old }
{
    let status = tried::<C, K>(alloc, lines, out);
    told(alloc, err, status)
}
