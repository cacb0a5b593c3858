//! The lines of a rehearsal, put to a core.
ghost use Rattle.std.specs.Prelude.{◌≡◌, ◌≤◌, ◌<◌, ◌+◌, ℕ, true, false, IfErr, IfOk, OnOk, Option};
ghost use Rattle.flow_line.specs.Command.{cmd_of};
ghost use Rattle.ha_config.specs.declared.config.Config.{Config as Configuration};
ghost use Rattle.ha_config.specs.Fair.{prepared};
ghost use Rattle.ha_config.specs.Words.{Text};
ghost use Rattle.ha_journal.specs.Commands.{IsFair, put_as};
ghost use Rattle.ha_journal.specs.Journal.{Journal};
ghost use Rattle.ha_journal.specs.declared.entry.Entry.{Entry};
ghost use Rattle.ha_whole.specs.Whole.{Lawful, Running, is_quiet, is_rested};
ghost use Rattle.rehearsal.specs.Generated.{line_at, line_text};
ghost use Rattle.ha_rehearse.specs.Puts.{Closing, Failed, On};

use flow_line::read_cmd;
use ha_config::Cmd;
use ha_whole::{Core, CoreFault};
use rehearsal::{next_x, rehearse_line};
use std::alloc::Global;

/// Steps until the source is rested: all that its last line began.
fn settle<C: Core>(core: &mut C) -> Result<(), CoreFault>
    requires usable { C.is_spent core.old ≡ false }
    requires running { Running (C.entries core.old) (C.runs core.old) }
    ensures on { OnOk result ((boot : Entry) (n : ℕ) → On boot n (C.entries core.old) (C.runs core.old) → On boot n (C.entries core.new) (C.runs core.new)) }
    ensures rested { OnOk result (is_rested (C.runs core.new) 0 (C.entries core.new) ≡ true) }
    ensures usable { OnOk result (C.is_spent core.new ≡ false) }
    ensures failed { IfErr result (λ fault. (boot : Entry) (n : ℕ) → On boot n (C.entries core.old) (C.runs core.old) → Failed boot n fault (C.entries core.new) (C.runs core.new)) }
{
    'steps: while !core.rested(0) {
        match core.put_step(0) {
            Ok(()) => {}
            Err(fault) => return Err(fault),
        }
    }
    Ok(())
}

/// Steps until no run can go on, whether the source is rested or not.
fn close<C: Core>(core: &mut C) -> Result<(), CoreFault>
    requires usable { C.is_spent core.old ≡ false }
    requires lawful { Lawful (C.entries core.old) (C.runs core.old) }
    ensures closing { OnOk result ((boot : Entry) (n : ℕ) → Closing boot n (C.entries core.old) (C.runs core.old) → Closing boot n (C.entries core.new) (C.runs core.new)) }
    ensures quiet { OnOk result (is_quiet (C.runs core.new) (C.entries core.new) ≡ true) }
    ensures failed { IfErr result (λ fault. (boot : Entry) (n : ℕ) → Closing boot n (C.entries core.old) (C.runs core.old) → Failed boot n fault (C.entries core.new) (C.runs core.new)) }
{
    'steps: while !core.quiet() {
        match core.put_step(0) {
            Ok(()) => {}
            Err(fault) => return Err(fault),
        }
    }
    Ok(())
}

/// Whether a command reloads. Each other one stands as it was read, whatever texts are read as.
fn reloads(cmd: &Cmd) -> bool
    ensures { result ≡ false → (read : Text → Option Configuration) → prepared read cmd.now ≡ cmd.now }
{
    match cmd {
        Cmd::Reload { .. } => true,
        Cmd::Report { .. }
        | Cmd::Gone { .. }
        | Cmd::Event { .. }
        | Cmd::Moment(_)
        | Cmd::Switch { .. }
        | Cmd::Trigger { .. }
        | Cmd::Restart
        | Cmd::Refused(_)
        | Cmd::Lost
        | Cmd::TooLong => false,
    }
}

/// The command of line `i`, where `x` is its number.
fn cmd_at(alloc: Global, i: u32, x: u32) -> Result<Cmd, CoreFault>
    requires few { i < 100_000 }
    ensures cmd { IfOk result (λ cmd. cmd ≡ cmd_of (line_text i x)) }
    ensures fair { IfOk result (λ cmd. (read : Text → Option Configuration) (j : Journal) → IsFair j (put_as j (prepared read cmd))) }
    ensures still { IfOk result (λ cmd. (read : Text → Option Configuration) → prepared read cmd ≡ cmd) }
    ensures memory { IfErr result (λ fault. fault ≡ CoreFault.Memory) }
{
    let Ok(line) = rehearse_line(alloc, i, x) else {
        return Err(CoreFault::Memory);
    };
    let Ok(cmd) = read_cmd(alloc, line.bytes()) else {
        return Err(CoreFault::Memory);
    };
    // it never does: to look is shorter than to prove it of the texts of all lines
    if reloads(&cmd) {
        return Err(CoreFault::Memory);
    }
    Ok(cmd)
}

/// Puts the line of this command, and the steps that it begins.
fn put_cmd<C: Core>(core: &mut C, i: u32, cmd: Cmd) -> Result<(), CoreFault>
    requires usable { C.is_spent core.old ≡ false }
    requires on { (boot : Entry) × On boot i (C.entries core.old) (C.runs core.old) }
    requires rested { is_rested (C.runs core.old) 0 (C.entries core.old) ≡ true }
    requires cmd { cmd ≡ cmd_of (line_at i) }
    requires fair { (read : Text → Option Configuration) (j : Journal) → IsFair j (put_as j (prepared read cmd)) }
    requires still { (read : Text → Option Configuration) → prepared read cmd ≡ cmd }
    ensures on { OnOk result ((boot : Entry) → On boot i (C.entries core.old) (C.runs core.old) → On boot (i + 1) (C.entries core.new) (C.runs core.new)) }
    ensures rested { OnOk result (is_rested (C.runs core.new) 0 (C.entries core.new) ≡ true) }
    ensures usable { OnOk result (C.is_spent core.new ≡ false) }
    ensures failed { IfErr result (λ fault. (boot : Entry) → On boot i (C.entries core.old) (C.runs core.old) → Failed boot (i + 1) fault (C.entries core.new) (C.runs core.new)) }
{
    match core.put_line(0, u64::from(i), cmd) {
        Ok(()) => settle(core),
        Err(fault) => Err(fault),
    }
}

/// Puts the first lines, each with the steps that it begins.
fn put_lines<C: Core>(alloc: Global, core: &mut C, lines: u32) -> Result<(), CoreFault>
    requires usable { C.is_spent core.old ≡ false }
    requires few { lines ≤ 100_000 }
    requires on { (boot : Entry) × On boot 0 (C.entries core.old) (C.runs core.old) }
    requires rested { is_rested (C.runs core.old) 0 (C.entries core.old) ≡ true }
    ensures on { OnOk result ((boot : Entry) → On boot 0 (C.entries core.old) (C.runs core.old) → On boot lines (C.entries core.new) (C.runs core.new)) }
    ensures usable { OnOk result (C.is_spent core.new ≡ false) }
    ensures failed { IfErr result (λ fault. (boot : Entry) → On boot 0 (C.entries core.old) (C.runs core.old) → Failed boot lines fault (C.entries core.new) (C.runs core.new)) }
{
    let mut x = 1;
    'lines: for i in 0..lines {
        x = next_x(x);
        let cmd = match cmd_at(alloc, i, x) {
            Ok(cmd) => cmd,
            Err(fault) => return Err(fault),
        };
        match put_cmd(core, i, cmd) {
            Ok(()) => {}
            Err(fault) => return Err(fault),
        }
    }
    Ok(())
}

/// Puts the first lines with their steps, and then the closing steps.
pub(crate) fn rehearse_lines<C: Core>(
    alloc: Global,
    core: &mut C,
    lines: u32,
) -> Result<(), CoreFault>
    requires usable { C.is_spent core.old ≡ false }
    requires few { lines ≤ 100_000 }
    requires on { (boot : Entry) × On boot 0 (C.entries core.old) (C.runs core.old) }
    requires rested { is_rested (C.runs core.old) 0 (C.entries core.old) ≡ true }
    ensures closing { OnOk result ((boot : Entry) → On boot 0 (C.entries core.old) (C.runs core.old) → Closing boot lines (C.entries core.new) (C.runs core.new)) }
    ensures quiet { OnOk result (is_quiet (C.runs core.new) (C.entries core.new) ≡ true) }
    ensures failed { IfErr result (λ fault. (boot : Entry) → On boot 0 (C.entries core.old) (C.runs core.old) → Failed boot lines fault (C.entries core.new) (C.runs core.new)) }
{
    match put_lines(alloc, core, lines) {
        Ok(()) => close(core),
        Err(fault) => Err(fault),
    }
}
