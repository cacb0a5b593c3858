//! What follows from an entry that was pushed: the parts and the records go on to stand for the journal with it.
ghost use Rattle.std.specs.Prelude.{◌≡◌, ℕ, IfOk, OnOk, OnErr, false};
ghost use Rattle.ha_config.specs.declared.command.Cmd.{Cmd as Said};
ghost use Rattle.ha_journal.specs.declared.entry.Entry.TheVariants.{Line};
ghost use Rattle.ha_journal.specs.Entries.{is_restart};
ghost use Rattle.ha_journal.specs.Journal.{more, Journal};
ghost use Rattle.ha_config.specs.Fair.{IsPlain};
ghost use Rattle.ha_model.specs.Records.{Records, last_is};
ghost use Rattle.ha_model.specs.Lawful.{Right};
ghost use Rattle.trig_set.specs.Left.{Leaves};
ghost use Rattle.engine_parts.specs.Kept.{Kept};
ghost use Rattle.engine_parts.specs.Stages.{Entered, IsLine, Pushed, PushedAs, RunsBefore};
ghost use Rattle.ha_engine.specs.Named.{AreFirsts};

use crate::conclude::{conclude, conclude_left};
use crate::switch::follow_switch;
use engine_entry::enter::{enter_gone, enter_left, enter_moment, enter_other, enter_report};
use engine_parts::attend::attend;
use engine_parts::left::attend_left;
use engine_parts::parts::Parts;
use ha_config::Cmd;
use ha_journal::Entry;
use ha_value::{EntityId, Many, Value, Word};
use named_runs::NamedRuns;
use segment_view::Segment;
use std::alloc::{AllocError, Global};
use trig_set::Before;

/// What a command that changes no switch changes itself.
fn enter_plain(parts: &mut Parts, alloc: Global, cmd: &Cmd) -> Result<Before, AllocError>
    ensures entered { IfOk result (λ before. (k : Journal) (rs : Records) → (h : Pushed k rs parts.old) → h.cmd ≡ cmd.now → IsPlain cmd.now → Entered k parts.new before) }
    ensures runs { OnOk result ((k : Journal) (rs : Records) → RunsBefore k rs parts.old.waits parts.old.delays parts.old.frames.items parts.old.ready.pairs.items parts.old.calls
        → RunsBefore k rs parts.new.waits parts.new.delays parts.new.frames.items parts.new.ready.pairs.items parts.new.calls) }
    ensures rested { OnOk result (parts.new.rested ≡ parts.old.rested) }
{
    match cmd {
        Cmd::Report {
            entity,
            text,
            attributes,
        } => {
            let before = enter_report(parts, alloc, entity, text, attributes)?;
            Ok(before)
        }
        Cmd::Gone { entity } => {
            let before = enter_gone(parts, alloc, entity)?;
            Ok(before)
        }
        Cmd::Moment(at) => {
            let before = enter_moment(parts, alloc, *at)?;
            Ok(before)
        }
        Cmd::Event { .. } => Ok(enter_other(parts, alloc)),
        Cmd::Switch { .. } => Ok(enter_other(parts, alloc)),
        Cmd::Trigger { .. } => Ok(enter_other(parts, alloc)),
        Cmd::Restart => Ok(enter_other(parts, alloc)),
        Cmd::Reload { .. } => Ok(enter_other(parts, alloc)),
        Cmd::Refused(_) => Ok(enter_other(parts, alloc)),
        Cmd::Lost => Ok(enter_other(parts, alloc)),
        Cmd::TooLong => Ok(enter_other(parts, alloc)),
    }
}

/// A line that changes no switch. Whom the entity of a report concerns is looked for at the place `near` first.
fn follow_plain(
    alloc: Global,
    journal: &Segment<'_>,
    runs: &mut NamedRuns,
    parts: &mut Parts,
    cmd: &Cmd,
    near: usize,
) -> Result<(), AllocError>
    requires pushed { PushedAs cmd.now journal.now runs.old.list parts.old }
    requires plain { IsPlain cmd.now }
    requires named { AreFirsts journal.now runs.old.firsts }
    ensures ok { OnOk result (Right journal.now runs.new.list × Kept journal.now runs.new.list parts.new) }
    ensures err { OnErr result (runs.new.list ≡ runs.old.list) }
    ensures closed { runs.new.closed ≡ runs.old.closed }
    ensures firsts { runs.new.firsts ≡ runs.old.firsts }
{
    let mut before = enter_plain(parts, alloc, cmd)?;
    before.look_at(near);
    let fired = attend(parts, alloc, journal, before)?;
    conclude(alloc, journal, runs, parts, fired)
}

/// A report of an entity that concerns nobody: it asks for no run, so the records stay.
fn follow_left(
    alloc: Global,
    journal: &Segment<'_>,
    runs: &mut NamedRuns,
    parts: &mut Parts,
    entity: &EntityId,
    text: &Word,
    attributes: &Many<(Word, Value)>,
) -> Result<(), AllocError>
    requires pushed { PushedAs (Said.Report entity.now text.now attributes.now) journal.now runs.old.list parts.old }
    requires left { Leaves parts.old.triggers entity.now }
    ensures ok { OnOk result (Right journal.now runs.new.list × Kept journal.now runs.new.list parts.new) }
    ensures err { OnErr result (runs.new.list ≡ runs.old.list) }
    ensures closed { runs.new.closed ≡ runs.old.closed }
    ensures firsts { runs.new.firsts ≡ runs.old.firsts }
{
    enter_left(parts, alloc, entity, text, attributes)?;
    attend_left(parts, alloc, journal, entity, text, attributes)?;
    conclude_left(journal, parts);
    Ok(())
}

/// A report of an entity that may concern somebody; `near` says where its owners are listed.
fn follow_seen(
    alloc: Global,
    journal: &Segment<'_>,
    runs: &mut NamedRuns,
    parts: &mut Parts,
    entity: &EntityId,
    text: &Word,
    attributes: &Many<(Word, Value)>,
    near: usize,
) -> Result<(), AllocError>
    requires pushed { PushedAs (Said.Report entity.now text.now attributes.now) journal.now runs.old.list parts.old }
    requires named { AreFirsts journal.now runs.old.firsts }
    ensures ok { OnOk result (Right journal.now runs.new.list × Kept journal.now runs.new.list parts.new) }
    ensures err { OnErr result (runs.new.list ≡ runs.old.list) }
    ensures closed { runs.new.closed ≡ runs.old.closed }
    ensures firsts { runs.new.firsts ≡ runs.old.firsts }
{
    let mut before = enter_report(parts, alloc, entity, text, attributes)?;
    before.look_at(near);
    let fired = attend(parts, alloc, journal, before)?;
    conclude(alloc, journal, runs, parts, fired)
}

/// A report.
fn follow_report(
    alloc: Global,
    journal: &Segment<'_>,
    runs: &mut NamedRuns,
    parts: &mut Parts,
    entity: &EntityId,
    text: &Word,
    attributes: &Many<(Word, Value)>,
) -> Result<(), AllocError>
    requires pushed { PushedAs (Said.Report entity.now text.now attributes.now) journal.now runs.old.list parts.old }
    requires named { AreFirsts journal.now runs.old.firsts }
    ensures ok { OnOk result (Right journal.now runs.new.list × Kept journal.now runs.new.list parts.new) }
    ensures err { OnErr result (runs.new.list ≡ runs.old.list) }
    ensures closed { runs.new.closed ≡ runs.old.closed }
    ensures firsts { runs.new.firsts ≡ runs.old.firsts }
{
    match parts.triggers.asked(entity) {
        None => follow_left(alloc, journal, runs, parts, entity, text, attributes),
        Some(near) => follow_seen(alloc, journal, runs, parts, entity, text, attributes, near),
    }
}

/// The command of the last entry, which is a line.
fn last_command<'a>(journal: &'a Segment<'_>) -> &'a Cmd
    requires { IsLine journal.now }
    ensures { (j : Journal) (source number : ℕ) (cmd : Said) → journal.entry.now ≡ more j (Line source number cmd) → result.now ≡ cmd }
{
    match journal.last_entry() {
        Entry::Line { cmd, .. } => cmd,
        _ => unreachable!(),
    }
}

/// A line was pushed, which is no restart. After an error the records are as before, and the parts may only be dropped.
pub fn follow_line(
    alloc: Global,
    journal: &Segment<'_>,
    runs: &mut NamedRuns,
    parts: &mut Parts,
) -> Result<(), AllocError>
    requires pushed { Pushed journal.now runs.old.list parts.old }
    requires stays { last_is is_restart journal.now ≡ false }
    requires named { AreFirsts journal.now runs.old.firsts }
    ensures ok { OnOk result (Right journal.now runs.new.list × Kept journal.now runs.new.list parts.new) }
    ensures err { OnErr result (runs.new.list ≡ runs.old.list) }
    ensures closed { runs.new.closed ≡ runs.old.closed }
    ensures firsts { runs.new.firsts ≡ runs.old.firsts }
{
    let cmd = last_command(journal);
    match cmd {
        Cmd::Switch { name, on, stop } => {
            follow_switch(alloc, journal, runs, parts, name, *on, *stop)
        }
        Cmd::Restart => unreachable!(),
        Cmd::Reload { .. } => unreachable!(),
        Cmd::Report {
            entity,
            text,
            attributes,
        } => follow_report(alloc, journal, runs, parts, entity, text, attributes),
        _ => follow_plain(alloc, journal, runs, parts, cmd, usize::MAX),
    }
}
