//! What stands in the journal of a command that was read.
ghost use Rattle.std.specs.Prelude.{◌≡◌, ℕ, is_none, length, if◌then◌else◌};
ghost use Rattle.ha_config.specs.declared.command.Cmd.{Cmd as Said};
ghost use Rattle.ha_config.specs.declared.command.Cmd.TheVariants.{Refused};
ghost use Rattle.ha_journal.specs.declared.entry.Entry.TheVariants.{Line};
ghost use Rattle.ha_journal.specs.Commands.{has_automation, lets_reload, put_as as put_as_lem};
ghost use Rattle.ha_journal.specs.Journal.{Journal, more};
ghost use Rattle.ha_engine.specs.Put.{KnowsHelpers};
ghost use Rattle.ha_engine.specs.Settled.{IsSettled, SettlesLast};

use ha_config::{Cmd, Config, is_automation};
use ha_journal::Entry;
use ha_value::{Many, Value, Word};
use helper_set::Helpers;
use std::alloc::Global;
use unit_book::UnitBook;

/// The code of a line that names no automation.
const NO_AUTOMATION: u8 = 9;

/// The code of a line whose text is no configuration.
const NO_CONFIGURATION: u8 = 12;

/// The code of a reload that is one too many.
const TOO_MANY: u8 = 13;

/// The code of a line that reports a helper.
const OF_HELPER: u8 = 14;

/// Whether an automation in force has this name.
fn is_named(journal: &[Entry], book: &UnitBook, name: &Word) -> bool
    requires { IsSettled journal.now book.now }
    ensures { result ≡ has_automation journal.now name.now }
{
    is_automation(book.configuration(journal).automations.as_slice(), name)
}

/// Keeps the pairs in no more memory than they need.
fn fit_pairs(alloc: Global, pairs: &mut Many<(Word, Value)>)
    ensures { pairs.new ≡ pairs.old }
{
    if !pairs.is_empty() {
        let held = std::mem::replace(pairs, Many::make(alloc));
        *pairs = held.fitted();
    }
}

/// A refusal takes the place of a command that names no automation, or reports a helper.
#[inline(never)]
fn refuse_cmd(cmd: &mut Cmd, code: u8)
    ensures { cmd.new ≡ Refused code }
{
    *cmd = Cmd::Refused(code);
}

/// Whether a reload has no configuration.
fn has_none(config: &Option<Config>) -> bool
    ensures { result ≡ is_none config.now }
{
    config.is_none()
}

/// A refusal takes the place of a reload, where its text is no configuration, and where it is one too many.
#[inline(never)]
fn refuse_reload(cmd: &mut Cmd, none: bool, lets: bool)
    ensures { cmd.new ≡ (if none then Refused 12 else (if lets then cmd.old else Refused 13)) }
{
    if none {
        *cmd = Cmd::Refused(NO_CONFIGURATION);
        return;
    }
    if !lets {
        *cmd = Cmd::Refused(TOO_MANY);
    }
}

/// Makes of a prepared command the one that stands in the journal, where it is: a refusal where it names no automation, reports a
/// helper, or is a reload whose text is no configuration, or one too many.
fn settle_cmd(
    alloc: Global,
    journal: &[Entry],
    helpers: &Helpers,
    book: &UnitBook,
    lets: bool,
    cmd: &mut Cmd,
)
    requires helpers { KnowsHelpers helpers.now journal.now }
    requires settled { IsSettled journal.now book.now }
    requires lets { lets ≡ lets_reload journal.now }
    ensures { cmd.new ≡ put_as_lem journal.now cmd.old }
{
    match cmd {
        Cmd::Report {
            entity,
            attributes,
            ..
        } => {
            if helpers.has(entity) {
                refuse_cmd(cmd, OF_HELPER);
            } else {
                fit_pairs(alloc, attributes);
            }
        }
        Cmd::Gone { entity } => {
            if helpers.has(entity) {
                refuse_cmd(cmd, OF_HELPER);
            }
        }
        Cmd::Event { pairs, .. } => fit_pairs(alloc, pairs),
        Cmd::Switch { name, .. } => {
            if !is_named(journal, book, name) {
                refuse_cmd(cmd, NO_AUTOMATION);
            }
        }
        Cmd::Trigger { name, .. } => {
            if !is_named(journal, book, name) {
                refuse_cmd(cmd, NO_AUTOMATION);
            }
        }
        Cmd::Reload { config, .. } => {
            let none = has_none(config);
            refuse_reload(cmd, none, lets);
        }
        _ => {}
    }
}

/// Makes of the prepared command of a line the one that stands in the journal, behind these entries.
fn settle_entry(
    alloc: Global,
    before: &[Entry],
    helpers: &Helpers,
    book: &UnitBook,
    lets: bool,
    last: &mut Entry,
)
    requires helpers { KnowsHelpers helpers.now before.now }
    requires settled { IsSettled before.now book.now }
    requires lets { lets ≡ lets_reload before.now }
    ensures { (source number : ℕ) (cmd : Said) → last.old ≡ Line source number cmd → last.new ≡ Line source number (put_as_lem before.now cmd) }
{
    match last {
        Entry::Line { cmd, .. } => settle_cmd(alloc, before, helpers, book, lets, cmd),
        Entry::Boot { .. } | Entry::Step { .. } | Entry::Again { .. } => {}
    }
}

/// The same of the last entry, where it stands. The helpers and the book are those before it.
pub(crate) fn settle_last(
    alloc: Global,
    helpers: &Helpers,
    journal: &mut [Entry],
    book: &UnitBook,
    lets: bool,
)
    requires { SettlesLast journal.old helpers.now book.now lets }
    ensures last { (j : Journal) (source number : ℕ) (cmd : Said) → journal.old ≡ more j (Line source number cmd) → journal.new ≡ more j (Line source number (put_as_lem j cmd)) }
    ensures len { length journal.new ≡ length journal.old }
{
    match journal.split_last_mut() {
        Some((last, before)) => settle_entry(alloc, before, helpers, book, lets, last),
        None => {}
    }
}
