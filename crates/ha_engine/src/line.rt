//! A line that is put: how it is appended, and what follows from it.
ghost use Rattle.std.specs.Prelude.{◌≡◌, ◌+◌, ◌<◌, ◌≤◌, OnOk, OnErr, is_some, vec_len, vec_capacity};
ghost use Rattle.ha_journal.specs.declared.entry.Entry.{Entry as Put};
ghost use Rattle.ha_journal.specs.declared.entry.Entry.TheVariants.{Line};
ghost use Rattle.ha_journal.specs.Entries.{reloads_to, restarts as restarts_lem};
ghost use Rattle.ha_journal.specs.Journal.{more, Journal};
ghost use Rattle.ha_model.specs.Lawful.{Right as RightAlone};
ghost use Rattle.ha_whole.specs.Segments.{segment};
ghost use Rattle.engine_parts.specs.Kept.{Kept};
ghost use Rattle.ha_engine.specs.Lies.{Lies};
ghost use Rattle.ha_engine.specs.Put.{Adds};

use crate::bounds::Bounds;
use crate::follow::follow_line;
use engine_parts::parts::Parts;
use ha_config::Cmd;
use ha_journal::Entry;
use named_runs::NamedRuns;
use segment_view::Segment;
use std::alloc::{AllocError, Global};
use unit_book::UnitBook;

/// Appends a line; there is room for it.
#[inline(always)]
pub(crate) fn push_line(journal: &mut Vec<Entry>, source: u32, number: u64, cmd: Cmd)
    requires { vec_len journal.old < vec_capacity journal.old }
    ensures items { journal.new.items ≡ more journal.old.items (Line source number cmd) }
    ensures len { vec_len journal.new ≡ vec_len journal.old + 1 }
    ensures capacity { vec_capacity journal.old ≤ vec_capacity journal.new }
{
    journal.push_reserved(Entry::Line {
        source,
        number,
        cmd,
    });
}

/// Lets a command go that is not put. It stands apart, so that one that is put moves as a whole.
#[inline(never)]
pub(crate) fn let_go(cmd: Cmd) {
    drop(cmd);
}

/// Whether a command brings a configuration.
pub(crate) fn brings(cmd: &Cmd) -> bool
    ensures { result ≡ is_some (reloads_to cmd.now) }
{
    match cmd {
        Cmd::Reload { config, .. } => config.is_some(),
        _ => false,
    }
}

/// Whether a command restarts.
pub(crate) fn restarts(cmd: &Cmd) -> bool
    ensures { result ≡ restarts_lem cmd.now }
{
    matches!(cmd, Cmd::Restart)
}

/// What follows from the line that was pushed last to the list of all entries. After an error the records are as before, and the parts may
/// only be dropped.
pub(crate) fn follow_pushed<'a>(
    alloc: Global,
    journal: &'a [Entry],
    bounds: Bounds,
    book: &'a UnitBook,
    runs: &mut NamedRuns,
    parts: &mut Parts,
) -> Result<(), AllocError>
    requires { Adds journal.now bounds book.now runs.old.firsts runs.old.list parts.old }
    ensures ok { OnOk result ((j : Journal) (x : Put) → Lies j bounds → journal.entry.now ≡ more j x → RightAlone (more (segment j) x) runs.new.list × Kept (more (segment j) x) runs.new.list parts.new) }
    ensures err { OnErr result (runs.new.list ≡ runs.old.list) }
    ensures closed { runs.new.closed ≡ runs.old.closed }
    ensures firsts { runs.new.firsts ≡ runs.old.firsts }
{
    let segment = Segment::of_list(journal, bounds.front, bounds.base, book);
    follow_line(alloc, &segment, runs, parts)
}
