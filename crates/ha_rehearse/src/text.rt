//! The counts that `rehearse` writes.
ghost use Rattle.std.specs.Prelude.{◌≡◌, ◌<◌, ◌+◌, ◌++◌, cond, count_by, IfOk, OnOk, string_bytes};
ghost use Rattle.ha_config.specs.CheckText.{count_line};
ghost use Rattle.ha_model.specs.Texts.{rehearse_text};
ghost use Rattle.ha_rehearse.specs.Counts.{calls, is_line};

use ha_journal::Entry;
use ha_model::Record;
use ha_sight::Item;
use std::alloc::{AllocError, Global};

#[tactic(auto, unfolding(crate::specs::Counts::is_line))]
fn is_line(entry: &Entry) -> bool
    ensures { result ≡ is_line entry.now }
{
    matches!(entry, Entry::Line { .. })
}

#[tactic(auto, unfolding(crate::specs::Counts::calls))]
fn calls(entry: &Entry) -> bool
    ensures { result ≡ calls entry.now }
{
    match entry {
        Entry::Step { item, .. } => matches!(item, Item::Call { .. }),
        Entry::Boot { .. } | Entry::Line { .. } | Entry::Again { .. } => false,
    }
}

/// The count after an entry, which counts or not.
fn one_more(count: usize, counts: bool) -> usize
    requires { count < 18_446_744_073_709_551_615 }
    ensures { result ≡ count + cond counts 1 0 }
{
    if counts { count + 1 } else { count }
}

/// How many lines a journal has.
fn lines_in(journal: &[Entry]) -> usize
    ensures { result ≡ count_by is_line journal.now }
{
    let mut count = 0;
    'entries: for entry in journal {
        count = one_more(count, is_line(entry));
    }
    count
}

/// How many calls a journal has.
fn calls_in(journal: &[Entry]) -> usize
    ensures { result ≡ count_by calls journal.now }
{
    let mut count = 0;
    'entries: for entry in journal {
        count = one_more(count, calls(entry));
    }
    count
}

/// The line of a count.
fn count_line(alloc: Global, what: &str, count: usize) -> Result<String, AllocError>
    ensures { IfOk result (λ line. string_bytes line ≡ count_line what.now count) }
{
    format!(in alloc; "{what} {count}\n")
}

/// Appends the line of a count.
fn push_count(alloc: Global, text: &mut Vec<u8>, what: &str, count: usize) -> Result<(), AllocError>
    ensures { OnOk result (text.new.items ≡ text.old.items ++ count_line what.now count) }
{
    let line = count_line(alloc, what, count)?;
    text.extend_from_slice(line.as_bytes())?;
    Ok(())
}

/// How many lines, entries, runs and calls there are, a line for each.
pub(crate) fn rehearse_text(
    alloc: Global,
    journal: &[Entry],
    records: &[Record],
) -> Result<Vec<u8>, AllocError>
    ensures { IfOk result (λ text. text.items ≡ rehearse_text journal.now records.now) }
{
    let mut text = Vec::new(alloc);
    push_count(alloc, &mut text, "lines", lines_in(journal))?;
    push_count(alloc, &mut text, "entries", journal.len())?;
    push_count(alloc, &mut text, "runs", records.len())?;
    push_count(alloc, &mut text, "calls", calls_in(journal))?;
    Ok(text)
}
