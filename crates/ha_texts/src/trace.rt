//! The line of an entry in the trace.
ghost use Rattle.std.specs.Prelude.{◌≡◌, ◌≤◌, ◌∷◌, [], ◌++◌, OnOk, codes, decimal, map, nat_le, true};
ghost use Rattle.std.specs.List.{list_all};
ghost use Rattle.ha_clock.specs.Local.{last_moment};
ghost use Rattle.ha_config.specs.CommandText.{cmd_text, one_key};
ghost use Rattle.ha_sight.specs.ItemText.{item_text};
ghost use Rattle.ha_config.specs.StoreText.{stored_text};
ghost use Rattle.ha_journal.specs.EntryText.{boot_pairs, trace_line as trace_line_lem};
ghost use Rattle.ha_config.specs.ValueText.{list_text, map_text};
ghost use Rattle.ha_texts.specs.Lines.{entry_text, last_part, AreDated, IsDated};

use crate::command::push_cmd;
use crate::item::push_item;
use crate::names::{push_moment, push_moments, push_numbers, push_switches};
use crate::parts::push_number;
use flow_line::push_quoted;
use ha_clock::Moment;
use ha_config::Cmd;
use ha_journal::Entry;
use ha_sight::Item;
use ha_value::{Many, Word};
use std::alloc::{AllocError, Global};

/// Appends the switches that were stored.
fn push_stored(text: &mut Word, stored: &Option<Many<(Word, bool)>>) -> Result<(), AllocError>
    ensures { OnOk result (text.new ≡ text.old ++ stored_text stored.now) }
{
    match stored {
        None => text.push_str("null"),
        Some(switches) => push_switches(text, switches.as_slice()),
    }
}

/// Appends when automations last triggered, where one has.
fn push_last(alloc: Global, text: &mut Word, last: &[(Word, Moment)]) -> Result<(), AllocError>
    requires { list_all (λ p. nat_le p.1 last_moment) last.now ≡ true }
    ensures { OnOk result (text.new ≡ text.old ++ last_part last.now) }
{
    if last.is_empty() {
        return Ok(());
    }
    text.push_str(",\"last\":")?;
    push_moments(alloc, text, last)?;
    Ok(())
}

fn push_boot(
    alloc: Global,
    text: &mut Word,
    config: &Word,
    stored: &Option<Many<(Word, bool)>>,
    last: &[(Word, Moment)],
    start: Moment,
    zone: &Word,
) -> Result<(), AllocError>
    requires start { start ≤ last_moment }
    requires last { list_all (λ p. nat_le p.1 last_moment) last.now ≡ true }
    ensures { OnOk result (text.new ≡ text.old ++ one_key (codes "boot") (map_text (boot_pairs config.now stored.now last.now start zone.now))) }
{
    text.push_str("{\"boot\":")?;
    text.push_str("{\"config\":")?;
    push_quoted(text, config.as_str())?;
    text.push_str(",\"stored\":")?;
    push_stored(text, stored)?;
    push_last(alloc, text, last)?;
    text.push_str(",\"start\":")?;
    push_moment(alloc, text, start)?;
    text.push_str(",\"zone\":")?;
    push_quoted(text, zone.as_str())?;
    text.push_byte(b'}')?;
    text.push_byte(b'}')?;
    Ok(())
}

fn push_line(
    alloc: Global,
    text: &mut Word,
    source: u32,
    number: u64,
    cmd: &Cmd,
) -> Result<(), AllocError>
    requires { IsDated cmd.now }
    ensures { OnOk result (text.new ≡ text.old ++ map_text ((codes "source", decimal source) ∷ (codes "number", decimal number) ∷ (codes "cmd", cmd_text cmd.now) ∷ [])) }
{
    text.push_str("{\"source\":")?;
    push_number(text, u64::from(source))?;
    text.push_str(",\"number\":")?;
    push_number(text, number)?;
    text.push_str(",\"cmd\":")?;
    push_cmd(alloc, text, cmd)?;
    text.push_byte(b'}')?;
    Ok(())
}

fn push_step(
    alloc: Global,
    text: &mut Word,
    units: &Many<Word>,
    worker: u32,
    serial: u64,
    branch: &[u32],
    item: &Item,
) -> Result<(), AllocError>
    ensures { OnOk result (text.new ≡ text.old ++ map_text ((codes "worker", decimal worker) ∷ (codes "run", decimal serial) ∷ (codes "branch", list_text (map decimal branch.now)) ∷ (codes "item", item_text units.now item.now) ∷ [])) }
{
    text.push_str("{\"worker\":")?;
    push_number(text, u64::from(worker))?;
    text.push_str(",\"run\":")?;
    push_number(text, serial)?;
    text.push_str(",\"branch\":")?;
    push_numbers(text, branch)?;
    text.push_str(",\"item\":")?;
    push_item(alloc, text, units, item)?;
    text.push_byte(b'}')?;
    Ok(())
}

fn push_again(text: &mut Word, number: u32) -> Result<(), AllocError>
    ensures { OnOk result (text.new ≡ text.old ++ one_key (codes "again") (decimal number)) }
{
    text.push_str("{\"again\":")?;
    push_number(text, u64::from(number))?;
    text.push_byte(b'}')?;
    Ok(())
}

/// Appends an entry.
fn push_entry(
    alloc: Global,
    text: &mut Word,
    entry: &Entry,
    units: &Many<Word>,
) -> Result<(), AllocError>
    requires { AreDated entry.now }
    ensures { OnOk result (text.new ≡ text.old ++ entry_text units.now entry.now) }
{
    match entry {
        Entry::Boot {
            text: written,
            stored,
            start,
            zone,
            carry,
            ..
        } => push_boot(
            alloc,
            text,
            written,
            stored,
            carry.get().last.as_slice(),
            *start,
            zone,
        ),
        Entry::Line {
            source,
            number,
            cmd,
        } => push_line(alloc, text, *source, *number, cmd),
        Entry::Step {
            worker,
            serial,
            branch,
            item,
        } => push_step(
            alloc,
            text,
            units,
            *worker,
            *serial,
            branch.as_slice(),
            item,
        ),
        Entry::Again { number, .. } => push_again(text, *number),
    }
}

/// Writes the line of an entry in the trace in the place of a text, where the units have these names by their numbers.
pub fn trace_line(
    alloc: Global,
    line: &mut Word,
    entry: &Entry,
    units: &Many<Word>,
) -> Result<(), AllocError>
    requires { AreDated entry.now }
    ensures { OnOk result (line.new ≡ trace_line_lem units.now entry.now) }
{
    line.clear();
    push_entry(alloc, line, entry, units)?;
    line.push_byte(b'\n')?;
    Ok(())
}
