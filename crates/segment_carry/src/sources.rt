//! How many lines the sources gave, and which of them have no further line.
ghost use Rattle.std.specs.Prelude.{◌≡◌, ◌+◌, ◌<◌, ◌^◌, ◌&&◌, ◌||◌, ◌++◌, ◌∷◌, [], ℕ, IfOk, OnOk, length, count_by, filter, map, nat_eq, slice_index, vec_len, if◌then◌else◌};
ghost use Rattle.std.specs.List.{list_any};
ghost use Rattle.ha_config.specs.Fair.{shuts_source as shuts_lem};
ghost use Rattle.ha_config.specs.Words.{up_to};
ghost use Rattle.ha_model.specs.Lawful.{is_line_of, shuts};
ghost use Rattle.segment_carry.specs.Sources.{is_true_at, lines_with, shut_with};

use ha_config::Cmd;
use ha_journal::Entry;
use ha_value::Many;
use std::alloc::{AllocError, Global};

/// How many sources there are at most.
const SOURCES: u32 = 16;

/// Whether a source has no further line behind one with this command.
fn shuts_source(cmd: &Cmd) -> bool
    ensures { result ≡ shuts_lem cmd.now }
{
    matches!(cmd, Cmd::Lost | Cmd::TooLong)
}

/// One line more of a source.
fn count_line(lines: &mut Vec<u64>, at: usize)
    requires { (k : ℕ) → k < vec_len lines.old → slice_index lines.old.items k + 1 < 2 ^ 64 }
    ensures lines { (k : ℕ) → k < vec_len lines.old → slice_index lines.new.items k ≡ slice_index lines.old.items k + (if nat_eq at k then 1 else 0) }
    ensures len { vec_len lines.new ≡ vec_len lines.old }
{
    if at < lines.len() {
        lines[at] += 1;
    }
}

/// Where it `shuts` a source, that one has no further line.
fn mark_shut(shut: &mut Vec<bool>, at: usize, shuts: bool)
    ensures shut { (k : ℕ) → k < vec_len shut.old → is_true_at shut.new.items k ≡ (is_true_at shut.old.items k || (shuts && nat_eq at k)) }
    ensures len { vec_len shut.new ≡ vec_len shut.old }
{
    if shuts && at < shut.len() {
        shut[at] = true;
    }
}

/// What an entry tells of the sources.
fn note(lines: &mut Vec<u64>, shut: &mut Vec<bool>, entry: &Entry)
    requires { (k : ℕ) → k < vec_len lines.old → slice_index lines.old.items k + 1 < 2 ^ 64 }
    ensures lines { (k : ℕ) → k < vec_len lines.old → slice_index lines.new.items k ≡ slice_index lines.old.items k + (if is_line_of k entry.now then 1 else 0) }
    ensures shut { (k : ℕ) → k < vec_len shut.old → is_true_at shut.new.items k ≡ (is_true_at shut.old.items k || shuts k entry.now) }
    ensures lines_len { vec_len lines.new ≡ vec_len lines.old }
    ensures shut_len { vec_len shut.new ≡ vec_len shut.old }
{
    match entry {
        Entry::Line { source, cmd, .. } => {
            count_line(lines, *source as usize);
            mark_shut(shut, *source as usize, shuts_source(cmd));
        }
        Entry::Boot { .. } | Entry::Step { .. } | Entry::Again { .. } => {}
    }
}

/// What entries tell of the sources, one after the other.
fn note_all(lines: &mut Vec<u64>, shut: &mut Vec<bool>, entries: &[Entry])
    requires { (k : ℕ) → k < vec_len lines.old → slice_index lines.old.items k + length entries.now < 2 ^ 64 }
    ensures lines { (k : ℕ) → k < vec_len lines.old → slice_index lines.new.items k ≡ slice_index lines.old.items k + count_by (is_line_of k) entries.now }
    ensures shut { (k : ℕ) → k < vec_len shut.old → is_true_at shut.new.items k ≡ (is_true_at shut.old.items k || list_any (shuts k) entries.now) }
    ensures lines_len { vec_len lines.new ≡ vec_len lines.old }
    ensures shut_len { vec_len shut.new ≡ vec_len shut.old }
{
    'entries: for entry in entries {
        note(lines, shut, entry);
    }
}

/// How many lines a source gave before.
fn lines_at(lines: &[u64], source: u32) -> u64
    ensures { result ≡ slice_index lines.now source }
{
    match lines.get(source as usize) {
        Some(count) => *count,
        None => 0,
    }
}

/// How many lines each source gave before.
fn first_lines(alloc: Global, before: &[u64]) -> Result<Vec<u64>, AllocError>
    ensures { IfOk result (λ lines. lines.items ≡ map (λ k. slice_index before.now k) (up_to 16)) }
{
    let mut lines = Vec::with_capacity(alloc, SOURCES as usize)?;
    'sources: for source in 0..SOURCES {
        lines.push(lines_at(before, source))?;
    }
    Ok(lines)
}

/// Whether a source is among these.
fn is_among(sources: &[u32], source: u32) -> bool
    ensures { result ≡ list_any (nat_eq source) sources.now }
{
    sources.iter().any(|other| source == *other)
}

/// Whether each source had no further line before.
fn first_shut(alloc: Global, before: &[u32]) -> Result<Vec<bool>, AllocError>
    ensures { IfOk result (λ shut. shut.items ≡ map (λ k. list_any (nat_eq k) before.now) (up_to 16)) }
{
    let mut shut = Vec::with_capacity(alloc, SOURCES as usize)?;
    'sources: for source in 0..SOURCES {
        shut.push(is_among(before, source))?;
    }
    Ok(shut)
}

/// Puts a source behind those that have no further line, where it is one.
fn put_shut(sources: &mut Many<u32>, shut: &[bool], source: u32) -> Result<(), AllocError>
    ensures { OnOk result (sources.new ≡ sources.old ++ (if is_true_at shut.now source then source ∷ [] else [])) }
{
    if let Some(true) = shut.get(source as usize) {
        sources.push(source)?;
    }
    Ok(())
}

/// The sources that have no further line.
fn shut_list(alloc: Global, shut: &[bool]) -> Result<Many<u32>, AllocError>
    ensures { IfOk result (λ sources. sources ≡ filter (is_true_at shut.now) (up_to 16)) }
{
    let mut sources = Many::make(alloc);
    'sources: for source in 0..SOURCES {
        put_shut(&mut sources, shut, source)?;
    }
    Ok(sources)
}

/// How many lines each source gave, and which of them have no further line, with these entries: the first two lists say it of what stands
/// before them.
pub fn given(
    alloc: Global,
    lines: &[u64],
    shut: &[u32],
    entries: &[Entry],
) -> Result<(Many<u64>, Many<u32>), AllocError>
    requires { (k : ℕ) → k < 16 → slice_index lines.now k + length entries.now < 2 ^ 64 }
    ensures lines { IfOk result (λ told. told.0 ≡ lines_with lines.now entries.now) }
    ensures shut { IfOk result (λ told. told.1 ≡ shut_with shut.now entries.now) }
{
    let mut counts = first_lines(alloc, lines)?;
    let mut flags = first_shut(alloc, shut)?;
    note_all(&mut counts, &mut flags, entries);
    let sources = shut_list(alloc, flags.as_slice())?;
    Ok((Many::from_vec(counts), sources))
}
