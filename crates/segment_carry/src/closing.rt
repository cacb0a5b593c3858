//! The entry that opens the next segment.
ghost use Rattle.std.specs.Prelude.{◌≡◌, ◌+◌, ◌<◌, ◌≤◌, ◌^◌, ℕ, IfOk, Some, drop, length, slice_get, slice_index};
ghost use Rattle.ha_journal.specs.Entries.{BeginsSegment};
ghost use Rattle.ha_whole.specs.Whole.{again_of};
ghost use Rattle.segment_runs.specs.Segment.{all_of};
ghost use Rattle.segment_carry.specs.Closing.{Closes, again_made, carry_made};
ghost use Rattle.segment_carry.specs.Sources.{carry_in};

use crate::lists::{moments, rule_names, switches};
use crate::numbers::numbers;
use crate::order::by_name;
use crate::sources::given;
use ha_clock::Moment;
use ha_config::Config;
use ha_journal::{Carry, Entry};
use ha_value::{Boxed, Word};
use segment_runs::SegmentRuns;
use std::alloc::{AllocError, Global};
use switch_book::Switches;

/// What stands for a journal whose last segment closes.
#[derive(Drop)]
pub struct Closing<'a> {
    /// All entries, with the restart line.
    pub journal: &'a [Entry],
    /// How many of them stand before the last segment.
    pub front: usize,
    /// How many segments there are.
    pub segments: u32,
    /// The present moment.
    pub at: Moment,
    /// The configuration in force.
    pub config: &'a Config,
    /// The runs of the last segment, over those of all.
    pub runs: &'a SegmentRuns,
    /// The names of all units of the segment, by their numbers.
    pub names: &'a [Word],
    /// For each of these, the number of the last run of its name over all segments, and 0 where there is none.
    pub last: &'a [u64],
    /// The switches that the restart leaves.
    pub switches: &'a Switches,
    /// By automation, as configured, when one of its name last triggered.
    pub lasts: &'a [Option<Moment>],
}

/// The entry behind so many others.
fn entry_at(journal: &[Entry], front: usize) -> &Entry
    requires { front < length journal.now }
    ensures { slice_get journal.now front ≡ Some result.now }
{
    &journal[front]
}

/// The entries behind that one.
fn behind(journal: &[Entry], front: usize) -> &[Entry]
    requires { front < length journal.now }
    ensures { result.now ≡ drop (front + 1) journal.now }
{
    &journal[front + 1..]
}

/// What an opening took over.
fn carry_of(opening: &Entry) -> &Carry
    requires { BeginsSegment opening.now }
    ensures { result.now ≡ carry_in opening.now }
{
    match opening {
        Entry::Boot { carry, .. } => carry.get(),
        Entry::Again { carry, .. } => carry.get(),
        Entry::Line { .. } | Entry::Step { .. } => unreachable!(),
    }
}

/// How many runs there are, of all segments.
fn count_runs(runs: &SegmentRuns) -> u64
    ensures { result ≡ length (all_of runs.now.closed runs.now.list) }
{
    runs.all().len() as u64
}

/// What the next segment takes over: of all units by their names, and of the automations in force by theirs in this order, by what the
/// closed one took over, its entries behind its opening, how many runs there are, the last numbers of the units and the moments at which
/// the automations last triggered.
fn carry(
    alloc: Global,
    names: &[Word],
    rules: &[Word],
    by_rule: &[u32],
    before: &Carry,
    entries: &[Entry],
    serials: u64,
    last: &[u64],
    lasts: &[Option<Moment>],
) -> Result<Boxed<Carry>, AllocError>
    requires { (k : ℕ) → k < 16 → slice_index before.now.lines k + length entries.now < 2 ^ 64 }
    ensures { IfOk result (λ made. made ≡ carry_made names.now rules.now by_rule.now before.now entries.now serials last.now lasts.now) }
{
    let (lines, shut) = given(
        alloc,
        before.lines.as_slice(),
        before.shut.as_slice(),
        entries,
    )?;
    let carry = Carry {
        serials,
        numbers: numbers(alloc, &before.numbers, names, last)?,
        lines,
        shut,
        last: moments(alloc, rules, by_rule, lasts)?,
    };
    Boxed::new(alloc, carry)
}

/// The opening by these parts.
fn made(
    alloc: Global,
    rules: &[Word],
    before: &Carry,
    entries: &[Entry],
    closing: &Closing<'_>,
) -> Result<Entry, AllocError>
    requires rules { length rules.now ≤ 2_048 }
    requires lines { (k : ℕ) → k < 16 → slice_index before.now.lines k + length entries.now < 2 ^ 64 }
    ensures { IfOk result (λ entry. entry ≡ again_made closing.now.names.now rules.now before.now entries.now closing.now.segments closing.now.at (length (all_of closing.now.runs.now.closed closing.now.runs.now.list)) closing.now.last.now closing.now.switches.now closing.now.lasts.now) }
{
    let by_rule = by_name(alloc, rules)?;
    let stored = switches(alloc, rules, by_rule.as_slice(), closing.switches)?;
    let serials = count_runs(closing.runs);
    let carry = carry(
        alloc,
        closing.names,
        rules,
        by_rule.as_slice(),
        before,
        entries,
        serials,
        closing.last,
        closing.lasts,
    )?;
    Ok(Entry::Again {
        number: closing.segments,
        start: closing.at,
        stored,
        carry,
    })
}

/// The entry that opens the next segment behind the restart line, with which the journal ends. It changes nothing, and wants memory alone.
pub fn again(alloc: Global, closing: &Closing<'_>) -> Result<Entry, AllocError>
    requires { Closes closing.now.journal.now closing.now.front closing.now.segments closing.now.at closing.now.config.now closing.now.runs.now closing.now.names.now closing.now.last.now closing.now.switches.now closing.now.lasts.now }
    ensures { IfOk result (λ entry. entry ≡ again_of closing.now.journal.now) }
{
    let journal = closing.journal;
    let opening = entry_at(journal, closing.front);
    let rules = rule_names(alloc, closing.config.automations.as_slice())?;
    made(
        alloc,
        rules.as_slice(),
        carry_of(opening),
        behind(journal, closing.front),
        closing,
    )
}
