//! The entries of the last segment so far.
ghost use Rattle.std.specs.Prelude.{◌≡◌, ◌-◌, ◌<◌, ◌^◌, length, option_map};
ghost use Rattle.ha_journal.specs.Entries.{step_of};
ghost use Rattle.ha_journal.specs.Journal.{HasEntry};
ghost use Rattle.segment_view.specs.Views.{HasBoot, IsStepper, seen_at};

use ha_model::Entry;
use std::marker::Model;

/// The entries of the last segment, as they lie at the end of the flat list of all entries.
#[derive(Drop)]
pub struct Entries<'a> {
    /// The first entry of the journal, with whose text and zone each of its segments is opened.
    boot: &'a Entry,
    /// The entries before the segment: contracts alone read them, for the configuration that was in force there.
    before: &'a [Entry],
    /// What opened the segment: the boot itself, or the Again behind a restart.
    opening: &'a Entry,
    /// The entries behind that.
    settled: &'a [Entry],
    /// How many runs there were before the segment.
    base: u64,
}

impl<'a> Model for Entries<'a> {
    ghost use Rattle.std.specs.Coded.{codes};
    ghost use Rattle.ha_journal.specs.contracts.entry.Entry as item;
    ghost use Rattle.ha_journal.specs.Journal.{Journal, configured};
    ghost use Rattle.segment_view.specs.Views.{seen_behind};

    ghost Value = { Journal };

    ghost coded = { Prim.hlevel (codes, item.the_row.coded) };

    ghost view = { λ s. seen_behind s.boot.now (configured s.before.now) s.opening.now s.settled.now s.base };

    ghost use Rattle.segment_view.specs.Views.{IsSeen};

    ghost invariant = { λ s. IsSeen s.boot.now s.settled.now };
}

/// The run of an entry that is a Step, by its serial less `base`.
pub fn serial_of(entry: &Entry, base: u64) -> Option<u64>
    ensures { result ≡ option_map (λ s. s.serial - base) (step_of entry.now) }
{
    match entry {
        Entry::Step { serial, .. } => Some(serial.saturating_sub(base)),
        _ => None,
    }
}

impl<'a> Entries<'a> {
    /// Of the list of all entries: the segment has `front` entries before it, and `base` runs.
    pub fn make(journal: &'a [Entry], front: usize, base: u64) -> Entries<'a>
        requires boot { HasBoot journal.now }
        requires front { front < length journal.now }
        requires few { length journal.now < 2 ^ 56 }
        ensures seen { result ≡ seen_at journal.entry.now front base }
        ensures some { HasEntry result }
    {
        Entries {
            boot: &journal[0],
            before: &journal[..front],
            opening: &journal[front],
            settled: &journal[front + 1..],
            base,
        }
    }

    /// How many entries there are: the place of the one that stands next.
    pub fn len(&self) -> usize
        ensures len { result ≡ length self.now }
        ensures few { result < 2 ^ 56 }
    {
        self.settled.len() + 1
    }

    /// The run whose Step stands at a place.
    pub fn stepper(&self, place: u64) -> Option<u64>
        ensures { IsStepper self.now place result }
    {
        let settled = self.settled;
        if place == 0 {
            return None;
        }
        match settled.get(place as usize - 1) {
            Some(entry) => serial_of(entry, self.base),
            None => None,
        }
    }
}
