//! The last segment with its last entry.
ghost use Rattle.std.specs.Prelude.{◌≡◌, ◌+◌, ◌<◌, ◌≤◌, ◌^◌, Some, length, slice_get, take};
ghost use Rattle.ha_journal.specs.declared.entry.Entry.{Entry as Item};
ghost use Rattle.ha_journal.specs.Force.{IsAlike, force};
ghost use Rattle.ha_journal.specs.Journal.{Journal, automations, configured, last_place, more, units};
ghost use Rattle.ha_model.specs.Records.{actions_of};
ghost use Rattle.unit_book.specs.Book.{Holds};
ghost use Rattle.segment_view.specs.Views.{HasBoot, HoldsLast, IsStepper, seen_at};

use crate::entries::{Entries, serial_of};
use ha_model::{Action, Config, Entry};
use std::marker::Model;
use unit_book::UnitBook;

/// The entries of a segment so far, and one more that stands behind them. That one is seen as it is: where it is a Step, its run counts
/// from the segment's first already. What is in force is that with the last entry.
#[derive(Drop)]
pub struct Segment<'a> {
    entries: Entries<'a>,
    last: &'a Entry,
    /// All entries.
    journal: &'a [Entry],
    /// Where the units of the segment stand among them.
    book: &'a UnitBook,
}

impl<'a> Model for Segment<'a> {
    ghost use Rattle.std.specs.Coded.{codes};
    ghost use Rattle.ha_journal.specs.contracts.entry.Entry as item;
    ghost use Rattle.ha_journal.specs.Journal.{Journal};
    ghost use Rattle.ha_journal.specs.Journal.{more};
    ghost use Rattle.segment_view.specs.Views.{IsHeld};

    ghost Value = { Journal };

    ghost coded = { Prim.hlevel (codes, item.the_row.coded) };

    ghost view = { λ s. more s.entries s.last.now };

    ghost invariant = { λ s. IsHeld s.journal.now (more s.entries s.last.now) s.book.now };
}

/// The entries before a place.
fn front_of(journal: &[Entry], at: usize) -> &[Entry]
    requires { at ≤ length journal.now }
    ensures { result.now ≡ take at journal.now }
{
    &journal[..at]
}

/// The entry at a place.
fn entry_at(journal: &[Entry], at: usize) -> &Entry
    requires { at < length journal.now }
    ensures { slice_get journal.now at ≡ Some result.now }
{
    &journal[at]
}

impl<'a> Segment<'a> {
    /// Of the list of all entries, the last of which stands behind what opened the segment: that has `front` entries before it, and
    /// `base` runs. The book says where the units stand that there are with the last entry.
    pub fn of_list(journal: &'a [Entry], front: usize, base: u64, book: &'a UnitBook) -> Segment<'a>
        requires boot { HasBoot journal.now }
        requires front { front + 1 < length journal.now }
        requires few { length journal.now < 2 ^ 56 }
        requires held { HoldsLast journal.now front base book.now }
        ensures { (j : Journal) (x : Item) → journal.entry.now ≡ more j x → result ≡ more (seen_at j front base) x }
    {
        let at = journal.len() - 1;
        let entries = Entries::make(front_of(journal, at), front, base);
        let last = entry_at(journal, at);
        Segment {
            entries,
            last,
            journal,
            book,
        }
    }

    /// The configuration in force.
    pub fn configuration(&self) -> &Config
        ensures automations { result.now.automations ≡ automations self.now }
        ensures configured { IsAlike result.now (configured self.now) }
    {
        self.book.configuration(self.journal)
    }

    /// The actions of a unit, by its number; one that names none has no action.
    pub fn script(&self, unit: u32) -> &[Action]
        ensures { result.now ≡ actions_of (units self.now) unit }
    {
        self.book.actions(self.journal, unit)
    }

    /// All entries, and where the units of the segment stand among them.
    pub fn known(&self) -> (&[Entry], &UnitBook)
        ensures { Holds result.0.now (force self.now) result.1.now }
    {
        (self.journal, self.book)
    }

    /// The last entry.
    pub fn last_entry(&self) -> &Entry
        ensures { (j : Journal) (x : Item) → self.now ≡ more j x → result.now ≡ x }
    {
        self.last
    }

    /// The place of the last entry.
    pub fn place(&self) -> u64
        ensures place { result ≡ last_place self.now }
        ensures few { result < 2 ^ 56 }
    {
        self.entries.len() as u64
    }

    /// The run whose Step stands at a place.
    pub fn stepper(&self, place: u64) -> Option<u64>
        ensures { IsStepper self.now place result }
    {
        if place == self.place() {
            return serial_of(self.last, 0);
        }
        self.entries.stepper(place)
    }
}
