//! The last segment so far, and what is in force after it.
ghost use Rattle.std.specs.Prelude.{◌≡◌, ◌<◌, ◌^◌, Some, length};
ghost use Rattle.ha_journal.specs.Force.{IsAlike, force};
ghost use Rattle.ha_journal.specs.Journal.{HasEntry, automations, configured, helpers, units};
ghost use Rattle.ha_model.specs.Records.{actions_of};
ghost use Rattle.unit_book.specs.Book.{Holds, config_at as config_at_lem};
ghost use Rattle.segment_view.specs.Views.{HasBoot, IsStepper, seen_at};

use crate::entries::Entries;
use ha_model::{Action, Config, Entry};
use std::marker::Model;
use unit_book::{UnitBook, config_at};

/// The configuration of the boot, which stands first.
fn first_config(journal: &[Entry]) -> &Config
    requires { HasBoot journal.now }
    ensures { config_at_lem journal.now 0 ≡ Some result.now }
{
    match config_at(journal, 0) {
        Some(config) => config,
        None => unreachable!(),
    }
}

/// The last segment of a journal, as it lies at the end of the flat list of all entries. Contracts see it read alone: a list that begins
/// with a Boot, where the run of a Step counts from the segment's first.
#[derive(Drop)]
pub struct Behind<'a> {
    entries: Entries<'a>,
    /// All entries.
    journal: &'a [Entry],
    /// Where the units of the segment stand among them.
    book: &'a UnitBook,
}

impl<'a> Model for Behind<'a> {
    ghost use Rattle.std.specs.Coded.{codes};
    ghost use Rattle.ha_journal.specs.contracts.entry.Entry as item;
    ghost use Rattle.ha_journal.specs.Journal.{Journal};
    ghost use Rattle.segment_view.specs.Views.{HoldsBehind};

    ghost Value = { Journal };

    ghost coded = { Prim.hlevel (codes, item.the_row.coded) };

    ghost view = { λ s. s.entries };

    ghost invariant = { λ s. HoldsBehind s.journal.now s.entries s.book.now };
}

impl<'a> Behind<'a> {
    /// Of the list of all entries: the segment has `front` entries before it, and `base` runs. The book says where its units stand.
    pub fn make(journal: &'a [Entry], front: usize, base: u64, book: &'a UnitBook) -> Behind<'a>
        requires boot { HasBoot journal.now }
        requires front { front < length journal.now }
        requires few { length journal.now < 2 ^ 56 }
        requires held { Holds journal.now (force (seen_at journal.now front base)) book.now }
        ensures { result ≡ seen_at journal.entry.now front base }
    {
        let entries = Entries::make(journal, front, base);
        Behind {
            entries,
            journal,
            book,
        }
    }

    /// The configuration in force.
    pub fn configuration(&self) -> &Config
        ensures automations { result.now.automations ≡ automations self.now }
        ensures configured { IsAlike result.now (configured self.now) }
        ensures some { HasEntry self.now }
    {
        self.book.configuration(self.journal)
    }

    /// The configuration of the boot: its helpers are those of each segment, whatever was reloaded.
    pub fn first_configuration(&self) -> &Config
        ensures { result.now.helpers ≡ helpers self.now }
    {
        first_config(self.journal)
    }

    /// The actions of a unit, by its number; one that names none has no action.
    pub fn script(&self, unit: u32) -> &[Action]
        ensures { result.now ≡ actions_of (units self.now) unit }
    {
        self.book.actions(self.journal, unit)
    }

    /// All entries, and where the units of the segment stand among them.
    pub fn known(&self) -> (&[Entry], &UnitBook)
        ensures { Holds result.0.now (force self.now) result.1.now }
    {
        (self.journal, self.book)
    }

    /// How many entries there are: the place of the one that stands next.
    pub fn len(&self) -> usize
        ensures len { result ≡ length self.now }
        ensures few { result < 2 ^ 56 }
    {
        self.entries.len()
    }

    /// The run whose Step stands at a place.
    pub fn stepper(&self, place: u64) -> Option<u64>
        ensures { IsStepper self.now place result }
    {
        self.entries.stepper(place)
    }
}
