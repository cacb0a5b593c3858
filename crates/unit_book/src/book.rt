//! Where the units of a segment stand in the list of all entries.
ghost use Rattle.std.specs.Prelude.{◌≡◌, IfOk, IfSome, IsTrue, Some, length, option_map, slice_get};
ghost use Rattle.std.specs.Option.{option_copied};
ghost use Rattle.ha_config.specs.declared.config.Config.{Config as Settings};
ghost use Rattle.ha_config.specs.Names.{unit_of};
ghost use Rattle.ha_config.specs.Sound.{IsSoundConfig, are_sound_actions, is_sound_automation};
ghost use Rattle.ha_journal.specs.Force.{Force, IsAlike, force, in_place_of, opened, reloaded};
ghost use Rattle.ha_model.specs.Records.{actions_of};
ghost use Rattle.unit_book.specs.Book.{AreAt, Holds, config_at as config_lem, unit_told};
ghost use Rattle.unit_book.specs.Opens.{IsMade, Opens, Reloads};

use crate::grown::{add_origins, copied_origins, firsts_of, listed_at, names_at};
use crate::places::{actions_by, config_at, unit_by};
use ha_config::{Action, Automation, Config, Script};
use ha_journal::Entry;
use ha_value::{Many, Word};
use std::alloc::{AllocError, Global};

/// Where the units of a segment stand in the list of all entries.
#[derive(Drop)]
pub struct UnitBook {
    /// The place of the entry whose configuration is in force.
    pub(crate) latest: usize,
    /// By number: the place of the entry that brought the unit, and its place among the units of that one's configuration.
    pub(crate) origins: Vec<(usize, u32)>,
    /// By number: the name that the unit's runs have.
    pub(crate) names: Many<Word>,
    /// By number: the first number whose unit has the same name.
    pub(crate) firsts: Vec<u32>,
    /// By number: whether an automation in force has the unit's name.
    pub(crate) listed: Vec<bool>,
}

/// Where the unit of a number stands, if there is one.
fn origin_of(origins: &[(usize, u32)], unit: u32) -> Option<(usize, u32)>
    ensures { result ≡ slice_get origins.now unit }
{
    match origins.get(unit as usize) {
        Some(origin) => Some(*origin),
        None => None,
    }
}

/// The book where the configuration at a place comes into force, with these origins; so many of the first numbers are known.
fn made(
    alloc: Global,
    journal: &[Entry],
    latest: usize,
    origins: Vec<(usize, u32)>,
    known: &[u32],
) -> Result<UnitBook, AllocError>
    requires { IsMade journal.now origins.items known.now }
    ensures { IfOk result (λ b. (f : Force) → option_map (in_place_of f.config) (config_lem journal.now latest) ≡ Some f.config → IfSome (config_lem journal.now latest) IsSoundConfig
        → AreAt journal.now origins.items f.units → Holds journal.now f b) }
{
    let names = names_at(alloc, journal, origins.as_slice())?;
    let firsts = firsts_of(alloc, known, names.as_slice())?;
    let listed = listed_at(alloc, journal, latest, names.as_slice())?;
    Ok(UnitBook {
        latest,
        origins,
        names,
        firsts,
        listed,
    })
}

impl UnitBook {
    /// What a boot, or the opening of a segment, begins: the configuration at this place is in force, and its units have the numbers from 0
    /// on, the automations first.
    pub fn open(
        alloc: Global,
        journal: &[Entry],
        latest: usize,
        numbers: &Many<u32>,
    ) -> Result<UnitBook, AllocError>
        requires { Opens journal.now latest numbers.now }
        ensures { IfOk result (λ b. (c : Settings) → option_map (in_place_of c) (config_lem journal.now latest) ≡ Some c → Holds journal.now (opened c) b) }
    {
        let mut origins = Vec::new(alloc);
        add_origins(&mut origins, latest, 0, numbers.as_slice())?;
        let book = made(alloc, journal, latest, origins, &[])?;
        Ok(book)
    }

    /// What a reload makes of it, which stands last: its units have these numbers, the automations first.
    pub fn reloaded(
        &self,
        alloc: Global,
        journal: &[Entry],
        numbers: &Many<u32>,
    ) -> Result<UnitBook, AllocError>
        requires { Reloads journal.now numbers.now self.now }
        ensures { IfOk result (λ b. (h : Reloads journal.now numbers.now self.now) → Holds journal.now (reloaded (force h.s) h.c) b) }
    {
        let latest = journal.len() - 1;
        let mut origins = copied_origins(alloc, self.origins.as_slice())?;
        add_origins(&mut origins, latest, self.origins.len(), numbers.as_slice())?;
        let book = made(alloc, journal, latest, origins, self.firsts.as_slice())?;
        Ok(book)
    }

    /// The place of the entry whose configuration is in force.
    pub fn latest(&self) -> usize
        ensures { result ≡ self.now.latest }
    {
        self.latest
    }

    /// How many units were in force at some time: the next number.
    pub fn count(&self) -> usize
        ensures { result ≡ length self.now.origins.items }
    {
        self.origins.len()
    }

    /// The names that the runs of all units have, by the units' numbers.
    pub fn names(&self) -> &Many<Word>
        ensures { result.now ≡ self.now.names }
    {
        &self.names
    }

    /// For each number the first one whose unit has the same name.
    pub fn firsts(&self) -> &[u32]
        ensures { result.now ≡ self.now.firsts.items }
    {
        self.firsts.as_slice()
    }

    /// For each number whether an automation in force has the unit's name.
    pub fn listed(&self) -> &[bool]
        ensures { result.now ≡ self.now.listed.items }
    {
        self.listed.as_slice()
    }

    /// The configuration in force.
    pub fn configuration<'a>(&self, journal: &'a [Entry]) -> &'a Config
        requires { (f : Force) × Holds journal.now f self.now }
        ensures { (f : Force) → Holds journal.now f self.now → IsAlike result.now f.config }
    {
        match config_at(journal, self.latest) {
            Some(config) => config,
            None => unreachable!(),
        }
    }

    /// The actions of a unit; a number that names none has no action.
    pub fn actions<'a>(&self, journal: &'a [Entry], unit: u32) -> &'a [Action]
        ensures { (f : Force) → Holds journal.now f self.now → result.now ≡ actions_of f.units unit }
    {
        match origin_of(self.origins.as_slice(), unit) {
            Some(origin) => actions_by(journal, origin),
            None => &[],
        }
    }

    /// The automation of a number, or the script, where one was in force with it at some time.
    pub fn unit<'a>(
        &self,
        journal: &'a [Entry],
        unit: u32,
    ) -> (Option<&'a Automation>, Option<&'a Script>)
        ensures unit { (f : Force) → Holds journal.now f self.now → unit_told (option_copied result.0) (option_copied result.1) ≡ unit_of f.units unit }
        ensures rule { (f : Force) → Holds journal.now f self.now → IfSome (option_copied result.0) (λ a. IsTrue (is_sound_automation a)) }
        ensures script { (f : Force) → Holds journal.now f self.now → IfSome (option_copied result.1) (λ s. IsTrue (are_sound_actions s.actions)) }
    {
        match origin_of(self.origins.as_slice(), unit) {
            Some(origin) => unit_by(journal, origin),
            None => (None, None),
        }
    }
}
