//! What is stored, and whether the last put changed it.
ghost use Rattle.std.specs.Prelude.{◌≡◌, ◌&&◌, false, IfOk, map, nat_eq};
ghost use Rattle.ha_config.specs.Equal.{same_flag};
ghost use Rattle.ha_config.specs.StoreText.{in_name_order};
ghost use Rattle.ha_journal.specs.Entries.{is_reload};
ghost use Rattle.ha_journal.specs.States.{switches_of};
ghost use Rattle.ha_journal.specs.Journal.{automations};
ghost use Rattle.ha_model.specs.Records.{last_is};
ghost use Rattle.store_text.specs.Store.{AreMoments};
ghost use Rattle.ha_whole.specs.Lasts.{last_triggered, lasts};
ghost use Rattle.segment_carry.specs.ByName.{rule_order};
ghost use Rattle.engine_parts.specs.Numbers.{rule_numbers as numbers_of};
ghost use Rattle.ha_whole.specs.Segments.{segment};
ghost use Rattle.ha_whole.specs.Whole.{changes_store, same_pairs_by, store_text};
ghost use Rattle.ha_engine.specs.Noted.{changes_switches};

use crate::engine::Machine;
use crate::kept::{Kept, are_same_moments, are_same_switches};
use crate::lasts::{both, lasts_of_rules};
use crate::restart::{either, rule_numbers};
use ha_clock::Moment;
use ha_config::Automation;
use ha_value::{Many, Word};
use segment_carry::{rule_moments, rule_names, switches};
use std::alloc::{AllocError, Global};

impl Machine {
    /// What the store keeps.
    pub(crate) fn kept_now(&self) -> Result<Kept, AllocError>
        requires { self.now.is_spent ≡ false }
        ensures switches { IfOk result (λ k. k.switches ≡ in_name_order (switches_of (segment self.now.entries))) }
        ensures moments { IfOk result (λ k. k.moments ≡ in_name_order (lasts (segment self.now.entries))) }
    {
        let switches = self.switch_pairs()?;
        let moments = self.last_moments(self.alloc)?;
        Ok(Kept { switches, moments })
    }

    /// The automations in force, as configured.
    fn rules(&self) -> &[Automation]
        ensures { result.now ≡ automations (segment self.now.entries) }
    {
        self.book
            .configuration(self.journal.as_slice())
            .automations
            .as_slice()
    }

    /// Their places in the byte order of their names.
    fn ordered(&self) -> &[u32]
        requires { self.now.is_spent ≡ false }
        ensures { result.now ≡ rule_order (automations (segment self.now.entries)) }
    {
        self.order.as_slice()
    }

    /// Their numbers.
    fn numbered(&self) -> &[u32]
        requires { self.now.is_spent ≡ false }
        ensures { result.now ≡ numbers_of (segment self.now.entries) }
    {
        rule_numbers(&self.parts.numbers, self.configuration())
    }

    /// When each of them last triggered.
    fn triggered(&self, alloc: Global) -> Result<Vec<Option<Moment>>, AllocError>
        requires { self.now.is_spent ≡ false }
        ensures { IfOk result (λ ls. ls.items ≡ map (λ x. last_triggered (segment self.now.entries) x.name) (automations (segment self.now.entries))) }
    {
        lasts_of_rules(
            alloc,
            self.lasts.as_slice(),
            self.book.firsts(),
            self.numbered(),
        )
    }

    /// When automations last triggered, in the byte order of their names.
    fn last_moments(&self, alloc: Global) -> Result<Many<(Word, Moment)>, AllocError>
        requires { self.now.is_spent ≡ false }
        ensures moments { IfOk result (λ last. last ≡ in_name_order (lasts (segment self.now.entries))) }
        ensures storable { IfOk result AreMoments }
    {
        let lasts = self.triggered(alloc)?;
        rule_moments(alloc, self.rules(), self.order.as_slice(), lasts.as_slice())
    }

    /// The text that keeps the switches, and when automations last triggered.
    pub(crate) fn stored_text(&self, alloc: Global) -> Result<Word, AllocError>
        requires { self.now.is_spent ≡ false }
        ensures { IfOk result (λ text. text ≡ store_text self.now.entries) }
    {
        let last = self.last_moments(alloc)?;
        self.parts.switches.store_text(alloc, &last)
    }

    /// Whether the last put, or the boot, changed a switch, where it is no reload.
    fn has_switched(&self) -> bool
        requires kept { self.now.is_spent ≡ false }
        requires plain { last_is is_reload self.now.entries ≡ false }
        ensures { result ≡ changes_switches self.now.entries }
    {
        let opening = self.journal.len() == self.bounds.front + 1;
        if opening {
            self.reset
        } else {
            self.parts.changed
        }
    }

    /// The switches in the byte order of the names of their automations.
    fn switch_pairs(&self) -> Result<Many<(Word, bool)>, AllocError>
        requires { self.now.is_spent ≡ false }
        ensures { IfOk result (λ made. made ≡ in_name_order (switches_of (segment self.now.entries))) }
    {
        let names = rule_names(self.alloc, self.rules())?;
        switches(
            self.alloc,
            names.as_slice(),
            self.ordered(),
            &self.parts.switches,
        )
    }

    /// Whether these are the switches.
    fn keeps_switches(&self, switches: &Many<(Word, bool)>) -> bool
        requires { self.now.is_spent ≡ false }
        ensures { result ≡ same_pairs_by same_flag switches.now (in_name_order (switches_of (segment self.now.entries))) }
    {
        are_same_switches(
            switches.as_slice(),
            self.rules(),
            self.ordered(),
            self.parts.numbers.as_slice(),
            &self.parts.switches,
        )
    }

    /// Whether these are the moments at which automations last triggered.
    fn keeps_moments(&self, moments: &Many<(Word, Moment)>) -> bool
        requires { self.now.is_spent ≡ false }
        ensures { result ≡ same_pairs_by nat_eq moments.now (in_name_order (lasts (segment self.now.entries))) }
    {
        are_same_moments(
            moments.as_slice(),
            self.rules(),
            self.ordered(),
            self.lasts.as_slice(),
            self.book.firsts(),
            self.parts.numbers.as_slice(),
        )
    }

    /// Whether the store keeps now what it kept before the reload that stands last.
    fn keeps_same(&self, kept: &Kept) -> bool
        requires { self.now.is_spent ≡ false }
        ensures { result ≡ (same_pairs_by same_flag kept.now.switches (in_name_order (switches_of (segment self.now.entries)))
            && same_pairs_by nat_eq kept.now.moments (in_name_order (lasts (segment self.now.entries)))) }
    {
        both(
            self.keeps_switches(&kept.switches),
            self.keeps_moments(&kept.moments),
        )
    }

    /// Whether the last put, or the boot, changed what is stored.
    pub(crate) fn has_changed(&self) -> bool
        requires { self.now.is_spent ≡ false }
        ensures { result ≡ changes_store self.now.entries }
    {
        match &self.kept {
            Some(kept) => !self.keeps_same(kept),
            None => either(self.has_switched(), self.moved),
        }
    }
}
