//! The latest number of each reported entity and attribute, and of each helper, since the last Restart.
ghost use Rattle.std.specs.Prelude.{◌≡◌, Option, None, IfOk, OnOk, string_bytes, true, if◌then◌else◌};
ghost use Rattle.std.specs.BTreeMap.{get_by_text};
ghost use Rattle.std.specs.Option.{option_copied};
ghost use Rattle.ha_value.specs.declared.value.EntityId.{EntityId as Entity};
ghost use Rattle.ha_value.specs.Ids.{for_id};
ghost use Rattle.ha_config.specs.Words.{Text, same, same_entity};
ghost use Rattle.ha_sight.specs.Conditions.{number_watched};
ghost use Rattle.ha_journal.specs.Entries.{changes_in, opens_segment};
ghost use Rattle.ha_journal.specs.Moves.{report_number};
ghost use Rattle.ha_past.specs.Looks.{or_else};
ghost use Rattle.trig_set.specs.Table.{begins_as_number, number_among, number_at, number_given, number_of, number_reported, numbers_in};

use crate::attributes::put_attributes;
use crate::moved::opens;
use ha_config::Cmd;
use ha_journal::Entry;
use ha_sight::{HelperChange, Item};
use ha_value::{EntityId, Many, Num, Value, Word, begins_number};
use std::alloc::{AllocError, Global};
use std::collections::BTreeMap;

/// The latest numbers of one entity.
#[derive(Drop)]
pub struct Latest {
    /// Of its state text.
    pub own: Option<Num>,
    /// Of its attributes, by name.
    pub attributes: BTreeMap<String, Num>,
}

/// The latest numbers, by id and attribute.
#[derive(Drop)]
pub struct Numbers {
    pub entities: BTreeMap<String, Latest>,
}

impl Numbers {
    /// The latest number of an entity, or of its attribute.
    pub fn latest(&self, entity: &EntityId, attribute: Option<&Word>) -> Option<Num>
        ensures { result ≡ number_at self.now entity.now (option_copied attribute.entry) }
    {
        let latest = self.of_entity(entity)?;
        match attribute {
            None => latest.own,
            Some(name) => latest.attributes.get(name.as_str()).copied(),
        }
    }

    /// The numbers of an entity.
    fn of_entity(&self, entity: &EntityId) -> Option<&Latest>
        ensures { option_copied result ≡ for_id None (get_by_text self.now.entities) entity.now }
    {
        self.entities.get(entity.text())
    }

    /// The numbers that a report gives, or changes of helpers; a Boot and a Restart forget all.
    pub fn note(&mut self, alloc: Global, entry: &Entry) -> Result<(), AllocError>
        ensures { OnOk result ((e : Entity) (name : Option Text) → number_at self.new e name ≡ (if opens_segment entry.now then None else or_else (report_number e name entry.now) (number_at self.old e name))) }
    {
        if opens(entry) {
            self.entities.clear();
            return Ok(());
        }
        self.note_changes(alloc, entry)?;
        self.note_report(alloc, entry)
    }

    /// The numbers of a report, if the entry is one.
    fn note_report(&mut self, alloc: Global, entry: &Entry) -> Result<(), AllocError>
        ensures { OnOk result ((e : Entity) (name : Option Text) → number_at self.new e name ≡ or_else (number_reported e name entry.now) (number_at self.old e name)) }
    {
        match entry {
            Entry::Line {
                cmd: Cmd::Report {
                    entity,
                    text,
                    attributes,
                },
                ..
            } => self.report(alloc, entity, text, attributes),
            _ => Ok(()),
        }
    }

    /// The numbers of changes of helpers, if the entry makes some.
    fn note_changes(&mut self, alloc: Global, entry: &Entry) -> Result<(), AllocError>
        ensures { OnOk result ((e : Entity) (name : Option Text) → number_at self.new e name ≡ or_else (number_among e name (changes_in entry.now)) (number_at self.old e name)) }
    {
        match entry {
            Entry::Step {
                item: Item::Helped(changes),
                ..
            } => self.changed(alloc, changes.as_slice()),
            _ => Ok(()),
        }
    }

    /// The numbers of changes of helpers, the last change first: so the first number of a helper counts.
    fn changed(&mut self, alloc: Global, changes: &[HelperChange]) -> Result<(), AllocError>
        ensures { OnOk result ((e : Entity) (name : Option Text)
            → number_at self.new e name ≡ or_else (number_among e name changes.now) (number_at self.old e name)) }
    {
        let none = Many::make(alloc);
        let mut left = changes.len();
        'changes: while 0 < left {
            left -= 1;
            let change = &changes[left];
            self.report(alloc, &change.entity, &change.text, &none)?;
        }
        Ok(())
    }

    /// The numbers of a report; where it gives none, the latest one stays.
    pub fn report(
        &mut self,
        alloc: Global,
        entity: &EntityId,
        text: &Word,
        attributes: &Many<(Word, Value)>,
    ) -> Result<(), AllocError>
        ensures { OnOk result ((e : Entity) (name : Option Text)
            → number_at self.new e name ≡ or_else (if same_entity entity.now e then number_watched name text.now attributes.now else None) (number_at self.old e name)) }
    {
        if gives_none(text, attributes) {
            return Ok(());
        }
        self.read(alloc, entity, text, attributes)
    }

    /// The same, where it may give some. Its locals are a function's own, so that a text that is plainly no number makes no room for them.
    #[inline(never)]
    fn read(
        &mut self,
        alloc: Global,
        entity: &EntityId,
        text: &Word,
        attributes: &Many<(Word, Value)>,
    ) -> Result<(), AllocError>
        ensures { OnOk result ((e : Entity) (name : Option Text)
            → number_at self.new e name ≡ or_else (if same_entity entity.now e then number_watched name text.now attributes.now else None) (number_at self.old e name)) }
    {
        let own = Num::read(text.bytes());
        if own.is_none() && attributes.is_empty() {
            return Ok(());
        }
        self.put(alloc, entity, own, attributes)
    }

    /// The numbers of the entity's state text and its attributes.
    fn put(
        &mut self,
        alloc: Global,
        entity: &EntityId,
        own: Option<Num>,
        attributes: &Many<(Word, Value)>,
    ) -> Result<(), AllocError>
        ensures { OnOk result ((e : Entity) (name : Option Text)
            → number_at self.new e name ≡ or_else (if same_entity entity.now e then number_given own attributes.now name else None) (number_at self.old e name)) }
    {
        put_in(alloc, &mut self.entities, entity.text(), own, attributes)
    }
}

/// Whether a text begins as numbers do, with a sign or a digit.
fn begins_as_number(text: &[u8]) -> bool
    ensures { result ≡ begins_as_number text.now }
{
    match text {
        [] => false,
        [first, ..] => begins_number(*first),
    }
}

/// Whether a report gives no number at first sight: it has no attributes, and its text begins otherwise.
fn gives_none(text: &Word, attributes: &Many<(Word, Value)>) -> bool
    ensures { result ≡ true → (name : Option Text) → number_watched name text.now attributes.now ≡ None }
{
    attributes.is_empty() && !begins_as_number(text.bytes())
}

/// The text as a key.
pub fn key_of(alloc: Global, word: &Word) -> Result<String, AllocError>
    ensures { IfOk result (λ key. string_bytes key ≡ word.now) }
{
    String::from_str(alloc, word.as_str())
}

/// The same, of the entity with this id.
fn put_in(
    alloc: Global,
    entities: &mut BTreeMap<String, Latest>,
    id: &str,
    own: Option<Num>,
    attributes: &Many<(Word, Value)>,
) -> Result<(), AllocError>
    ensures { OnOk result ((q : Text) (name : Option Text)
        → numbers_in entities.new q name ≡ or_else (if same id.now q then number_given own attributes.now name else None) (numbers_in entities.old q name)) }
{
    match entities.get_mut(id) {
        Some(latest) => put_numbers(alloc, latest, own, attributes),
        None => {
            let key = String::from_str(alloc, id)?;
            let fresh = BTreeMap::new(alloc);
            let mut latest = Latest {
                own: None,
                attributes: fresh,
            };
            put_numbers(alloc, &mut latest, own, attributes)?;
            entities.insert(key, latest)?;
            Ok(())
        }
    }
}

/// The same, of one entity.
fn put_numbers(
    alloc: Global,
    latest: &mut Latest,
    own: Option<Num>,
    attributes: &Many<(Word, Value)>,
) -> Result<(), AllocError>
    ensures { OnOk result ((name : Option Text)
        → number_of name latest.new ≡ or_else (number_given own attributes.now name) (number_of name latest.old)) }
{
    if let Some(number) = own {
        latest.own = Some(number);
    }
    put_attributes(alloc, &mut latest.attributes, attributes.as_slice())
}
