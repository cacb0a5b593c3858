//! The table of states.
ghost use Rattle.std.specs.Prelude.{◌≡◌, true, false, None, Some, codes, IfOk, MatchOption, OnErr, OnOk, is_some, option_and_then};
ghost use Rattle.std.specs.Option.{option_copied};
ghost use Rattle.ha_value.specs.declared.value.EntityId.{EntityId};
ghost use Rattle.ha_value.specs.Ids.{IsParts, read_entity};
ghost use Rattle.ha_sight.specs.StateStep.{next_object};
ghost use Rattle.state_table.specs.Domain.{change_of};
ghost use Rattle.state_table.specs.Anew.{is_automation, switch_object};
ghost use Rattle.state_table.specs.Table.{at, AgreesWith, ChangesAt};

use crate::domain::{Named, put_in, remove_from, report_in, report_over};
use crate::names::parts_of;
use ha_clock::Moment;
use ha_sight::{Change, StateObject};
use ha_value::{EntityId, Many, Value, Word};
use std::alloc::{AllocError, Global};
use std::collections::BTreeMap;

/// The states of all entities. Those of the automations stand apart, so that their names find them.
#[derive(Drop)]
pub struct StateTable {
    automations: Named,
    others: Named,
}

/// The object id, where the id is that of an automation.
fn automation_in(entity: &EntityId) -> Option<&str>
    ensures { MatchOption result (is_automation entity.now ≡ false) (λ name. (is_automation entity.now ≡ true) × (name.now ≡ entity.now.object)) }
{
    if entity.has_domain("automation") {
        Some(entity.object())
    } else {
        None
    }
}

impl StateTable {
    /// No states.
    pub fn make(alloc: Global) -> StateTable
        ensures { (e : EntityId) → at result e ≡ None }
    {
        StateTable {
            automations: BTreeMap::new(alloc),
            others: BTreeMap::new(alloc),
        }
    }

    /// The state of an entity, found in the logarithm of the number of entities.
    pub fn get(&self, entity: &EntityId) -> Option<&StateObject>
        ensures { option_copied result ≡ at self.now entity.now }
    {
        match automation_in(entity) {
            Some(name) => self.automations.get(name),
            None => self.others.get(entity.text()),
        }
    }

    /// The state of the entity that the text names; none where the text is no entity id.
    pub fn named(&self, id: &str) -> Option<&StateObject>
        ensures { option_copied result ≡ option_and_then (at self.now) (read_entity id.now) }
    {
        match parts_of(id) {
            Some((domain, object)) => self.of_parts(id, domain, object),
            None => None,
        }
    }

    /// The state of the entity of which these are the id and its two parts.
    fn of_parts(&self, id: &str, domain: &str, object: &str) -> Option<&StateObject>
        requires { IsParts id.now domain.now object.now }
        ensures { option_copied result ≡ at self.now (record { domain = domain.now; object = object.now }) }
    {
        if domain == "automation" {
            self.automations.get(object)
        } else {
            self.others.get(id)
        }
    }

    /// The state of the automation of this name.
    pub fn automation(&self, name: &str) -> Option<&StateObject>
        ensures { option_copied result ≡ at self.now (record { domain = codes "automation"; object = name.now }) }
    {
        self.automations.get(name)
    }

    /// A report of an entity, after which Now is `now`. After an error the states are as before.
    pub fn report(
        &mut self,
        alloc: Global,
        entity: &EntityId,
        text: &Word,
        attributes: &Many<(Word, Value)>,
        now: Moment,
    ) -> Result<Change, AllocError>
        ensures change { IfOk result (λ change. change ≡ change_of (at self.old entity.now) text.now attributes.now) }
        ensures ok { OnOk result (ChangesAt self.old self.new entity.now (Some (next_object (at self.old entity.now) text.now attributes.now now))) }
        ensures err { OnErr result (AgreesWith self.old self.new) }
    {
        match automation_in(entity) {
            Some(name) => report_in(alloc, &mut self.automations, name, text, attributes, now),
            None => report_in(
                alloc,
                &mut self.others,
                entity.text(),
                text,
                attributes,
                now,
            ),
        }
    }

    /// A report as above; the answer is the state that the entity had before it.
    pub fn report_over(
        &mut self,
        alloc: Global,
        entity: &EntityId,
        text: &Word,
        attributes: &Many<(Word, Value)>,
        now: Moment,
    ) -> Result<Option<StateObject>, AllocError>
        ensures before { IfOk result (λ before. before ≡ at self.old entity.now) }
        ensures ok { OnOk result (ChangesAt self.old self.new entity.now (Some (next_object (at self.old entity.now) text.now attributes.now now))) }
        ensures err { OnErr result (AgreesWith self.old self.new) }
    {
        match automation_in(entity) {
            Some(name) => report_over(alloc, &mut self.automations, name, text, attributes, now),
            None => report_over(
                alloc,
                &mut self.others,
                entity.text(),
                text,
                attributes,
                now,
            ),
        }
    }

    /// An entity goes; the answer is whether it was there.
    pub fn gone(&mut self, entity: &EntityId) -> bool
        ensures found { result ≡ is_some (at self.old entity.now) }
        ensures rest { ChangesAt self.old self.new entity.now None }
    {
        match automation_in(entity) {
            Some(name) => remove_from(&mut self.automations, name),
            None => remove_from(&mut self.others, entity.text()),
        }
    }

    /// A Restart takes all states away; the switches of the automations are then set one by one.
    pub fn clear(&mut self)
        ensures { (e : EntityId) → at self.new e ≡ None }
    {
        self.automations.clear();
        self.others.clear();
    }

    /// An automation was turned on or off, or booted or restarted, at `now`. After an error the
    /// states are as before.
    pub fn set_switch(
        &mut self,
        alloc: Global,
        entity: &EntityId,
        on: bool,
        now: Moment,
    ) -> Result<(), AllocError>
        ensures ok { OnOk result (ChangesAt self.old self.new entity.now (Some (switch_object on now))) }
        ensures err { OnErr result (AgreesWith self.old self.new) }
    {
        let object = switched(alloc, on, now)?;
        match automation_in(entity) {
            Some(name) => put_in(alloc, &mut self.automations, name, object),
            None => put_in(alloc, &mut self.others, entity.text(), object),
        }
    }
}

/// The state of an automation whose switch was set at that moment.
fn switched(alloc: Global, on: bool, now: Moment) -> Result<StateObject, AllocError>
    ensures { IfOk result (λ object. object ≡ switch_object on now) }
{
    let text = if on { "on" } else { "off" };
    Ok(StateObject {
        text: Word::from_str(alloc, text)?,
        attributes: Many::make(alloc),
        changed: now,
        updated: now,
    })
}
