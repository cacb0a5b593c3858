//! What one place of the journal sees with the scripts of its configuration and its helpers: the core does the calls of these itself.
ghost use Rattle.std.specs.Prelude.{◌≡◌, ◌+◌, ◌≤◌, IfOk, length};
ghost use Rattle.std.specs.Option.{option_map_or};
ghost use Rattle.ha_clock.specs.Local.{last_moment};
ghost use Rattle.ha_sight.specs.Inner.{inner_of_helpers};
ghost use Rattle.helper_set.specs.Kept.{AreSeen, kept_in};
ghost use Rattle.script_calls.specs.Numbered.{scripts_seen};
ghost use Rattle.script_calls.specs.Seen.{sees};
ghost use Rattle.script_calls.specs.With.{sight_with};

use crate::seeing::Seeing;
use crate::services::resolve;
use cond_eval::View;
use ha_clock::{Moment, Zone};
use ha_config::{Condition, Config, Template};
use ha_sight::{Answers, Env, Inner, Item, TplFault};
use ha_value::{EntityId, Many, Value, Word};
use helper_set::Helpers;
use state_table::StateTable;
use std::alloc::{AllocError, Global};

impl<'a> Seeing<'a> {
    /// What these parts see; the numbers are those of the configuration's units, automations first.
    pub fn make(
        states: &'a StateTable,
        config: &'a Config,
        numbers: &'a Many<u32>,
        zone: &'a Zone,
        at: Moment,
        helpers: &'a Helpers,
    ) -> Seeing<'a>
        requires timely { at ≤ last_moment }
        requires numbered { length config.now.automations + length config.now.scripts ≤ length numbers.now }
        requires seen { AreSeen (kept_in helpers.now) (sight_with states.now numbers.now config.now zone.now at helpers.now) at }
        ensures sees { sees result ≡ sight_with states.entry.now numbers.entry.now config.entry.now zone.entry.now at helpers.entry.now }
        ensures timely { (sees result).now ≤ last_moment }
    {
        Seeing {
            view: View::make(states, config, numbers, zone, at),
            helpers,
        }
    }

    /// What becomes of a call that is none of scripts.
    fn helped(
        &self,
        alloc: Global,
        service: &Word,
        target: &Many<EntityId>,
        fields: &Many<(Word, Value)>,
    ) -> Result<Inner, AllocError>
        ensures { IfOk result (λ inner. inner ≡ inner_of_helpers (sees self.now) service.now target.now fields.now) }
    {
        let inner = self
            .helpers
            .resolve(alloc, service, target, fields, self.view.at)?;
        Ok(inner)
    }

    /// What becomes of a call that has this item, if it is one of scripts.
    fn inner_by(
        &self,
        alloc: Global,
        own: Option<Item>,
        service: &Word,
        target: &Many<EntityId>,
        fields: &Many<(Word, Value)>,
    ) -> Result<Inner, AllocError>
        ensures { IfOk result (λ inner. inner ≡ option_map_or Inner.Does own (inner_of_helpers (sees self.now) service.now target.now fields.now)) }
    {
        match own {
            Some(item) => Ok(Inner::Does(item)),
            None => self.helped(alloc, service, target, fields),
        }
    }
}

impl<'a> Answers for Seeing<'a> {
    ghost sight = { sees };

    fn render(&self, alloc: Global, template: &Template, env: &Env) -> Result<Value, TplFault> {
        self.view.render(alloc, template, env)
    }

    fn test(&self, alloc: Global, condition: &Condition, env: &Env) -> Result<bool, AllocError> {
        self.view.test(alloc, condition, env)
    }

    fn now(&self) -> Moment {
        self.view.now()
    }

    fn automation(&self, id: &EntityId) -> Option<u32> {
        self.view.automation(id)
    }

    fn is_on(&self, automation: u32) -> bool {
        self.view.is_on(automation)
    }

    fn inner(
        &self,
        alloc: Global,
        service: &Word,
        target: &Many<EntityId>,
        fields: &Many<(Word, Value)>,
    ) -> Result<Inner, AllocError> {
        let view = &self.view;
        let own = resolve(alloc, view.config, view.numbers, service, target, fields)?;
        let inner = self.inner_by(alloc, own, service, target, fields)?;
        Ok(inner)
    }
}
