//! What one place of the journal sees, and what it answers.
ghost use Rattle.std.specs.Prelude.{◌≡◌, ◌≤◌, length, nat_eq, zip};
ghost use Rattle.ha_clock.specs.Local.{last_moment};
ghost use Rattle.ha_config.specs.Names.{named_among};
ghost use Rattle.ha_config.specs.Words.{same};
ghost use Rattle.ha_sight.specs.Sight.{switch_at};
ghost use Rattle.cond_eval.specs.Seen.{is_shown_on, seen, shown_of, sight_of};

use crate::conditions::test;
use crate::view::View;
use ha_clock::{Moment, Zone};
use ha_config::{Automation, Condition, Config, Template};
use ha_sight::{Answers, Env, Inner, TplFault};
use ha_value::{EntityId, Many, Value, Word};
use state_table::StateTable;
use std::alloc::{AllocError, Global};
use tpl_eval::render;

impl<'a> View<'a> {
    /// The view of these parts.
    pub fn make(
        states: &'a StateTable,
        config: &'a Config,
        numbers: &'a Many<u32>,
        zone: &'a Zone,
        at: Moment,
    ) -> View<'a>
        requires timely { at ≤ last_moment }
        requires numbered { length config.now.automations ≤ length numbers.now }
        ensures seen { seen result ≡ sight_of states.entry.now numbers.entry.now config.entry.now zone.entry.now at }
        ensures config { result.config.now ≡ config.entry.now }
        ensures at { result.at ≡ at }
        ensures numbers { result.numbers.now ≡ numbers.entry.now }
    {
        View {
            states,
            config,
            numbers,
            zone,
            at,
        }
    }
}

/// Whether the state of the automation of this name says that it is on.
fn is_shown_on(states: &StateTable, name: &Word) -> bool
    ensures { result ≡ is_shown_on states.now name.now }
{
    match states.automation(name.as_str()) {
        Some(state) => state.text.as_str() == "on",
        None => false,
    }
}

fn is_named(automation: &Automation, name: &str) -> bool
    ensures { result ≡ same automation.now.name name.now }
{
    automation.name.bytes() == name.as_bytes()
}

/// The number of the automation of this name.
fn number_named(automations: &[Automation], numbers: &[u32], name: &str) -> Option<u32>
    requires { length automations.now ≤ length numbers.now }
    ensures { result ≡ named_among (zip numbers.now automations.now) name.now }
{
    for i in 0..automations.len() {
        let one = &automations[i];
        if is_named(one, name) {
            return Some(numbers[i]);
        }
    }
    None
}

fn is_number(one: u32, number: u32) -> bool
    ensures { result ≡ nat_eq one number }
{
    one == number
}

/// Whether the automation of this number is on, where there is one.
fn shown_at(
    states: &StateTable,
    automations: &[Automation],
    numbers: &[u32],
    number: u32,
) -> Option<bool>
    requires { length automations.now ≤ length numbers.now }
    ensures { result ≡ switch_at (shown_of states.now (zip numbers.now automations.now)) number }
{
    for i in 0..automations.len() {
        let one = &automations[i];
        if is_number(numbers[i], number) {
            return Some(is_shown_on(states, &one.name));
        }
    }
    None
}

impl<'a> Answers for View<'a> {
    ghost sight = { seen };

    fn render(&self, alloc: Global, template: &Template, env: &Env) -> Result<Value, TplFault> {
        render(alloc, template, self.states, env)
    }

    fn test(&self, alloc: Global, condition: &Condition, env: &Env) -> Result<bool, AllocError> {
        test(alloc, condition, self, env)
    }

    fn now(&self) -> Moment {
        self.at
    }

    fn automation(&self, id: &EntityId) -> Option<u32> {
        if id.has_domain("automation") {
            let automations = self.config.automations.as_slice();
            let numbers = self.numbers.as_slice();
            number_named(automations, numbers, id.object())
        } else {
            None
        }
    }

    fn is_on(&self, automation: u32) -> bool {
        let automations = self.config.automations.as_slice();
        let numbers = self.numbers.as_slice();
        match shown_at(self.states, automations, numbers, automation) {
            Some(on) => on,
            None => false,
        }
    }

    fn inner(
        &self,
        _alloc: Global,
        _service: &Word,
        _target: &Many<EntityId>,
        _fields: &Many<(Word, Value)>,
    ) -> Result<Inner, AllocError> {
        Ok(Inner::Outer)
    }
}
