//! Answers on one place, and ends of waits.
ghost use Rattle.std.specs.Prelude.{◌≡◌, ℕ, List, Option, Some, None, option_map, IfOk, IfErr, IsSome};
ghost use Rattle.std.specs.Option.{option_copied};
ghost use Rattle.ha_value.specs.declared.value.Value.{Value};
ghost use Rattle.ha_sight.specs.declared.waiting.WaitEnd.{WaitEnd};
ghost use Rattle.ha_sight.specs.Sight.{Sight, switch_seen};
ghost use Rattle.ha_sight.specs.Calls.{automation_at};
ghost use Rattle.ha_sight.specs.Inner.{inner_of};
ghost use Rattle.ha_sight.specs.Templates.{rendered};
ghost use Rattle.ha_sight.specs.Conditions.{holds};

use crate::env::Env;
use crate::faults::TplFault;
use crate::item::Branch;
use crate::steps::Inner;
use crate::waiting::WaitEnd;
use ha_clock::Moment;
use ha_config::{Condition, Template};
use ha_value::{EntityId, Many, Value, Word};
use std::alloc::{AllocError, Global};

/// Answers on what one place of the journal sees.
pub trait Answers {
    /// What the place sees.
    ghost sight: { Self → Sight };

    /// The rendered text, with blanks and breaks trimmed at both ends, as a `Value::Text`. Fault exactly where the template's meaning is
    /// one.
    fn render(&self, alloc: Global, template: &Template, env: &Env) -> Result<Value, TplFault>
        ensures text { IfOk result (λ v. option_map Value.Text (rendered (sight self.now) template.now env.now) ≡ Some v) }
        ensures fault { IfErr result (λ e. e ≡ TplFault.Fault → rendered (sight self.now) template.now env.now ≡ None) };

    /// Whether the condition holds.
    fn test(&self, alloc: Global, condition: &Condition, env: &Env) -> Result<bool, AllocError>
        ensures { IfOk result (λ b. b ≡ holds (sight self.now) condition.now env.now) };

    /// The present moment.
    fn now(&self) -> Moment
        ensures { result ≡ (sight self.now).now };

    /// The number of the automation that has this id as its entity.
    fn automation(&self, id: &EntityId) -> Option<u32>
        ensures { result ≡ automation_at (sight self.now).automations id.now };

    /// Whether the automation is on.
    fn is_on(&self, automation: u32) -> bool
        requires { IsSome (switch_seen (sight self.now) automation) }
        ensures { switch_seen (sight self.now) automation ≡ Some result };

    /// What the core does with a call of this service, with these targets and this data, itself.
    fn inner(
        &self,
        alloc: Global,
        service: &Word,
        target: &Many<EntityId>,
        fields: &Many<(Word, Value)>,
    ) -> Result<Inner, AllocError>
        ensures { IfOk result (λ answer. answer ≡ inner_of (sight self.now) service.now target.now fields.now) };
}

/// The ends of pending waits.
pub trait Ended {
    /// How the wait of a run, by its serial, in a branch ended, if it has ended.
    ghost ends: { Self → ℕ → List ℕ → Option WaitEnd };

    /// How the wait ended; none where it has not ended by the entries so far.
    fn ended(&self, serial: u64, branch: &Branch) -> Option<&WaitEnd>
        ensures { option_copied result ≡ ends self.now serial branch.now };
}
