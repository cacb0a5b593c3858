//! What an expression sees.
ghost use Rattle.std.specs.Prelude.{◌≡◌, Some, unwrap_or};
ghost use Rattle.ha_sight.specs.Parts.{part_value};
ghost use Rattle.ha_config.specs.Words.{last_pair};
ghost use Rattle.tpl_eval.specs.Held.{Yields};
ghost use Rattle.tpl_eval.specs.Scope.{variables};

use crate::held::Held;
use crate::paths::held_part;
use ha_config::last_pair;
use ha_sight::{Env, Part, Seen, TplFault};
use ha_value::{Value, Word};
use state_table::StateTable;
use std::alloc::Global;

/// What an expression sees: the states, the variables of the run, and those that the template set, which come first.
#[derive(Drop)]
pub struct Scope<'a> {
    pub alloc: Global,
    pub states: &'a StateTable,
    pub env: &'a Env,
    pub set: &'a [(Word, Value)],
}

/// A variable of the run, null where there is none. It stands apart, since a name is the end of a chain that may be deep.
#[inline(never)]
fn part_in<'a>(env: &'a Env, name: &Word) -> Part<'a>
    ensures { part_value result ≡ unwrap_or (last_pair name.now env.now) Value.Null }
{
    match env.last(name) {
        Some(Seen::Value(value)) => Part::Lent(value),
        Some(Seen::Trigger(trigger)) => Part::Trigger(trigger),
        None => Part::Made(Value::Null),
    }
}

impl<'a> Scope<'a> {
    /// A variable, null where there is none.
    pub fn named(&self, name: &Word) -> Part<'a>
        ensures { part_value result ≡ unwrap_or (last_pair name.now (variables self.now)) Value.Null }
    {
        match last_pair(name, self.set) {
            Some(value) => Part::Lent(value),
            None => part_in(self.env, name),
        }
    }

    /// The value of a variable, null where there is none.
    #[inline(never)]
    pub fn value_of(&self, name: &Word) -> Result<Held<'a>, TplFault>
        ensures { Yields result (Some (unwrap_or (last_pair name.now (variables self.now)) Value.Null)) }
    {
        held_part(self.alloc, self.named(name))
    }
}
