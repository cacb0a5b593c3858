//! What a kind of expression makes of the values within it.
ghost use Rattle.std.specs.Prelude.{List, not, option_and_then, option_map, Option, if◌then◌else◌};
ghost use Rattle.ha_value.specs.declared.value.Value.{Value};
ghost use Rattle.ha_value.specs.Truth.{truth};
ghost use Rattle.ha_sight.specs.Sight.{Sight};
ghost use Rattle.ha_sight.specs.Filters.{applied, filtered};
ghost use Rattle.ha_sight.specs.Values.{is_null, negation as negation_lem};
ghost use Rattle.tpl_fns.specs.Outcome.{Gives};
ghost use Rattle.tpl_eval.specs.Held.{held_value, Yields};
ghost use Rattle.tpl_eval.specs.Seen.{Sees};

use crate::held::{Held, made};
use crate::operators::negation;
use crate::scope::Scope;
use crate::states::function;
use ha_sight::TplFault;
use ha_value::{Many, Value};
use std::alloc::Global;
use tpl_fns::filter;

/// A filter on a value and its arguments.
pub fn filter_with<'a>(
    alloc: Global,
    name: u8,
    held: Held<'a>,
    args: Result<Many<Value>, TplFault>,
) -> Result<Held<'a>, TplFault>
    ensures { (given : Option (List Value)) → Gives args given → Yields result (option_and_then (filtered name (held_value held.entry)) given) }
{
    match args {
        Ok(args) => made(filter(alloc, name, held.get(), args.as_slice())),
        Err(fault) => Err(fault),
    }
}

/// A function on its arguments.
pub fn called<'a>(
    scope: &Scope<'a>,
    name: u8,
    args: Result<Many<Value>, TplFault>,
) -> Result<Held<'a>, TplFault>
    ensures { (sight : Sight) (given : Option (List Value)) → Sees sight scope.now.states.now → Gives args given → Yields result (option_and_then (applied sight name) given) }
{
    match args {
        Ok(args) => made(function(scope.alloc, name, args.as_slice(), scope.states)),
        Err(fault) => Err(fault),
    }
}

/// `-` before a value.
pub fn negated<'a>(held: Result<Held<'a>, TplFault>) -> Result<Held<'a>, TplFault>
    ensures { (given : Option Value) → Yields held.entry given → Yields result (option_and_then negation_lem given) }
{
    match held {
        Ok(held) => made(negation(held.get())),
        Err(fault) => Err(fault),
    }
}

/// `not`.
pub fn inverted<'a>(held: Result<Held<'a>, TplFault>) -> Result<Held<'a>, TplFault>
    ensures { (given : Option Value) → Yields held.entry given → Yields result (option_map (λ v. Value.Flag (not (truth v))) given) }
{
    match held {
        Ok(held) => Ok(Held::Made(Value::Flag(!held.get().truth()))),
        Err(fault) => Err(fault),
    }
}

/// `is none` where `holds`, else `is not none`.
pub fn none_tested<'a>(held: Result<Held<'a>, TplFault>, holds: bool) -> Result<Held<'a>, TplFault>
    ensures { (given : Option Value) → Yields held.entry given → Yields result (option_map (λ v. Value.Flag (if is_null v then holds else not holds)) given) }
{
    match held {
        Ok(held) => {
            let null = matches!(held.get(), Value::Null);
            Ok(Held::Made(Value::Flag(null == holds)))
        }
        Err(fault) => Err(fault),
    }
}
