//! What a template has written and set so far.
ghost use Rattle.std.specs.Prelude.{Option, Some, option_and_then};
ghost use Rattle.ha_value.specs.declared.value.Value.{Value};
ghost use Rattle.ha_sight.specs.Sight.{Sight};
ghost use Rattle.ha_sight.specs.Values.{printed as printed_lem};
ghost use Rattle.ha_sight.specs.Templates.{value_of as value_lem};
ghost use Rattle.tpl_fns.specs.Outcome.{Gives};
ghost use Rattle.tpl_eval.specs.Held.{Yields};
ghost use Rattle.tpl_eval.specs.Pieces.{Extends};
ghost use Rattle.tpl_eval.specs.Scope.{variables};
ghost use Rattle.tpl_eval.specs.Seen.{Sees};

use crate::held::Held;
use crate::scope::Scope;
use crate::value::value_of;
use ha_config::Expr;
use ha_sight::TplFault;
use ha_value::{Many, Value, Word};
use std::alloc::Global;
use tpl_fns::{TEXT_LIMIT, add, printed};

/// What a template has written and set so far.
#[derive(Drop)]
pub struct Page {
    pub text: Word,
    pub set: Many<(Word, Value)>,
}

/// Appends a text. The fault is that there would be too much.
pub fn append(text: &mut Word, more: &str) -> Result<(), TplFault>
    ensures { Extends text.old text.new (Some more.now) result }
{
    if TEXT_LIMIT < text.len() {
        Err(TplFault::Fault)
    } else {
        add(text, more)
    }
}

/// Appends the print of a value. A text is not copied on the way.
fn add_value(alloc: Global, text: &mut Word, value: &Value) -> Result<(), TplFault>
    ensures { Extends text.old text.new (printed_lem value.now) result }
{
    match value {
        Value::Text(more) => append(text, more.as_str()),
        _ => match printed(alloc, value) {
            Ok(more) => append(text, more.as_str()),
            Err(fault) => Err(fault),
        },
    }
}

/// Appends the print of a value, once that is known.
fn add_held(
    alloc: Global,
    text: &mut Word,
    held: Result<Held<'_>, TplFault>,
) -> Result<(), TplFault>
    ensures { (given : Option Value) → Yields held.entry given → Extends text.old text.new (option_and_then printed_lem given) result }
{
    match held {
        Ok(held) => add_value(alloc, text, held.get()),
        Err(fault) => Err(fault),
    }
}

/// Appends what an expression shows.
pub fn add_shown<'a>(scope: &Scope<'a>, text: &mut Word, expr: &'a Expr) -> Result<(), TplFault>
    ensures { (sight : Sight) → Sees sight scope.now.states.now → Extends text.old text.new (option_and_then printed_lem (value_lem sight expr.now (variables scope.now))) result }
{
    add_held(scope.alloc, text, value_of(scope, expr))
}

/// The value of an expression, to be kept.
pub fn kept_value<'a>(scope: &Scope<'a>, expr: &'a Expr) -> Result<Value, TplFault>
    ensures { (sight : Sight) → Sees sight scope.now.states.now → Gives result (value_lem sight expr.now (variables scope.now)) }
{
    match value_of(scope, expr) {
        Ok(held) => held.into_value(scope.alloc),
        Err(fault) => Err(fault),
    }
}
