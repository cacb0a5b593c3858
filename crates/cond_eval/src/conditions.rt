//! Conditions.
ghost use Rattle.std.specs.Prelude.{◌≡◌, false, IfOk};
ghost use Rattle.std.specs.List.{list_all, list_any};
ghost use Rattle.std.specs.Option.{option_map_or};
ghost use Rattle.ha_sight.specs.Conditions as conditions;
ghost use Rattle.ha_sight.specs.Sight.{Sight};
ghost use Rattle.ha_sight.specs.Templates.{is_true_text, rendered};
ghost use Rattle.ha_sight.specs.Values.{text_of};
ghost use Rattle.ha_config.specs.Words as words;
ghost use Rattle.cond_eval.specs.Seen.{seen};

use crate::numbers::is_one_of;
use crate::states::{numbers_hold, texts_hold};
use crate::times::time_holds;
use crate::view::View;
use ha_config::{Condition, Template};
use ha_sight::{Env, TplFault};
use ha_value::{Value, Word};
use std::alloc::{AllocError, Global};
use tpl_eval::render;

/// Whether the condition holds for the view and the variables of a run. Of `and`, `or` and `not` only those inside are tested that decide,
/// in their order.
#[cycle(condition)]
pub fn test(
    alloc: Global,
    condition: &Condition,
    view: &View,
    env: &Env,
) -> Result<bool, AllocError>
    ensures { IfOk result (λ b. b ≡ conditions.holds (seen view.now) condition.now env.now) }
{
    match condition {
        Condition::And(inside) => all_hold(alloc, inside.as_slice(), view, env),
        Condition::Or(inside) => one_holds(alloc, inside.as_slice(), view, env),
        Condition::Not(inside) => Ok(!one_holds(alloc, inside.as_slice(), view, env)?),
        Condition::State {
            entities,
            attribute,
            texts,
            hold,
        } => texts_hold(
            alloc,
            view,
            entities.as_slice(),
            attribute.as_ref(),
            texts.as_slice(),
            *hold,
        ),
        Condition::Numeric {
            entities,
            attribute,
            above,
            below,
        } => numbers_hold(
            alloc,
            view,
            entities.as_slice(),
            attribute.as_ref(),
            *above,
            *below,
        ),
        Condition::Template(template) => template_holds(alloc, template, view, env),
        Condition::Time {
            after,
            before,
            weekdays,
        } => Ok(time_holds(view.zone, view.at, *after, *before, weekdays.as_ref())),
        Condition::Trigger(ids) => Ok(is_own_id(env, ids.as_slice())),
    }
}

/// Whether all hold.
#[cycle(condition)]
fn all_hold(alloc: Global, inside: &[Condition], view: &View, env: &Env) -> Result<bool, AllocError>
    ensures { IfOk result (λ b. b ≡ list_all (λ c. conditions.holds (seen view.now) c env.now) inside.now) }
{
    for i in 0..inside.len() {
        if !test(alloc, &inside[i], view, env)? {
            return Ok(false);
        }
    }
    Ok(true)
}

/// Whether one holds.
#[cycle(condition)]
fn one_holds(
    alloc: Global,
    inside: &[Condition],
    view: &View,
    env: &Env,
) -> Result<bool, AllocError>
    ensures { IfOk result (λ b. b ≡ list_any (λ c. conditions.holds (seen view.now) c env.now) inside.now) }
{
    for i in 0..inside.len() {
        if test(alloc, &inside[i], view, env)? {
            return Ok(true);
        }
    }
    Ok(false)
}

/// Whether the value is the text `true`, in upper or lower case.
fn is_true(value: &Value) -> bool
    ensures { result ≡ is_true_text (text_of value.now) }
{
    match value {
        Value::Text(text) => text.bytes().eq_ignore_ascii_case(b"true"),
        _ => false,
    }
}

/// Whether the rendered text is `true`, in upper or lower case; a fault is not.
fn template_holds(
    alloc: Global,
    template: &Template,
    view: &View,
    env: &Env,
) -> Result<bool, AllocError>
    ensures { IfOk result (λ b. b ≡ is_true_text (rendered (seen view.now) template.now env.now)) }
{
    match render(alloc, template, view.states, env) {
        Ok(text) => Ok(is_true(&text)),
        Err(TplFault::Fault) => Ok(false),
        Err(TplFault::Memory) => Err(AllocError),
    }
}

/// Whether the id of the run's own trigger, whose variables are the first ones, is listed.
fn is_own_id(env: &Env, ids: &[Word]) -> bool
    ensures { (sight : Sight) → result ≡ option_map_or (λ t. words.one_of t ids.now) (conditions.own_id sight env.now) false }
{
    let Some(first) = env.first() else {
        return false;
    };
    match first.id() {
        Some(id) => is_one_of(id.bytes(), ids),
        None => false,
    }
}
