//! The rule of state triggers.
ghost use Rattle.std.specs.Prelude.{◌≡◌, ◌||◌, ◌&&◌, true, not, None, Some, IfOk, option_map};
ghost use Rattle.std.specs.Option.{option_copied, option_map_or};
ghost use Rattle.ha_config.specs.Equal.{same_pairs};
ghost use Rattle.ha_sight.specs.Rules as triggers;
ghost use Rattle.ha_config.specs.Words.{same};
ghost use Rattle.trig_state.specs.States.{rule_moves, rule_stays, text_stays};
ghost use Rattle.ha_sight.specs.Rules.{is_state};

use crate::sides::{are_absent, matches};
use crate::texts::{attribute_in, same_optional, text_in};
use ha_config::{Match, TriggerRule, same_data, same_text};
use ha_sight::StateObject;
use ha_value::Word;
use std::alloc::{AllocError, Global};

/// Whether a trigger without `attribute` looks at the change.
fn looks(from: &Match, to: &Match, held: bool, old: Option<&StateObject>, new: &StateObject) -> bool
    ensures { result ≡ option_map_or (λ o. not (same o.text new.now.text) || (triggers.is_absent from.now && triggers.is_absent to.now && not held && not (same_pairs o.attributes new.now.attributes))) (option_copied old.entry) true }
{
    match old {
        None => true,
        Some(old) => {
            !same_text(&old.text, &new.text)
                || (are_absent(from, to) && !held && !same_data(&old.attributes, &new.attributes))
        }
    }
}

fn text_of(state: Option<&StateObject>) -> Option<&Word>
    ensures { option_copied result ≡ option_map (λ s. s.text) (option_copied state.entry) }
{
    match state {
        Some(state) => Some(&state.text),
        None => None,
    }
}

/// Whether the change of the state moves a trigger without `attribute`.
fn text_moves(
    from: &Match,
    to: &Match,
    held: bool,
    old: Option<&StateObject>,
    new: &StateObject,
) -> bool
    ensures { result ≡ triggers.state_moves None from.now to.now held (option_copied old.entry) (Some new.now) }
{
    looks(from, to, held, old, new) && matches(from, text_of(old)) && matches(to, Some(&new.text))
}

/// Whether the change of the attribute moves a trigger.
fn attribute_moves(
    alloc: Global,
    name: &Word,
    from: &Match,
    to: &Match,
    old: Option<&StateObject>,
    new: &StateObject,
) -> Result<bool, AllocError>
    ensures { IfOk result (λ b. b ≡ triggers.state_moves (Some name.now) from.now to.now true (option_copied old.entry) (Some new.now)) }
{
    if same_optional(attribute_in(name, old), attribute_in(name, Some(new))) {
        return Ok(false);
    }
    let before = text_in(alloc, name, old)?;
    let after = text_in(alloc, name, Some(new))?;
    Ok(matches(from, before.as_ref()) && matches(to, after.as_ref()))
}

/// Whether the change from the old state to the new one moves a state trigger; `held` says whether it has a `for`.
pub fn state_moves(
    alloc: Global,
    rule: &TriggerRule,
    held: bool,
    old: Option<&StateObject>,
    new: Option<&StateObject>,
) -> Result<bool, AllocError>
    requires { is_state rule.now ≡ true }
    ensures { IfOk result (λ b. b ≡ rule_moves rule.now held (option_copied old.entry) (option_copied new.entry)) }
{
    let TriggerRule::State {
        attribute,
        from,
        to,
        ..
    } = rule
    else {
        unreachable!()
    };
    let Some(new) = new else {
        return Ok(false);
    };
    match attribute {
        Some(name) => attribute_moves(alloc, name, from, to, old, new),
        None => Ok(text_moves(from, to, held, old, new)),
    }
}

/// Whether the text is the same in both states.
fn same_texts(old: Option<&StateObject>, new: Option<&StateObject>) -> bool
    ensures { result ≡ text_stays (option_copied old.entry) (option_copied new.entry) }
{
    match new {
        None => old.is_none(),
        Some(new) => match old {
            None => false,
            Some(old) => same_text(&old.text, &new.text),
        },
    }
}

/// Whether what a state trigger's `for` watches is the same in both states.
pub fn state_stays(rule: &TriggerRule, old: Option<&StateObject>, new: Option<&StateObject>) -> bool
    requires { is_state rule.now ≡ true }
    ensures { result ≡ rule_stays rule.now (option_copied old.entry) (option_copied new.entry) }
{
    let TriggerRule::State { attribute, .. } = rule else {
        unreachable!()
    };
    match attribute {
        Some(name) => same_optional(attribute_in(name, old), attribute_in(name, new)),
        None => same_texts(old, new),
    }
}
