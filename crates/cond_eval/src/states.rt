//! Conditions on the states of entities.
ghost use Rattle.std.specs.Prelude.{◌≡◌, ◌+◌, nat_le, false, IfOk};
ghost use Rattle.std.specs.List.{list_all};
ghost use Rattle.std.specs.Option.{option_copied, option_map_or};
ghost use Rattle.ha_sight.specs.Conditions as conditions;
ghost use Rattle.cond_eval.specs.Cases.{is_listed as is_listed_lem, number_passes, text_passes};
ghost use Rattle.cond_eval.specs.Seen.{seen};

use crate::numbers::{in_bounds, is_listed, is_one_of, number_of};
use crate::view::View;
use ha_clock::{Moment, Span};
use ha_config::first_pair;
use ha_sight::StateObject;
use ha_value::{EntityId, Num, Word};
use std::alloc::{AllocError, Global};

/// Whether the state's text has stood for that long.
fn has_stood(state: &StateObject, hold: Option<Span>, view: &View) -> bool
    ensures { result ≡ conditions.long_enough (seen view.now) hold state.now }
{
    match hold {
        Some(hold) => state.changed.millis() + hold.millis() <= view.at.millis(),
        None => true,
    }
}

/// Whether the state's text, or that of the named attribute, is listed.
fn is_text_listed(
    alloc: Global,
    state: &StateObject,
    attribute: Option<&Word>,
    texts: &[Word],
) -> Result<bool, AllocError>
    ensures { IfOk result (λ b. b ≡ is_listed_lem texts.now (conditions.watched_text (option_copied attribute.entry) state.now)) }
{
    match attribute {
        None => Ok(is_one_of(state.text.bytes(), texts)),
        Some(name) => match first_pair(name, state.attributes.as_slice()) {
            Some(value) => is_listed(alloc, value, texts),
            None => Ok(false),
        },
    }
}

/// The number of the state's text, or of the named attribute's.
fn watched_number(
    alloc: Global,
    state: &StateObject,
    attribute: Option<&Word>,
) -> Result<Option<Num>, AllocError>
    ensures { IfOk result (λ n. n ≡ conditions.watched_number (option_copied attribute.entry) state.now) }
{
    match attribute {
        None => Ok(Num::read(state.text.bytes())),
        Some(name) => match first_pair(name, state.attributes.as_slice()) {
            Some(value) => number_of(alloc, value),
            None => Ok(None),
        },
    }
}

fn text_passes(
    alloc: Global,
    view: &View,
    entity: &EntityId,
    attribute: Option<&Word>,
    texts: &[Word],
    hold: Option<Span>,
) -> Result<bool, AllocError>
    ensures { IfOk result (λ b. b ≡ option_map_or (text_passes (seen view.now) (option_copied attribute.entry) texts.now hold) ((seen view.now).states entity.now) false) }
{
    match view.states.get(entity) {
        Some(state) => {
            let listed = is_text_listed(alloc, state, attribute, texts)?;
            Ok(listed && has_stood(state, hold, view))
        }
        None => Ok(false),
    }
}

fn number_passes(
    alloc: Global,
    view: &View,
    entity: &EntityId,
    attribute: Option<&Word>,
    above: Option<Num>,
    below: Option<Num>,
) -> Result<bool, AllocError>
    ensures { IfOk result (λ b. b ≡ option_map_or (number_passes (option_copied attribute.entry) above below) ((seen view.now).states entity.now) false) }
{
    match view.states.get(entity) {
        Some(state) => match watched_number(alloc, state, attribute)? {
            Some(number) => Ok(in_bounds(above, below, &number)),
            None => Ok(false),
        },
        None => Ok(false),
    }
}

/// Whether each entity has a state whose watched text is listed, and whose text has stood for `hold`.
pub fn texts_hold(
    alloc: Global,
    view: &View,
    entities: &[EntityId],
    attribute: Option<&Word>,
    texts: &[Word],
    hold: Option<Span>,
) -> Result<bool, AllocError>
    ensures { IfOk result (λ b. b ≡ list_all (λ e. option_map_or (text_passes (seen view.now) (option_copied attribute.entry) texts.now hold) ((seen view.now).states e) false) entities.now) }
{
    for i in 0..entities.len() {
        if !text_passes(alloc, view, &entities[i], attribute, texts, hold)? {
            return Ok(false);
        }
    }
    Ok(true)
}

/// Whether each entity has a state whose watched number is in the bounds.
pub fn numbers_hold(
    alloc: Global,
    view: &View,
    entities: &[EntityId],
    attribute: Option<&Word>,
    above: Option<Num>,
    below: Option<Num>,
) -> Result<bool, AllocError>
    ensures { IfOk result (λ b. b ≡ list_all (λ e. option_map_or (number_passes (option_copied attribute.entry) above below) ((seen view.now).states e) false) entities.now) }
{
    for i in 0..entities.len() {
        if !number_passes(alloc, view, &entities[i], attribute, above, below)? {
            return Ok(false);
        }
    }
    Ok(true)
}
