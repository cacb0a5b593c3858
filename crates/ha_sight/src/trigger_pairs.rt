//! The pairs of the variable `trigger`, made of its parts.
ghost use Rattle.std.specs.Prelude.{◌≡◌, ◌∷◌, ◌++◌, [], decimal, codes, Some, IfOk, OnOk};
ghost use Rattle.std.specs.Option.{option_copied};
ghost use Rattle.ha_value.specs.declared.value.Value.TheVariants.{Pairs as Map};
ghost use Rattle.ha_value.specs.Ids.{entity_text};
ghost use Rattle.ha_sight.specs.TriggerValues.{bound_value, head, shown_value};
ghost use Rattle.ha_sight.specs.Rules as triggers;
ghost use Rattle.ha_sight.specs.Values.{field_of, text_of};
ghost use Rattle.ha_config.specs.Words as words;

use crate::trigger_data::{Bound, Shown};
use ha_value::{EntityId, Many, Num, Plain, Value, Word, copy_pairs, push_text, push_value};
use itoa::Buffer;
use std::alloc::{AllocError, Global};

pub(crate) fn text(alloc: Global, text: &str) -> Result<Value, AllocError>
    ensures { IfOk result (λ v. v ≡ Value.Text text.now) }
{
    Ok(Value::Text(Word::from_str(alloc, text)?))
}

/// A pair, appended.
fn add(
    alloc: Global,
    pairs: &mut Many<(Word, Value)>,
    name: &str,
    value: Value,
) -> Result<(), AllocError>
    ensures { OnOk result (pairs.new ≡ pairs.old ++ (name.now, value) ∷ []) }
{
    push_value(alloc, pairs, name, value)?;
    Ok(())
}

pub(crate) fn decimal(alloc: Global, number: u32) -> Result<Value, AllocError>
    ensures { IfOk result (λ v. v ≡ Value.Text (decimal number)) }
{
    let mut room = Buffer::new();
    text(alloc, room.format(number))
}

/// The first pairs of each trigger, and room for so many in all.
fn head(
    alloc: Global,
    platform: &str,
    id: &Word,
    idx: u32,
    count: usize,
) -> Result<Many<(Word, Value)>, AllocError>
    ensures { IfOk result (λ ps. ps ≡ head platform.now id.now idx) }
{
    let mut pairs = Many::with_room(alloc, count)?;
    push_text(alloc, &mut pairs, "platform", platform)?;
    push_text(alloc, &mut pairs, "id", id.as_str())?;
    add(alloc, &mut pairs, "idx", decimal(alloc, idx)?)?;
    Ok(pairs)
}

/// The parts of a state of an entity.
fn object_pairs(
    alloc: Global,
    entity: &EntityId,
    state: &Shown,
) -> Result<Many<(Word, Value)>, AllocError>
    ensures { IfOk result (λ ps. ps
        ≡ (codes "entity_id", Value.Text (entity_text entity.now))
        ∷ (codes "domain", Value.Text entity.now.domain)
        ∷ (codes "object_id", Value.Text entity.now.object)
        ∷ (codes "state", Value.Text state.now.text)
        ∷ (codes "attributes", Map state.now.attributes) ∷ []) }
{
    let mut pairs = Many::with_room(alloc, 5)?;
    push_text(alloc, &mut pairs, "entity_id", entity.text())?;
    push_text(alloc, &mut pairs, "domain", entity.domain())?;
    push_text(alloc, &mut pairs, "object_id", entity.object())?;
    push_text(alloc, &mut pairs, "state", state.text.as_str())?;
    add(
        alloc,
        &mut pairs,
        "attributes",
        Value::Pairs(copy_pairs(alloc, state.attributes.as_slice())?),
    )?;
    Ok(pairs)
}

pub(crate) fn object_value(
    alloc: Global,
    entity: &EntityId,
    state: &Shown,
) -> Result<Value, AllocError>
    ensures { IfOk result (λ v. v ≡ shown_value entity.now (Some state.now)) }
{
    Ok(Value::Pairs(object_pairs(alloc, entity, state)?))
}

/// A state as a value, null where there is none.
fn optional_value(
    alloc: Global,
    entity: &EntityId,
    state: Option<&Shown>,
) -> Result<Value, AllocError>
    ensures { IfOk result (λ v. v ≡ shown_value entity.now (option_copied state.entry)) }
{
    match state {
        Some(state) => object_value(alloc, entity, state),
        None => Ok(Value::Null),
    }
}

/// The entity with its states before and after.
fn states_pairs(
    alloc: Global,
    entity: &EntityId,
    old: Option<&Shown>,
    new: Option<&Shown>,
) -> Result<Many<(Word, Value)>, AllocError>
    ensures { IfOk result (λ ps. ps
        ≡ (codes "entity_id", Value.Text (entity_text entity.now))
        ∷ (codes "from_state", shown_value entity.now (option_copied old.entry))
        ∷ (codes "to_state", shown_value entity.now (option_copied new.entry)) ∷ []) }
{
    let mut pairs = Many::with_room(alloc, 5)?;
    push_text(alloc, &mut pairs, "entity_id", entity.text())?;
    add(
        alloc,
        &mut pairs,
        "from_state",
        optional_value(alloc, entity, old)?,
    )?;
    add(
        alloc,
        &mut pairs,
        "to_state",
        optional_value(alloc, entity, new)?,
    )?;
    Ok(pairs)
}

/// A text, null where there is none.
pub(crate) fn text_or_null(alloc: Global, text: &Option<Word>) -> Result<Value, AllocError>
    ensures { IfOk result (λ v. v ≡ triggers.text_or_null text.now) }
{
    match text {
        Some(text) => Ok(Value::Text(text.copy(alloc)?)),
        None => Ok(Value::Null),
    }
}

/// A bound, null where there is none.
pub(crate) fn bound_value(bound: Bound) -> Value
    ensures { result ≡ bound_value bound }
{
    match bound {
        Bound::Absent => Value::Null,
        Bound::Whole(count) => Value::Number(Num::Whole(count)),
        Bound::Fixed(millionths) => Value::Number(Num::Fixed(millionths)),
    }
}

/// Of a state trigger.
pub(crate) fn state_value(
    alloc: Global,
    id: &Word,
    idx: u32,
    entity: &EntityId,
    old: Option<&Shown>,
    new: Option<&Shown>,
    attribute: &Option<Word>,
) -> Result<Value, AllocError>
    ensures { IfOk result (λ v. v
        ≡ Map (head (codes "state") id.now idx
        ++ ((codes "entity_id", Value.Text (entity_text entity.now))
        ∷ (codes "from_state", shown_value entity.now (option_copied old.entry))
        ∷ (codes "to_state", shown_value entity.now (option_copied new.entry))
        ∷ (codes "attribute", triggers.text_or_null attribute.now) ∷ []))) }
{
    let mut pairs = head(alloc, "state", id, idx, 7)?;
    let mut more = states_pairs(alloc, entity, old, new)?;
    add(
        alloc,
        &mut more,
        "attribute",
        text_or_null(alloc, attribute)?,
    )?;
    pairs.append(more)?;
    Ok(Value::Pairs(pairs))
}

fn numeric_pairs(
    alloc: Global,
    entity: &EntityId,
    old: Option<&Shown>,
    new: Option<&Shown>,
    above: Bound,
    below: Bound,
) -> Result<Many<(Word, Value)>, AllocError>
    ensures { IfOk result (λ ps. ps
        ≡ (codes "entity_id", Value.Text (entity_text entity.now))
        ∷ (codes "from_state", shown_value entity.now (option_copied old.entry))
        ∷ (codes "to_state", shown_value entity.now (option_copied new.entry))
        ∷ (codes "above", bound_value above) ∷ (codes "below", bound_value below) ∷ []) }
{
    let mut more = states_pairs(alloc, entity, old, new)?;
    add(alloc, &mut more, "above", bound_value(above))?;
    add(alloc, &mut more, "below", bound_value(below))?;
    Ok(more)
}

/// Of a numeric trigger.
pub(crate) fn numeric_value(
    alloc: Global,
    id: &Word,
    idx: u32,
    entity: &EntityId,
    old: Option<&Shown>,
    new: Option<&Shown>,
    above: Bound,
    below: Bound,
) -> Result<Value, AllocError>
    ensures { IfOk result (λ v. v
        ≡ Map (head (codes "numeric_state") id.now idx
        ++ ((codes "entity_id", Value.Text (entity_text entity.now))
        ∷ (codes "from_state", shown_value entity.now (option_copied old.entry))
        ∷ (codes "to_state", shown_value entity.now (option_copied new.entry))
        ∷ (codes "above", bound_value above) ∷ (codes "below", bound_value below) ∷ []))) }
{
    let mut pairs = head(alloc, "numeric_state", id, idx, 8)?;
    pairs.append(numeric_pairs(alloc, entity, old, new, above, below)?)?;
    Ok(Value::Pairs(pairs))
}

/// The parts of an event.
fn event_pairs(
    alloc: Global,
    kind: &Word,
    pairs: &Many<(Word, Value)>,
) -> Result<Many<(Word, Value)>, AllocError>
    ensures { IfOk result (λ ps. ps ≡ (codes "event_type", Value.Text kind.now) ∷ (codes "data", Map pairs.now) ∷ []) }
{
    let mut event = Many::with_room(alloc, 2)?;
    push_text(alloc, &mut event, "event_type", kind.as_str())?;
    add(
        alloc,
        &mut event,
        "data",
        Value::Pairs(copy_pairs(alloc, pairs.as_slice())?),
    )?;
    Ok(event)
}

/// An event as a value.
pub(crate) fn event_map(
    alloc: Global,
    kind: &Word,
    pairs: &Many<(Word, Value)>,
) -> Result<Value, AllocError>
    ensures { IfOk result (λ v. v ≡ Map ((codes "event_type", Value.Text kind.now) ∷ (codes "data", Map pairs.now) ∷ [])) }
{
    Ok(Value::Pairs(event_pairs(alloc, kind, pairs)?))
}

/// Of an event trigger.
pub(crate) fn event_value(
    alloc: Global,
    id: &Word,
    idx: u32,
    kind: &Word,
    fields: &Many<(Word, Value)>,
) -> Result<Value, AllocError>
    ensures { IfOk result (λ v. v
        ≡ Map (head (codes "event") id.now idx
        ++ ((codes "event", Map ((codes "event_type", Value.Text kind.now) ∷ (codes "data", Map fields.now) ∷ [])) ∷ []))) }
{
    let mut pairs = head(alloc, "event", id, idx, 4)?;
    add(alloc, &mut pairs, "event", event_map(alloc, kind, fields)?)?;
    Ok(Value::Pairs(pairs))
}

/// Of the triggers that have no other pairs.
pub(crate) fn bare_value(
    alloc: Global,
    platform: &str,
    id: &Word,
    idx: u32,
) -> Result<Value, AllocError>
    ensures { IfOk result (λ v. v ≡ Map (head platform.now id.now idx)) }
{
    Ok(Value::Pairs(head(alloc, platform, id, idx, 3)?))
}

/// The value of the first pair of that name.
pub(crate) fn named<'a>(pairs: &'a [(Word, Value)], name: &[u8]) -> Option<&'a Value>
    ensures { option_copied result ≡ words.first_pair name.now pairs.now }
{
    for pair in pairs {
        if pair.0.bytes() == name {
            return Some(&pair.1);
        }
    }
    None
}

/// The id that a trigger's variables name; it is a text.
pub(crate) fn id_in(variables: &Value) -> Option<&Word>
    ensures { option_copied result ≡ text_of (field_of variables.now (codes "id")) }
{
    let Value::Pairs(pairs) = variables else {
        return None;
    };
    match named(pairs.as_slice(), b"id") {
        Some(Value::Text(id)) => Some(id),
        _ => None,
    }
}
