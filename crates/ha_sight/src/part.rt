//! A part of a variable, found without the rest of the variable being made.
ghost use Rattle.std.specs.Prelude.{◌≡◌, ◌∷◌, ◌++◌, [], codes, Some, IfOk, unwrap_or};
ghost use Rattle.std.specs.Option.{option_copied};
ghost use Rattle.ha_value.specs.declared.value.Value.TheVariants.{Pairs as Map};
ghost use Rattle.ha_value.specs.Ids.{entity_text};
ghost use Rattle.ha_sight.specs.Parts.{part_value};
ghost use Rattle.ha_sight.specs.TriggerValues.{bound_value, head, shown_value, value_of};
ghost use Rattle.ha_sight.specs.Values.{field_of};
ghost use Rattle.ha_sight.specs.Rules as variables;
ghost use Rattle.ha_config.specs.Words as words;

use crate::trigger_data::{Bound, Kind, Shown, TriggerData};
use crate::trigger_pairs::{
    bound_value, decimal, event_map, named, object_value, text, text_or_null,
};
use ha_value::{EntityId, Many, Plain, Value, Word, copy_pairs};
use std::alloc::{AllocError, Global};

/// A value, or what it is made of.
#[derive(Drop)]
pub enum Part<'a> {
    /// One that stands somewhere.
    Lent(&'a Value),
    Made(Value),
    /// The variable `trigger`.
    Trigger(&'a TriggerData),
    /// The map of an entity's state.
    State(&'a EntityId, &'a Shown),
    /// The map of an event, by its type and its data.
    Event(&'a Word, &'a Many<(Word, Value)>),
    /// A map.
    Pairs(&'a Many<(Word, Value)>),
}

/// Whether a field is asked by this key.
fn is_key(key: &[u8], name: &[u8]) -> bool
    ensures { result ≡ words.same key.now name.now }
{
    key == name
}

/// A value that is lent, null where there is none.
fn lent_or_null<'a>(value: Option<&'a Value>) -> Part<'a>
    ensures { part_value result ≡ unwrap_or (option_copied value.entry) Value.Null }
{
    match value {
        Some(value) => Part::Lent(value),
        None => Part::Made(Value::Null),
    }
}

/// What a value has under a name.
fn field<'a>(value: &'a Value, name: &[u8]) -> Option<&'a Value>
    ensures { unwrap_or (option_copied result) Value.Null ≡ field_of value.now name.now }
{
    match value {
        Value::Pairs(pairs) => named(pairs.as_slice(), name),
        _ => None,
    }
}

/// The same, copied, null where there is none.
fn copied_field(alloc: Global, value: &Value, name: &[u8]) -> Result<Value, AllocError>
    ensures { IfOk result (λ v. v ≡ field_of value.now name.now) }
{
    match field(value, name) {
        Some(part) => part.copy(alloc),
        None => Ok(Value::Null),
    }
}

/// A value that a call made.
fn made<'a>(value: Result<Value, AllocError>) -> Result<Part<'a>, AllocError>
    ensures { (given : Value) → IfOk value (λ v. v ≡ given) → IfOk result (λ p. part_value p ≡ given) }
{
    match value {
        Ok(value) => Ok(Part::Made(value)),
        Err(fault) => Err(fault),
    }
}

/// What a map has under a name, null where it has none.
fn pair_field<'a>(pairs: &'a Many<(Word, Value)>, name: &[u8]) -> Part<'a>
    ensures { part_value result ≡ field_of (Map pairs.now) name.now }
{
    lent_or_null(named(pairs.as_slice(), name))
}

/// What the map of an entity's state has under a name.
fn state_field<'a>(
    alloc: Global,
    entity: &'a EntityId,
    state: &'a Shown,
    name: &[u8],
) -> Result<Part<'a>, AllocError>
    ensures { IfOk result (λ p. part_value p ≡ field_of (shown_value entity.now (Some state.now)) name.now) }
{
    if is_key(b"entity_id", name) {
        Ok(Part::Made(text(alloc, entity.text())?))
    } else if is_key(b"domain", name) {
        Ok(Part::Made(text(alloc, entity.domain())?))
    } else if is_key(b"object_id", name) {
        Ok(Part::Made(text(alloc, entity.object())?))
    } else if is_key(b"state", name) {
        Ok(Part::Made(Value::Text(state.text.copy(alloc)?)))
    } else if is_key(b"attributes", name) {
        Ok(Part::Pairs(&state.attributes))
    } else {
        Ok(Part::Made(Value::Null))
    }
}

/// What the map of an event has under a name.
fn event_field<'a>(
    alloc: Global,
    kind: &'a Word,
    pairs: &'a Many<(Word, Value)>,
    name: &[u8],
) -> Result<Part<'a>, AllocError>
    ensures { IfOk result (λ p. part_value p ≡ field_of (Map (variables.event_pairs (kind.now, pairs.now))) name.now) }
{
    if is_key(b"event_type", name) {
        Ok(Part::Made(Value::Text(kind.copy(alloc)?)))
    } else if is_key(b"data", name) {
        Ok(Part::Pairs(pairs))
    } else {
        Ok(Part::Made(Value::Null))
    }
}

/// A state of an entity, null where there is none.
fn state_or_null<'a>(entity: &'a EntityId, state: &'a Option<Shown>) -> Part<'a>
    ensures { part_value result ≡ shown_value entity.now state.now }
{
    match state {
        Some(state) => Part::State(entity, state),
        None => Part::Made(Value::Null),
    }
}

/// One of the first pairs of each trigger.
fn head_field(
    alloc: Global,
    platform: &str,
    id: &Word,
    idx: u32,
    name: &[u8],
) -> Result<Option<Value>, AllocError>
    ensures { IfOk result (λ found. found ≡ words.first_pair name.now (head platform.now id.now idx)) }
{
    if is_key(b"platform", name) {
        Ok(Some(text(alloc, platform)?))
    } else if is_key(b"id", name) {
        Ok(Some(Value::Text(id.copy(alloc)?)))
    } else if is_key(b"idx", name) {
        Ok(Some(decimal(alloc, idx)?))
    } else {
        Ok(None)
    }
}

/// One of the pairs that follow in a state trigger.
fn later_of_state<'a>(
    alloc: Global,
    entity: &'a EntityId,
    old: &'a Option<Shown>,
    new: &'a Option<Shown>,
    attribute: &Option<Word>,
    name: &[u8],
) -> Result<Part<'a>, AllocError>
    ensures { IfOk result (λ p. part_value p ≡ unwrap_or (words.first_pair name.now
        ((codes "entity_id", Value.Text (entity_text entity.now))
        ∷ (codes "from_state", shown_value entity.now old.now)
        ∷ (codes "to_state", shown_value entity.now new.now)
        ∷ (codes "attribute", variables.text_or_null attribute.now) ∷ [])) Value.Null) }
{
    if is_key(b"entity_id", name) {
        Ok(Part::Made(text(alloc, entity.text())?))
    } else if is_key(b"from_state", name) {
        Ok(state_or_null(entity, old))
    } else if is_key(b"to_state", name) {
        Ok(state_or_null(entity, new))
    } else if is_key(b"attribute", name) {
        Ok(Part::Made(text_or_null(alloc, attribute)?))
    } else {
        Ok(Part::Made(Value::Null))
    }
}

/// One of the pairs that follow in a numeric trigger.
fn later_of_number<'a>(
    alloc: Global,
    entity: &'a EntityId,
    old: &'a Option<Shown>,
    new: &'a Option<Shown>,
    above: Bound,
    below: Bound,
    name: &[u8],
) -> Result<Part<'a>, AllocError>
    ensures { IfOk result (λ p. part_value p ≡ unwrap_or (words.first_pair name.now
        ((codes "entity_id", Value.Text (entity_text entity.now))
        ∷ (codes "from_state", shown_value entity.now old.now)
        ∷ (codes "to_state", shown_value entity.now new.now)
        ∷ (codes "above", bound_value above)
        ∷ (codes "below", bound_value below) ∷ [])) Value.Null) }
{
    if is_key(b"entity_id", name) {
        Ok(Part::Made(text(alloc, entity.text())?))
    } else if is_key(b"from_state", name) {
        Ok(state_or_null(entity, old))
    } else if is_key(b"to_state", name) {
        Ok(state_or_null(entity, new))
    } else if is_key(b"above", name) {
        Ok(Part::Made(bound_value(above)))
    } else if is_key(b"below", name) {
        Ok(Part::Made(bound_value(below)))
    } else {
        Ok(Part::Made(Value::Null))
    }
}

/// The pair that follows in an event trigger.
fn later_of_event<'a>(kind: &'a Word, pairs: &'a Many<(Word, Value)>, name: &[u8]) -> Part<'a>
    ensures { part_value result ≡ unwrap_or (words.first_pair name.now
        ((codes "event", Map (variables.event_pairs (kind.now, pairs.now))) ∷ [])) Value.Null }
{
    if is_key(b"event", name) {
        Part::Event(kind, pairs)
    } else {
        Part::Made(Value::Null)
    }
}

/// The pair that was found, else one of those behind.
fn either<'a>(
    found: Result<Option<Value>, AllocError>,
    later: Result<Part<'a>, AllocError>,
) -> Result<Part<'a>, AllocError>
    ensures { (name : words.Text) (ps qs : words.Pairs) → IfOk found (λ f. f ≡ words.first_pair name ps)
        → IfOk later.entry (λ p. part_value p ≡ unwrap_or (words.first_pair name qs) Value.Null) → IfOk result (λ p. part_value p ≡ field_of (Map (ps ++ qs)) name) }
{
    match found {
        Ok(Some(value)) => Ok(Part::Made(value)),
        Ok(None) => later,
        Err(fault) => Err(fault),
    }
}

/// What a trigger has under a name that has no other pairs than the first.
fn bare_field<'a>(
    alloc: Global,
    platform: &str,
    id: &Word,
    idx: u32,
    name: &[u8],
) -> Result<Part<'a>, AllocError>
    ensures { IfOk result (λ p. part_value p ≡ field_of (Map (head platform.now id.now idx)) name.now) }
{
    match head_field(alloc, platform, id, idx, name) {
        Ok(Some(value)) => Ok(Part::Made(value)),
        Ok(None) => Ok(Part::Made(Value::Null)),
        Err(fault) => Err(fault),
    }
}

/// What the variable `trigger` has under a name.
pub(crate) fn kept_field<'a>(
    alloc: Global,
    kept: &'a Kind,
    name: &[u8],
) -> Result<Part<'a>, AllocError>
    ensures { IfOk result (λ p. part_value p ≡ field_of (value_of kept.now) name.now) }
{
    match kept {
        Kind::Whole(value) => Ok(lent_or_null(field(value, name))),
        Kind::Bare { platform, id, idx } => bare_field(alloc, platform.as_str(), id, *idx, name),
        Kind::State {
            id,
            idx,
            entity,
            old,
            new,
            attribute,
        } => either(
            head_field(alloc, "state", id, *idx, name),
            later_of_state(alloc, entity, old, new, attribute, name),
        ),
        Kind::Numeric {
            id,
            idx,
            entity,
            old,
            new,
            above,
            below,
        } => either(
            head_field(alloc, "numeric_state", id, *idx, name),
            later_of_number(alloc, entity, old, new, *above, *below, name),
        ),
        Kind::Event {
            id,
            idx,
            kind,
            pairs,
        } => either(
            head_field(alloc, "event", id, *idx, name),
            Ok(later_of_event(kind, pairs, name)),
        ),
    }
}

impl<'a> Part<'a> {
    /// What it has under a name, null where it has none or is no map.
    pub fn field(self, alloc: Global, name: &[u8]) -> Result<Part<'a>, AllocError>
        ensures { IfOk result (λ p. part_value p ≡ field_of (part_value self.entry) name.now) }
    {
        match self {
            Part::Lent(value) => Ok(lent_or_null(field(value, name))),
            Part::Made(value) => made(copied_field(alloc, &value, name)),
            Part::Trigger(data) => data.field(alloc, name),
            Part::State(entity, state) => state_field(alloc, entity, state, name),
            Part::Event(kind, pairs) => event_field(alloc, kind, pairs, name),
            Part::Pairs(pairs) => Ok(pair_field(pairs, name)),
        }
    }

    /// The value, copied or made where it is not made yet.
    pub fn into_value(self, alloc: Global) -> Result<Value, AllocError>
        ensures { IfOk result (λ v. v ≡ part_value self.entry) }
    {
        match self {
            Part::Lent(value) => value.copy(alloc),
            Part::Made(value) => Ok(value),
            Part::Trigger(data) => data.value(alloc),
            Part::State(entity, state) => object_value(alloc, entity, state),
            Part::Event(kind, pairs) => event_map(alloc, kind, pairs),
            Part::Pairs(pairs) => Ok(Value::Pairs(copy_pairs(alloc, pairs.as_slice())?)),
        }
    }
}
