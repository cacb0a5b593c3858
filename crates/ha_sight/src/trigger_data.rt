//! What the variable `trigger` is made of. Most scripts never read it, so its pairs are made where it is read.
ghost use Rattle.std.specs.Prelude.{◌≡◌, ◌∷◌, ◌++◌, [], codes, IfOk};
ghost use Rattle.std.specs.Option.{option_copied};
ghost use Rattle.ha_value.specs.declared.value.EntityId.{EntityId};
ghost use Rattle.ha_value.specs.declared.value.Value.TheVariants.{Pairs as Map};
ghost use Rattle.ha_value.specs.Ids.{entity_text};
ghost use Rattle.ha_sight.specs.Parts.{part_value};
ghost use Rattle.ha_sight.specs.TriggerValues.{bound_value, shown_value, value_of};
ghost use Rattle.ha_sight.specs.Rules as triggers;
ghost use Rattle.ha_sight.specs.Values.{field_of, text_of};

use crate::part::{Part, kept_field};
use crate::shared::Shared;
use crate::state::StateObject;
use crate::trigger_pairs::{bare_value, event_value, id_in, numeric_value, state_value};
use ha_config::Trigger;
use ha_value::{EntityId, Many, Num, Plain, Value, Word, copy_pairs};
use std::alloc::{AllocError, Global};
use std::marker::Model;

/// The value of the variable `trigger`, as what it is made of. A run, its record and its frames share one.
#[derive(Drop)]
pub struct TriggerData {
    kind: Shared<Kind>,
}

impl Model for TriggerData {
    ghost use Rattle.ha_value.specs.declared.value.Value.{Value as Variables};
    ghost use Rattle.ha_value.specs.contracts.value.Value as variables;

    ghost Value = { Variables };

    ghost coded = { variables.the_row.coded };

    ghost use Rattle.ha_sight.specs.TriggerValues.{value_of};

    ghost view = { λ d. value_of d.kind };
}

/// What the variable shows of a state: all but the moments, which nothing in it has.
#[derive(Drop)]
pub struct Shown {
    pub(crate) text: Word,
    pub(crate) attributes: Many<(Word, Value)>,
}

/// A bound of a numeric trigger, as an optional number that takes the bytes of a number.
#[derive(Clone, Copy)]
pub(crate) enum Bound {
    Absent,
    Whole(i64),
    Fixed(i64),
}

/// By the rule of the trigger: its id and index, and what it says of the entry at which it moved.
#[derive(Drop)]
pub(crate) enum Kind {
    /// Any value.
    Whole(Value),
    /// Of a trigger that has no more than its platform, id and index.
    Bare {
        platform: Word,
        id: Word,
        idx: u32,
    },
    State {
        id: Word,
        idx: u32,
        entity: EntityId,
        old: Option<Shown>,
        new: Option<Shown>,
        attribute: Option<Word>,
    },
    Numeric {
        id: Word,
        idx: u32,
        entity: EntityId,
        old: Option<Shown>,
        new: Option<Shown>,
        above: Bound,
        below: Bound,
    },
    Event {
        id: Word,
        idx: u32,
        kind: Word,
        pairs: Many<(Word, Value)>,
    },
}

/// What the variable shows of a state, copied.
fn show_state(alloc: Global, state: &StateObject) -> Result<Shown, AllocError>
    ensures text { IfOk result (λ made. made.text ≡ state.now.text) }
    ensures attributes { IfOk result (λ made. made.attributes ≡ state.now.attributes) }
{
    Ok(Shown {
        text: state.text.copy(alloc)?,
        attributes: copy_pairs(alloc, state.attributes.as_slice())?,
    })
}

/// What it shows of a state where there is one, whatever the entity.
fn show_where(alloc: Global, state: Option<&StateObject>) -> Result<Option<Shown>, AllocError>
    ensures { (e : EntityId) → IfOk result (λ made. shown_value e made ≡ triggers.state_value e (option_copied state.entry)) }
{
    match state {
        Some(state) => Ok(Some(show_state(alloc, state)?)),
        None => Ok(None),
    }
}

/// A bound, as it is kept.
fn kept_bound(number: Option<Num>) -> Bound
    ensures { bound_value result ≡ triggers.number_or_null number }
{
    match number {
        Some(Num::Whole(count)) => Bound::Whole(count),
        Some(Num::Fixed(millionths)) => Bound::Fixed(millionths),
        None => Bound::Absent,
    }
}

impl Kind {
    /// The pairs, made.
    fn value(&self, alloc: Global) -> Result<Value, AllocError>
        ensures { IfOk result (λ v. v ≡ value_of self.now) }
    {
        match self {
            Kind::Whole(value) => value.copy(alloc),
            Kind::Bare { platform, id, idx } => bare_value(alloc, platform.as_str(), id, *idx),
            Kind::State {
                id,
                idx,
                entity,
                old,
                new,
                attribute,
            } => state_value(
                alloc,
                id,
                *idx,
                entity,
                old.as_ref(),
                new.as_ref(),
                attribute,
            ),
            Kind::Numeric {
                id,
                idx,
                entity,
                old,
                new,
                above,
                below,
            } => numeric_value(
                alloc,
                id,
                *idx,
                entity,
                old.as_ref(),
                new.as_ref(),
                *above,
                *below,
            ),
            Kind::Event {
                id,
                idx,
                kind,
                pairs,
            } => event_value(alloc, id, *idx, kind, pairs),
        }
    }
}

/// What is kept for each rule of a trigger.
impl TriggerData {
    fn of(alloc: Global, kind: Kind) -> Result<TriggerData, AllocError>
        ensures { IfOk result (λ d. d ≡ value_of kind) }
    {
        Ok(TriggerData {
            kind: Shared::new(alloc, kind)?,
        })
    }

    /// Any value.
    pub fn whole(alloc: Global, value: Value) -> Result<TriggerData, AllocError>
        ensures { IfOk result (λ d. d ≡ value) }
    {
        TriggerData::of(alloc, Kind::Whole(value))
    }

    /// Of the triggers that have no other variables than their platform, id and index.
    pub fn bare(alloc: Global, platform: &str, trigger: &Trigger) -> Result<TriggerData, AllocError>
        ensures { IfOk result (λ d. d ≡ Map (triggers.head_pairs platform.now trigger.now)) }
    {
        TriggerData::of(
            alloc,
            Kind::Bare {
                platform: Word::from_str(alloc, platform)?,
                id: trigger.id.copy(alloc)?,
                idx: trigger.idx,
            },
        )
    }

    /// Of a state trigger.
    pub fn of_state(
        alloc: Global,
        trigger: &Trigger,
        attribute: &Option<Word>,
        entity: &EntityId,
        old: Option<&StateObject>,
        new: Option<&StateObject>,
    ) -> Result<TriggerData, AllocError>
        ensures { IfOk result (λ d. d
            ≡ Map (triggers.head_pairs (codes "state") trigger.now
            ++ ((codes "entity_id", Value.Text (entity_text entity.now))
            ∷ (codes "from_state", triggers.state_value entity.now (option_copied old.entry))
            ∷ (codes "to_state", triggers.state_value entity.now (option_copied new.entry))
            ∷ (codes "attribute", triggers.text_or_null attribute.now) ∷ []))) }
    {
        TriggerData::of(
            alloc,
            Kind::State {
                id: trigger.id.copy(alloc)?,
                idx: trigger.idx,
                entity: entity.copy(alloc)?,
                old: show_where(alloc, old)?,
                new: show_where(alloc, new)?,
                attribute: attribute.copy(alloc)?,
            },
        )
    }

    /// Of a numeric trigger.
    pub fn of_number(
        alloc: Global,
        trigger: &Trigger,
        above: Option<Num>,
        below: Option<Num>,
        entity: &EntityId,
        old: Option<&StateObject>,
        new: Option<&StateObject>,
    ) -> Result<TriggerData, AllocError>
        ensures { IfOk result (λ d. d
            ≡ Map (triggers.head_pairs (codes "numeric_state") trigger.now
            ++ ((codes "entity_id", Value.Text (entity_text entity.now))
            ∷ (codes "from_state", triggers.state_value entity.now (option_copied old.entry))
            ∷ (codes "to_state", triggers.state_value entity.now (option_copied new.entry))
            ∷ (codes "above", triggers.number_or_null above) ∷ (codes "below", triggers.number_or_null below) ∷ []))) }
    {
        TriggerData::of(
            alloc,
            Kind::Numeric {
                id: trigger.id.copy(alloc)?,
                idx: trigger.idx,
                entity: entity.copy(alloc)?,
                old: show_where(alloc, old)?,
                new: show_where(alloc, new)?,
                above: kept_bound(above),
                below: kept_bound(below),
            },
        )
    }

    /// Of an event trigger.
    pub fn of_event(
        alloc: Global,
        trigger: &Trigger,
        kind: &Word,
        fields: &Many<(Word, Value)>,
    ) -> Result<TriggerData, AllocError>
        ensures { IfOk result (λ d. d
            ≡ Map (triggers.head_pairs (codes "event") trigger.now
            ++ ((codes "event", Map ((codes "event_type", Value.Text kind.now) ∷ (codes "data", Map fields.now) ∷ [])) ∷ []))) }
    {
        TriggerData::of(
            alloc,
            Kind::Event {
                id: trigger.id.copy(alloc)?,
                idx: trigger.idx,
                kind: kind.copy(alloc)?,
                pairs: copy_pairs(alloc, fields.as_slice())?,
            },
        )
    }
}

/// What the data is asked.
impl TriggerData {
    /// The value, made.
    pub fn value(&self, alloc: Global) -> Result<Value, AllocError>
        ensures { IfOk result (λ v. v ≡ self.now) }
    {
        self.kind.get().value(alloc)
    }

    /// What the value has under a name, with nothing else of it made.
    pub fn field(&self, alloc: Global, name: &[u8]) -> Result<Part<'_>, AllocError>
        ensures { IfOk result (λ p. part_value p ≡ field_of self.now name.now) }
    {
        kept_field(alloc, self.kind.get(), name)
    }

    /// The same data, shared.
    pub fn share(&self) -> Result<TriggerData, AllocError>
        ensures { IfOk result (λ made. made ≡ self.now) }
    {
        Ok(TriggerData {
            kind: self.kind.share()?,
        })
    }

    /// The id of the trigger, where the value has one that is a text.
    pub fn id(&self) -> Option<&Word>
        ensures { option_copied result ≡ text_of (field_of self.now (codes "id")) }
    {
        match self.kind.get() {
            Kind::Whole(value) => id_in(value),
            Kind::Bare { id, .. } => Some(id),
            Kind::State { id, .. } => Some(id),
            Kind::Numeric { id, .. } => Some(id),
            Kind::Event { id, .. } => Some(id),
        }
    }
}
