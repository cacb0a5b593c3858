//! States before an entry. Those of one entity alone, as for most entries, take no list.
ghost use Rattle.std.specs.Prelude.{◌≡◌, ◌<◌, ◌∷◌, ◌++◌, [], Option, IfOk, OnOk, length, slice_index_or};
ghost use Rattle.ha_value.specs.declared.value.EntityId.{EntityId as Entity};
ghost use Rattle.ha_sight.specs.declared.state.StateObject.{StateObject as State};
ghost use Rattle.trig_set.specs.Next.{lists};

use crate::scene::Shift;
use ha_config::same_id;
use ha_sight::StateObject;
use ha_value::{EntityId, Many, Plain};
use std::alloc::{AllocError, Global};
use std::marker::Model;

/// Entities with their states before an entry; none where an entity has none.
#[derive(Drop)]
pub struct Before {
    /// The only entity, if there is one; the others don't count then. It is a `Shift` already, in which the state after the entry is put
    /// beside the old one.
    pub(crate) alone: Option<Box<Shift>>,
    pub(crate) several: Many<(EntityId, Option<StateObject>)>,
    /// Where the index may have the only entity.
    near: usize,
}

impl Model for Before {
    ghost use Rattle.std.specs.Coded.{codes};
    ghost use Rattle.ha_value.specs.contracts.value.Value as value;
    ghost use Rattle.trig_set.specs.Next.{Listed};
    ghost use Rattle.trig_set.specs.Before.{listed_of};

    ghost Value = { Listed };

    ghost coded = { Prim.hlevel (codes, value.the_row.coded) };

    ghost view = { λ b. listed_of b.alone b.several };
}

/// The list has these two, and no others.
fn put_two(
    list: &mut Many<(EntityId, Option<StateObject>)>,
    first: (EntityId, Option<StateObject>),
    second: (EntityId, Option<StateObject>),
) -> Result<(), AllocError>
    ensures { OnOk result (list.new ≡ first ∷ second ∷ []) }
{
    list.clear();
    list.push(first)?;
    list.push(second)?;
    Ok(())
}

/// An entity with its state before the entry, in a box of its own.
fn boxed(
    alloc: Global,
    entity: EntityId,
    old: Option<StateObject>,
) -> Result<Box<Shift>, AllocError>
    ensures entity { IfOk result (λ made. made.value.entity ≡ entity) }
    ensures old { IfOk result (λ made. made.value.old ≡ old) }
{
    let shift = Shift {
        entity,
        old,
        new: None,
    };
    let made = Box::new(alloc, shift)?;
    Ok(made)
}

/// The entity with its state before the entry, taken out of the box.
fn taken(alone: Box<Shift>) -> (EntityId, Option<StateObject>)
    ensures { result ≡ (alone.value.entity, alone.value.old) }
{
    let Shift { entity, old, .. } = Box::into_inner(alone);
    (entity, old)
}

/// Whether an entity is among these.
fn is_among(several: &[(EntityId, Option<StateObject>)], entity: &EntityId) -> bool
    ensures { result ≡ lists several.now entity.now }
{
    several.iter().any(|listed| same_id(&listed.0, entity))
}

/// The entity at a place of these.
fn entity_in(several: &[(EntityId, Option<StateObject>)], at: usize) -> &EntityId
    requires { at < length several.now }
    ensures { (d : Entity × Option State) → result.now ≡ (slice_index_or several.now at d).0 }
{
    &several[at].0
}

impl Before {
    /// No entities.
    pub fn make(alloc: Global) -> Before
        ensures { result ≡ [] }
    {
        Before {
            alone: None,
            several: Many::make(alloc),
            near: usize::MAX,
        }
    }

    /// One entity.
    pub fn one(
        alloc: Global,
        entity: &EntityId,
        old: Option<StateObject>,
    ) -> Result<Before, AllocError>
        ensures { IfOk result (λ before. before ≡ (entity.now, old) ∷ []) }
    {
        let entity = entity.copy(alloc)?;
        let made = boxed(alloc, entity, old)?;
        Ok(Before {
            alone: Some(made),
            several: Many::make(alloc),
            near: usize::MAX,
        })
    }

    /// Whether an entity is listed.
    pub fn lists(&self, entity: &EntityId) -> bool
        ensures { result ≡ lists self.now entity.now }
    {
        match &self.alone {
            Some(alone) => same_id(&alone.entity, entity),
            None => is_among(self.several.as_slice(), entity),
        }
    }

    /// How many entities are listed.
    pub fn len(&self) -> usize
        ensures { result ≡ length self.now }
    {
        match &self.alone {
            Some(_) => 1,
            None => self.several.len(),
        }
    }

    /// The entity that is listed at a place.
    pub fn entity_at(&self, at: usize) -> &EntityId
        requires { at < length self.now }
        ensures { (d : Entity × Option State) → result.now ≡ (slice_index_or self.now at d).0 }
    {
        match &self.alone {
            Some(alone) => &alone.entity,
            None => entity_in(self.several.as_slice(), at),
        }
    }

    /// Says at which place whom the only entity concerns is looked for first: `TrigSet::asked` gives it.
    pub fn look_at(&mut self, place: usize)
        ensures { self.new ≡ self.old }
    {
        self.near = place;
    }

    /// That place.
    pub(crate) fn near(&self) -> usize {
        self.near
    }

    /// One more entity. After an error the list may only be dropped.
    pub fn push(
        &mut self,
        alloc: Global,
        listed: (EntityId, Option<StateObject>),
    ) -> Result<(), AllocError>
        ensures { OnOk result (self.new ≡ self.old ++ listed ∷ []) }
    {
        match self.alone.take() {
            Some(first) => put_two(&mut self.several, taken(first), listed),
            None => {
                if self.several.is_empty() {
                    let made = boxed(alloc, listed.0, listed.1)?;
                    self.alone = Some(made);
                    return Ok(());
                }
                self.several.push(listed)?;
                Ok(())
            }
        }
    }
}
