//! What an entry fires.

use ha_sight::Env;
use ha_value::EntityId;

/// One firing of an attached trigger.
#[derive(Drop)]
pub struct Firing {
    /// Whose list of triggers it is in.
    pub owner: u64,
    /// Its index in that list.
    pub trigger: u32,
    /// The entity that it fired for, none where its rule has no entities.
    pub entity: Option<EntityId>,
    /// The variable `trigger`, alone.
    pub env: Env,
}
