//! What a plan says.
use ha_value::Many;

/// What a reload does to the numbers of units. In each list the automations come first.
#[derive(Drop)]
pub struct Plan {
    /// The number of each unit of the new configuration, in its order.
    pub numbers: Many<u32>,
    /// The old numbers that stay in force, in the old order.
    pub kept: Many<u32>,
    /// The old numbers that do not, in the old order.
    pub gone: Many<u32>,
    /// The next free number.
    pub free: u32,
}
