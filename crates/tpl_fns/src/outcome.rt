//! What calls answer: a value, a fault, or want of memory.
ghost use Rattle.std.specs.Prelude.{◌≡◌, Some, option_map};
ghost use Rattle.tpl_fns.specs.Outcome.{Gives};

use ha_sight::TplFault;
use ha_value::{Num, Value};
use std::alloc::Global;

/// The number, or a fault.
pub fn given(number: Option<Num>) -> Result<Value, TplFault>
    ensures { Gives result (option_map Value.Number number) }
{
    match number {
        Some(number) => Ok(Value::Number(number)),
        None => Err(TplFault::Fault),
    }
}

/// A copy of the value.
pub fn copied(alloc: Global, value: &Value) -> Result<Value, TplFault>
    ensures { Gives result (Some value.now) }
{
    match value.copy_value(alloc) {
        Ok(value) => Ok(value),
        Err(_) => Err(TplFault::Memory),
    }
}
