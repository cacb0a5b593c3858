//! The attributes of a state, and their texts.
ghost use Rattle.std.specs.Prelude.{◌≡◌, IfOk, option_and_then};
ghost use Rattle.std.specs.Option.{option_copied};
ghost use Rattle.ha_sight.specs.Conditions as conditions;
ghost use Rattle.ha_config.specs.Equal.{same_value};
ghost use Rattle.ha_sight.specs.Rules as triggers;
ghost use Rattle.trig_state.specs.States as states;

use ha_config::first_pair;
use ha_sight::{StateObject, attribute_text};
use ha_value::{Plain, Value, Word};
use std::alloc::{AllocError, Global};

/// The attribute of a state, where both are there.
pub fn attribute_in<'a>(name: &Word, state: Option<&'a StateObject>) -> Option<&'a Value>
    ensures { option_copied result ≡ states.attribute_in name.now (option_copied state.entry) }
{
    match state {
        Some(state) => first_pair(name, state.attributes.as_slice()),
        None => None,
    }
}

/// Whether two values are the same, as the definitions test it.
fn same_value(one: &Value, other: &Value) -> bool
    ensures { result ≡ same_value one.now other.now }
{
    one.same(other)
}

/// Whether two values, which may be missing, are the same as written.
pub fn same_optional(one: Option<&Value>, other: Option<&Value>) -> bool
    ensures { result ≡ triggers.same_optional (option_copied one.entry) (option_copied other.entry) }
{
    match one {
        None => other.is_none(),
        Some(one) => match other {
            None => false,
            Some(other) => same_value(one, other),
        },
    }
}

/// The text of an attribute of a state, where there is one.
pub fn text_in(
    alloc: Global,
    name: &Word,
    state: Option<&StateObject>,
) -> Result<Option<Word>, AllocError>
    ensures { IfOk result (λ text. text ≡ option_and_then conditions.attribute_text (states.attribute_in name.now (option_copied state.entry))) }
{
    match attribute_in(name, state) {
        Some(value) => attribute_text(alloc, value),
        None => Ok(None),
    }
}
