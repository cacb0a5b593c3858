//! Whether a value is in another: an item of a list, a key of a map, or a part of a text.
ghost use Rattle.std.specs.Prelude.{◌≡◌};
ghost use Rattle.std.specs.List.{list_any};
ghost use Rattle.ha_value.specs.declared.value.Value.TheViews.{out-Value};
ghost use Rattle.ha_config.specs.Equal.{equal_value};
ghost use Rattle.ha_sight.specs.Values.{is_within};
ghost use Rattle.ha_config.specs.Words.{has_name, is_part_of};

use crate::equal::equal;
use ha_config::same_text;
use ha_value::{Value, Word};

fn has_item(items: &[Value], wanted: &Value) -> bool
    ensures { result ≡ list_any (equal_value wanted.now) items.now }
{
    items.iter().any(|item| equal(wanted, item))
}

fn has_key(pairs: &[(Word, Value)], key: &Word) -> bool
    ensures { result ≡ has_name key.now pairs.now }
{
    pairs.iter().any(|pair| same_text(&pair.0, key))
}

fn has_part(text: &str, part: &str) -> bool
    ensures { result ≡ is_part_of part.now text.now }
{
    text.contains(part)
}

/// Whether the value is in the other, where the two are of kinds that can be asked.
pub fn within(value: &Value, other: &Value) -> Option<bool>
    ensures { result ≡ is_within value.now (out-Value other.now) }
{
    match (value, other) {
        (_, Value::Items(items)) => Some(has_item(items.as_slice(), value)),
        (Value::Text(key), Value::Pairs(pairs)) => Some(has_key(pairs.as_slice(), key)),
        (Value::Text(part), Value::Text(text)) => Some(has_part(text.as_str(), part.as_str())),
        _ => None,
    }
}
