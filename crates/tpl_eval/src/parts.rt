//! The parts of maps and lists, borrowed.
ghost use Rattle.std.specs.Prelude.{◌≡◌, unwrap_or};
ghost use Rattle.std.specs.Option.{option_copied};
ghost use Rattle.ha_sight.specs.Values as values;
ghost use Rattle.ha_config.specs.Words as words;

use ha_value::{Num, Value, Word};

/// The value of the first pair of that name.
pub fn first_pair<'a>(pairs: &'a [(Word, Value)], name: &[u8]) -> Option<&'a Value>
    ensures { option_copied result ≡ words.first_pair name.now pairs.now }
{
    for pair in pairs {
        if pair.0.bytes() == name {
            return Some(&pair.1);
        }
    }
    None
}

/// The value of a map's key; none where it is not there, or where the value is no map.
pub fn field<'a>(value: &'a Value, name: &[u8]) -> Option<&'a Value>
    ensures { unwrap_or (option_copied result) Value.Null ≡ values.field_of value.now name.now }
{
    match value {
        Value::Pairs(pairs) => first_pair(pairs.as_slice(), name),
        _ => None,
    }
}

/// The item at a place that counts from the front, or where it is negative from the end.
fn item(items: &[Value], place: i64) -> Option<&Value>
    ensures { option_copied result ≡ values.item_number items.now (Num.Whole place) }
{
    let distance = place.unsigned_abs() as usize;
    if 0 <= place {
        items.get(distance)
    } else if distance <= items.len() {
        items.get(items.len() - distance)
    } else {
        None
    }
}

/// The value of a map's key, or the item of a list; none where it is not there, or is asked of
/// another kind.
pub fn part<'a>(value: &'a Value, index: &Value) -> Option<&'a Value>
    ensures { unwrap_or (option_copied result) Value.Null ≡ values.part_at value.now index.now }
{
    match (value, index) {
        (_, Value::Text(name)) => field(value, name.bytes()),
        (Value::Items(items), Value::Number(Num::Whole(place))) => item(items.as_slice(), *place),
        _ => None,
    }
}
