//! How many values a value is: itself, and those inside it.
ghost use Rattle.std.specs.Prelude.{◌≡◌};
ghost use Rattle.ha_sight.specs.Values.{most_values, size_of};
ghost use Rattle.tpl_eval.specs.Sizes.{items_size, left_of, pairs_size};

use ha_value::{Value, Word};

/// The most values that a list in brackets has, those inside its items counted.
#[tactic(auto, unfolding(ha_sight::specs::Values::most_values))]
pub fn most_values() -> usize
    ensures { result ≡ most_values }
{
    65_536
}

/// What is left of a number after one.
fn take_one(left: usize) -> Option<usize>
    ensures { result ≡ left_of left 1 }
{
    if left == 0 { None } else { Some(left - 1) }
}

/// What is left of a number after the values that a value is; none where they are more.
#[cycle(size)]
pub fn take_size(value: &Value, left: usize) -> Option<usize>
    ensures { result ≡ left_of left (size_of value.now) }
{
    match take_one(left) {
        Some(left) => match value {
            Value::Null | Value::Flag(_) | Value::Number(_) | Value::Text(_) => Some(left),
            Value::Items(items) => take_items(items.as_slice(), left),
            Value::Pairs(pairs) => take_pairs(pairs.as_slice(), left),
        },
        None => None,
    }
}

#[cycle(size)]
fn take_items(items: &[Value], left: usize) -> Option<usize>
    ensures { result ≡ left_of left (items_size items.now) }
{
    let mut rest = left;
    for i in 0..items.len() {
        match take_size(&items[i], rest) {
            Some(after) => rest = after,
            None => return None,
        }
    }
    Some(rest)
}

#[cycle(size)]
fn take_pairs(pairs: &[(Word, Value)], left: usize) -> Option<usize>
    ensures { result ≡ left_of left (pairs_size pairs.now) }
{
    let mut rest = left;
    for i in 0..pairs.len() {
        match take_size(&pairs[i].1, rest) {
            Some(after) => rest = after,
            None => return None,
        }
    }
    Some(rest)
}
