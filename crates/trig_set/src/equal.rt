//! Whether two values are equal, by value.
ghost use Rattle.std.specs.Prelude.{◌≡◌};
ghost use Rattle.ha_config.specs.Equal.{equal_value, same_flag};
ghost use Rattle.ha_config.specs.Numbers as numbers;
ghost use Rattle.trig_set.specs.Equality as operators;

use ha_config::same_text;
use ha_value::{Num, Value, Word};
use std::cmp::Ordering;

pub fn equal_flag(left: bool, right: bool) -> bool
    ensures { result ≡ same_flag left right }
{
    left == right
}

fn equal_number(left: &Num, right: &Num) -> bool
    ensures { result ≡ numbers.equal_number left.now right.now }
{
    left.compare(right) == Ordering::Equal
}

/// Numbers by value, texts by bytes, lists and maps item by item in order; values of two kinds are
/// never equal.
#[cycle(equal)]
pub fn equal(left: &Value, right: &Value) -> bool
    ensures { result ≡ equal_value left.now right.now }
{
    match (left, right) {
        (Value::Null, Value::Null) => true,
        (Value::Flag(a), Value::Flag(b)) => equal_flag(*a, *b),
        (Value::Number(a), Value::Number(b)) => equal_number(a, b),
        (Value::Text(a), Value::Text(b)) => same_text(a, b),
        (Value::Items(a), Value::Items(b)) => equal_items(a.as_slice(), b.as_slice()),
        (Value::Pairs(a), Value::Pairs(b)) => equal_pairs(a.as_slice(), b.as_slice()),
        _ => false,
    }
}

#[cycle(equal)]
fn equal_items(left: &[Value], right: &[Value]) -> bool
    ensures { result ≡ operators.equal_items left.now right.now }
{
    if left.len() != right.len() {
        return false;
    }
    for i in 0..left.len() {
        if !equal(&left[i], &right[i]) {
            return false;
        }
    }
    true
}

#[cycle(equal)]
fn equal_pairs(left: &[(Word, Value)], right: &[(Word, Value)]) -> bool
    ensures { result ≡ operators.equal_pairs left.now right.now }
{
    if left.len() != right.len() {
        return false;
    }
    for i in 0..left.len() {
        let a = &left[i];
        let b = &right[i];
        if !(same_text(&a.0, &b.0) && equal(&a.1, &b.1)) {
            return false;
        }
    }
    true
}
