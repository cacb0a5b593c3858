//! The texts and numbers that a state and its attributes have.
ghost use Rattle.std.specs.Prelude.{◌≡◌, IfOk, option_and_then};
ghost use Rattle.ha_sight.specs.Conditions as conditions;
ghost use Rattle.ha_config.specs.Numbers as numbers;
ghost use Rattle.ha_config.specs.Words as words;
ghost use Rattle.cond_eval.specs.Cases.{is_listed as is_listed_lem};

use ha_value::laws::print_is_read;
use ha_value::{Num, Value, Word};
use std::alloc::{AllocError, Global};
use std::cmp::Ordering;

/// Whether the text is listed.
pub fn is_one_of(text: &[u8], texts: &[Word]) -> bool
    ensures { result ≡ words.one_of text.now texts.now }
{
    texts.iter().any(|one| text == one.bytes())
}

/// Whether the text of an attribute is listed. A list, map or null has no text.
pub fn is_listed(alloc: Global, value: &Value, texts: &[Word]) -> Result<bool, AllocError>
    ensures { IfOk result (λ b. b ≡ is_listed_lem texts.now (conditions.attribute_text value.now)) }
{
    match value {
        Value::Flag(flag) => Ok(is_one_of(if *flag { b"true" } else { b"false" }, texts)),
        Value::Number(number) => Ok(is_one_of(number.print(alloc)?.bytes(), texts)),
        Value::Text(text) => Ok(is_one_of(text.bytes(), texts)),
        Value::Null | Value::Items(_) | Value::Pairs(_) => Ok(false),
    }
}

/// The number of an attribute's text, where it has one. What is printed of a number in range is that number.
pub fn number_of(alloc: Global, value: &Value) -> Result<Option<Num>, AllocError>
    ensures { IfOk result (λ n. n ≡ option_and_then numbers.read_number (conditions.attribute_text value.now)) }
{
    match value {
        Value::Flag(_) => Ok(None),
        Value::Number(number) => {
            if number.is_in_range() {
                print_is_read(*number);
                return Ok(Some(*number));
            }
            Ok(Num::read(number.print(alloc)?.bytes()))
        }
        Value::Text(text) => Ok(Num::read(text.bytes())),
        Value::Null | Value::Items(_) | Value::Pairs(_) => Ok(None),
    }
}

fn is_less(left: &Num, right: &Num) -> bool
    ensures { result ≡ numbers.less left.now right.now }
{
    matches!(left.compare(right), Ordering::Less)
}

/// Whether the number is strictly between the bounds that are given.
pub fn in_bounds(above: Option<Num>, below: Option<Num>, number: &Num) -> bool
    ensures { result ≡ numbers.in_bounds above below number.now }
{
    let over = match above {
        None => true,
        Some(above) => is_less(&above, number),
    };
    let under = match below {
        None => true,
        Some(below) => is_less(number, &below),
    };
    over && under
}
