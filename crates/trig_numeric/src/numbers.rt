//! The numbers of texts and attributes.
ghost use Rattle.std.specs.Prelude.{◌≡◌, option_and_then};
ghost use Rattle.std.specs.Option.{option_copied};
ghost use Rattle.ha_value.specs.Numbers.{kept_in_range, print_number, read_number};
ghost use Rattle.ha_sight.specs.Conditions.{attribute_text, number_watched};

use ha_config::first_pair;
use ha_value::{Num, Value, Word};

/// The number, where it is in range.
fn in_range(number: Num) -> Option<Num>
    ensures { result ≡ kept_in_range number }
{
    if number.is_in_range() {
        Some(number)
    } else {
        None
    }
}

/// What is read of a whole number's print.
#[tactic(auto, using(ha_value::proofs::PrintLemmas::prints))]
fn whole_read_back(whole: i64) -> Option<Num>
    ensures { result ≡ read_number (print_number (Num.Whole whole)) }
{
    in_range(Num::Whole(whole))
}

/// What is read of a fixed-point number's print.
#[tactic(auto, using(ha_value::proofs::PrintLemmas::prints))]
fn fixed_read_back(fixed: i64) -> Option<Num>
    ensures { result ≡ read_number (print_number (Num.Fixed fixed)) }
{
    in_range(Num::Fixed(fixed))
}

/// The number of an attribute's text: of a number, as it is printed, and of a text. There is none exactly where that is no number text, or
/// its number is out of range.
pub fn number_of(value: &Value) -> Option<Num>
    ensures { result ≡ option_and_then read_number (attribute_text value.now) }
{
    match value {
        Value::Number(Num::Whole(whole)) => whole_read_back(*whole),
        Value::Number(Num::Fixed(fixed)) => fixed_read_back(*fixed),
        Value::Text(text) => Num::read(text.bytes()),
        Value::Flag(_) => None,
        Value::Null | Value::Items(_) | Value::Pairs(_) => None,
    }
}

/// The number of a text with attributes: that of the text, or of the named attribute.
pub fn number_in(attribute: Option<&Word>, text: &Word, attributes: &[(Word, Value)]) -> Option<Num>
    ensures { result ≡ number_watched (option_copied attribute.entry) text.now attributes.now }
{
    match attribute {
        None => Num::read(text.bytes()),
        Some(name) => match first_pair(name, attributes) {
            Some(value) => number_of(value),
            None => None,
        },
    }
}
