//! What counts as true.
ghost use Rattle.std.specs.Prelude.{◌≡◌, map, bytes_eq};
ghost use Rattle.std.specs.Char.{to_ascii_lowercase};
ghost use Rattle.ha_value.specs.Truth.{is_yes_word, says_yes, says_yes_text, truth};

use crate::cut::trim_blanks;
use crate::value::{Num, Value};

/// Whether the text is the word, which is in lower case, but for the case of its letters.
fn is_word(text: &[u8], word: &[u8]) -> bool
    requires { map to_ascii_lowercase word.now ≡ word.now }
    ensures { result ≡ bytes_eq (map to_ascii_lowercase text.now) word.now }
{
    text.eq_ignore_ascii_case(word)
}

fn is_yes_word(text: &[u8]) -> bool
    ensures { result ≡ is_yes_word text.now }
{
    is_word(text, b"true")
        || (is_word(text, b"yes") || (is_word(text, b"on") || is_word(text, b"enable")))
}

/// Whether a rendered text, without blanks at its ends, is a number other than zero, or one of the words `true`, `yes`, `on` and `enable`
/// in any case.
#[tactic(auto, unfolding(crate::specs::Truth::says_yes_text))]
pub fn says_yes_text(text: &[u8]) -> bool
    ensures { result ≡ says_yes_text text.now }
{
    let text = trim_blanks(text);
    match Num::read(text) {
        Some(number) => number.truth() || is_yes_word(text),
        None => is_yes_word(text),
    }
}

impl Value {
    /// False are null, false, zero, and the empty text, list and map.
    pub fn truth(&self) -> bool
        ensures { result ≡ truth self.now }
    {
        match self {
            Value::Null => false,
            Value::Flag(flag) => *flag,
            Value::Number(number) => number.truth(),
            Value::Text(text) => !text.bytes().is_empty(),
            Value::Items(items) => !items.as_slice().is_empty(),
            Value::Pairs(pairs) => !pairs.as_slice().is_empty(),
        }
    }

    /// Whether the value is the yes of a template: its text says yes, where a flag and a number count as the text that they print.
    pub fn says_yes(&self) -> bool
        ensures { result ≡ says_yes self.now }
    {
        match self {
            Value::Flag(flag) => *flag,
            Value::Number(number) => number.is_in_range() && number.truth(),
            Value::Text(text) => says_yes_text(text.bytes()),
            Value::Null | Value::Items(_) | Value::Pairs(_) => false,
        }
    }
}
