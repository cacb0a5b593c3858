//! The pairs of a printed map, taken from the first one on.

ghost use Rattle.std.specs.Prelude.{◌≡◌, drop};
ghost use Rattle.flow_printed.specs.Map.{ended, flag_at, front_value, map_at, text_at, Says};

use ha_value::{Many, Value, Word};
use reading::Stop;

/// The text is the print of no command.
#[derive(Clone, Copy, Debug, PartialEq, Eq)]
pub struct NoCommand;

/// Why no command was read: there is none, or no memory.
pub type Unread = Stop<NoCommand>;

/// The pairs of a map.
pub type Pairs = Many<(Word, Value)>;

/// Takes the first pair, and gives its value where it has this key.
fn take(pairs: &mut Pairs, key: &[u8]) -> Option<Value>
    ensures value { result ≡ front_value key.now pairs.old }
    ensures rest { pairs.new ≡ drop 1 pairs.old }
{
    if pairs.is_empty() {
        return None;
    }
    let (first, value) = pairs.remove(0);
    if first.bytes() == key {
        Some(value)
    } else {
        None
    }
}

/// Takes the first pair, whose value is a text.
pub fn take_text(pairs: &mut Pairs, key: &[u8]) -> Result<Word, Unread>
    ensures value { Says (text_at key.now pairs.old) result }
    ensures rest { pairs.new ≡ drop 1 pairs.old }
{
    match take(pairs, key) {
        Some(Value::Text(text)) => Ok(text),
        _ => Err(Stop::Fault(NoCommand)),
    }
}

/// Takes the first pair, whose value is a flag.
pub fn take_flag(pairs: &mut Pairs, key: &[u8]) -> Result<bool, Unread>
    ensures value { Says (flag_at key.now pairs.old) result }
    ensures rest { pairs.new ≡ drop 1 pairs.old }
{
    match take(pairs, key) {
        Some(Value::Flag(flag)) => Ok(flag),
        _ => Err(Stop::Fault(NoCommand)),
    }
}

/// Takes the first pair, whose value is a map.
pub fn take_map(pairs: &mut Pairs, key: &[u8]) -> Result<Pairs, Unread>
    ensures value { Says (map_at key.now pairs.old) result }
    ensures rest { pairs.new ≡ drop 1 pairs.old }
{
    match take(pairs, key) {
        Some(Value::Pairs(map)) => Ok(map),
        _ => Err(Stop::Fault(NoCommand)),
    }
}

/// That no pair is left.
pub fn end(pairs: &Pairs) -> Result<(), Unread>
    ensures { Says (ended pairs.now) result }
{
    if pairs.is_empty() {
        Ok(())
    } else {
        Err(Stop::Fault(NoCommand))
    }
}
