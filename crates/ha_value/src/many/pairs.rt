//! Named values that are added to a list: a short name or text is written where it then stands, and is never moved.
ghost use Rattle.std.specs.Prelude.{◌≡◌, ◌≤◌, [], ◌∷◌, ◌++◌, length, OnOk, OnErr};

use super::Many;
use crate::held::ROOM;
use crate::value::{Value, push_empty_pair};
use crate::word::Word;
use std::alloc::{AllocError, Global};

/// Adds a pair of a name and a text.
pub fn push_text(
    alloc: Global,
    pairs: &mut Many<(Word, Value)>,
    name: &str,
    text: &str,
) -> Result<(), AllocError>
    ensures ok { OnOk result (pairs.new ≡ pairs.old ++ (name.now, Value.Text text.now) ∷ []) }
    ensures err { OnErr result (pairs.new ≡ pairs.old) }
{
    if name.len() <= ROOM && text.len() <= ROOM {
        return push_short(alloc, &mut pairs.held, name, text);
    }
    let value = Value::Text(Word::from_str(alloc, text)?);
    push_far(alloc, pairs, name, value)
}

/// Adds a pair of a name and a value.
pub fn push_value(
    alloc: Global,
    pairs: &mut Many<(Word, Value)>,
    name: &str,
    value: Value,
) -> Result<(), AllocError>
    ensures ok { OnOk result (pairs.new ≡ pairs.old ++ (name.now, value) ∷ []) }
    ensures err { OnErr result (pairs.new ≡ pairs.old) }
{
    if name.len() <= ROOM {
        return push_named(alloc, &mut pairs.held, name, value);
    }
    push_far(alloc, pairs, name, value)
}

/// A pair that is made before it is added.
#[inline(never)]
fn push_far(
    alloc: Global,
    pairs: &mut Many<(Word, Value)>,
    name: &str,
    value: Value,
) -> Result<(), AllocError>
    ensures ok { OnOk result (pairs.new ≡ pairs.old ++ (name.now, value) ∷ []) }
    ensures err { OnErr result (pairs.new ≡ pairs.old) }
{
    let word = Word::from_str(alloc, name)?;
    pairs.push((word, value))?;
    Ok(())
}

/// A pair of a short name and a short text.
fn push_short(
    alloc: Global,
    pairs: &mut Vec<(Word, Value)>,
    name: &str,
    text: &str,
) -> Result<(), AllocError>
    requires name { length name.now ≤ 22 }
    requires text { length text.now ≤ 22 }
    ensures ok { OnOk result (pairs.new.items ≡ pairs.old.items ++ (name.now, Value.Text text.now) ∷ []) }
    ensures err { OnErr result (pairs.new.items ≡ pairs.old.items) }
{
    let at = pairs.len();
    push_empty_pair(alloc, pairs)?;
    write_short(alloc, &mut pairs[at], name, text);
    Ok(())
}

/// A pair of a short name and a value.
fn push_named(
    alloc: Global,
    pairs: &mut Vec<(Word, Value)>,
    name: &str,
    value: Value,
) -> Result<(), AllocError>
    requires { length name.now ≤ 22 }
    ensures ok { OnOk result (pairs.new.items ≡ pairs.old.items ++ (name.now, value) ∷ []) }
    ensures err { OnErr result (pairs.new.items ≡ pairs.old.items) }
{
    let at = pairs.len();
    push_empty_pair(alloc, pairs)?;
    write_named(&mut pairs[at], name, value);
    Ok(())
}

/// A short name and a short text in the place of a pair.
fn write_short(alloc: Global, pair: &mut (Word, Value), name: &str, text: &str)
    requires name { length name.now ≤ 22 }
    requires text { length text.now ≤ 22 }
    ensures { pair.new ≡ (name.now, Value.Text text.now) }
{
    pair.0.set_short(name);
    pair.1.set_short_text(alloc, text);
}

/// A short name and a value in the place of a pair.
fn write_named(pair: &mut (Word, Value), name: &str, value: Value)
    requires { length name.now ≤ 22 }
    ensures { pair.new ≡ (name.now, value) }
{
    pair.0.set_short(name);
    pair.1 = value;
}
