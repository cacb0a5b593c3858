//! A rendered text as data.
ghost use Rattle.std.specs.Prelude.{◌≡◌, IfOk};
ghost use Rattle.ha_sight.specs.Values.{as_data, number_or_text};

use ha_value::{Num, Plain, Value, Word};
use std::alloc::{AllocError, Global};

/// The number, where the text is its print; else the text.
fn number_or_text(alloc: Global, text: Word, number: Num) -> Result<Value, AllocError>
    ensures { IfOk result (λ v. v ≡ number_or_text text number) }
{
    let printed = number.print(alloc)?;
    if printed.same(&text) {
        Ok(Value::Number(number))
    } else {
        Ok(Value::Text(text))
    }
}

/// A rendered text as data: the print of a number is that number, `True` and `False` are flags, and all else is a text.
pub fn as_data(alloc: Global, text: Word) -> Result<Value, AllocError>
    ensures { IfOk result (λ v. v ≡ as_data text) }
{
    if text.bytes() == b"True".as_slice() {
        return Ok(Value::Flag(true));
    }
    if text.bytes() == b"False".as_slice() {
        return Ok(Value::Flag(false));
    }
    match Num::read(text.bytes()) {
        Some(number) => number_or_text(alloc, text, number),
        None => Ok(Value::Text(text)),
    }
}
