//! What the data of a call asks for.
ghost use Rattle.std.specs.Prelude.{◌≡◌, ◌&&◌, true, int_le as int_le_lem};
ghost use Rattle.std.specs.Option.{option_map_or};
ghost use Rattle.ha_value.specs.declared.value.Value.TheViews.{out-Value};
ghost use Rattle.ha_clock.specs.SpanText.{bounded};
ghost use Rattle.ha_sight.specs.Checks.{natural_in};
ghost use Rattle.ha_config.specs.Helpers as configured;
ghost use Rattle.ha_sight.specs.Services as services;

use ha_model::{HelperKind, HelperService, Num, Span, Value, Wanted, Word, last_pair};
use std::alloc::Global;

/// Nothing is asked for.
pub fn nothing() -> Wanted
    ensures { result ≡ services.nothing }
{
    Wanted {
        value: None,
        span: None,
    }
}

/// A whole number.
fn whole(value: &Value) -> Option<i64>
    ensures { result ≡ services.whole_value (out-Value value.now) }
{
    match value {
        Value::Number(Num::Whole(whole)) => Some(*whole),
        _ => None,
    }
}

/// So many seconds, within the longest span.
fn seconds(number: &Num) -> Option<Span>
    ensures { result ≡ bounded (natural_in number.now) }
{
    match number {
        Num::Whole(whole) => {
            if *whole < 0 || 31_622_400 < *whole {
                return None;
            }
            Span::of(*whole as u64 * 1000)
        }
        Num::Fixed(_) => None,
    }
}

/// Whole seconds, or the text of a span.
fn span(value: &Value) -> Option<Span>
    ensures { result ≡ services.span_value (out-Value value.now) }
{
    match value {
        Value::Number(number) => seconds(number),
        Value::Text(text) => Span::read(text.bytes()),
        _ => None,
    }
}

/// The value of a counter, which has to be asked for.
fn value_wanted(alloc: Global, fields: &[(Word, Value)]) -> Result<Wanted, u8>
    ensures { result ≡ services.value_wanted fields.now }
{
    let name = Word::short(alloc, "value");
    let Some(value) = last_pair(&name, fields) else {
        return Err(7);
    };
    match whole(value) {
        Some(whole) => Ok(Wanted {
            value: Some(whole),
            span: None,
        }),
        None => Err(7),
    }
}

/// How long a timer is to be active, which may be asked for.
fn span_wanted(alloc: Global, fields: &[(Word, Value)]) -> Result<Wanted, u8>
    ensures { result ≡ services.span_wanted fields.now }
{
    let name = Word::short(alloc, "duration");
    let Some(value) = last_pair(&name, fields) else {
        return Ok(nothing());
    };
    match span(value) {
        Some(span) => Ok(Wanted {
            value: None,
            span: Some(span),
        }),
        None => Err(4),
    }
}

/// What the data of a call of the service asks for, or the code of its failure.
pub fn wanted(alloc: Global, service: HelperService, fields: &[(Word, Value)]) -> Result<Wanted, u8>
    ensures { result ≡ services.wanted service fields.now }
{
    match service {
        HelperService::SetValue => value_wanted(alloc, fields),
        HelperService::Start => span_wanted(alloc, fields),
        HelperService::TurnOn
        | HelperService::TurnOff
        | HelperService::Toggle
        | HelperService::Increment
        | HelperService::Decrement
        | HelperService::Reset
        | HelperService::Pause
        | HelperService::Cancel
        | HelperService::Finish => Ok(nothing()),
    }
}

/// Whether a number is within these bounds.
fn is_within(least: i64, greatest: i64, value: i64) -> bool
    ensures { result ≡ (int_le_lem least value && int_le_lem value greatest) }
{
    least <= value && value <= greatest
}

/// Whether a value that is asked for is within the bounds of the helper.
pub fn fits(wanted: &Wanted, kind: &HelperKind) -> bool
    ensures { result ≡ option_map_or (λ z. option_map_or (λ c. services.is_within c z) (configured.counter_in kind.now) true) wanted.now.value true }
{
    let Some(value) = wanted.value else {
        return true;
    };
    match kind {
        HelperKind::Counter {
            least,
            greatest,
            ..
        } => is_within(*least, *greatest, value),
        _ => true,
    }
}
