//! Changes of helpers in the trace.
ghost use Rattle.std.specs.Prelude.{◌≡◌, ◌++◌, map, OnOk};
ghost use Rattle.ha_sight.specs.ItemText.{change_text, event_or_null, item_text, span_or_null};
ghost use Rattle.ha_sight.specs.declared.item.Item.TheVariants.{Helped};
ghost use Rattle.ha_config.specs.ValueText.{list_text};

use crate::parts::{push_id, push_number};
use flow_line::{push_comma, push_quoted};
use ha_clock::Span;
use ha_sight::HelperChange;
use ha_value::{Many, Word};
use std::alloc::AllocError;

/// Appends the milliseconds of a span, or `null`.
fn push_span(text: &mut Word, span: Option<Span>) -> Result<(), AllocError>
    ensures { OnOk result (text.new ≡ text.old ++ span_or_null span) }
{
    match span {
        Some(span) => push_number(text, span.millis()),
        None => text.push_str("null"),
    }
}

/// Appends the kind of an event in double quotes, or `null`.
fn push_event(text: &mut Word, event: &Option<Word>) -> Result<(), AllocError>
    ensures { OnOk result (text.new ≡ text.old ++ event_or_null event.now) }
{
    match event {
        Some(event) => {
            push_quoted(text, event.as_str())?;
            Ok(())
        }
        None => text.push_str("null"),
    }
}

/// Appends the change of one helper.
fn push_change(text: &mut Word, change: &HelperChange) -> Result<(), AllocError>
    ensures { OnOk result (text.new ≡ text.old ++ change_text change.now) }
{
    text.push_str("{\"entity\":")?;
    push_id(text, &change.entity)?;
    text.push_str(",\"text\":")?;
    push_quoted(text, change.text.as_str())?;
    text.push_str(",\"span\":")?;
    push_span(text, change.span)?;
    text.push_str(",\"event\":")?;
    push_event(text, &change.event)?;
    text.push_byte(b'}')?;
    Ok(())
}

/// Appends a list of such changes.
fn push_changes(text: &mut Word, changes: &[HelperChange]) -> Result<(), AllocError>
    ensures { OnOk result (text.new ≡ text.old ++ list_text (map change_text changes.now)) }
{
    text.push_byte(b'[')?;
    for i in 0..changes.len() {
        push_comma(text, i)?;
        push_change(text, &changes[i])?;
    }
    text.push_byte(b']')
}

/// Appends the item of changed helpers.
pub(crate) fn push_helped(
    text: &mut Word,
    units: &Many<Word>,
    changes: &[HelperChange],
) -> Result<(), AllocError>
    ensures { OnOk result (text.new ≡ text.old ++ item_text units.now (Helped changes.now)) }
{
    text.push_str("{\"helped\":")?;
    push_changes(text, changes)?;
    text.push_byte(b'}')?;
    Ok(())
}
