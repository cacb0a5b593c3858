//! The line of a call.
ghost use Rattle.std.specs.Prelude.{◌≡◌, ◌++◌, true, Some, OnOk, map, option_map};
ghost use Rattle.ha_sight.specs.ItemText.{call_pairs};
ghost use Rattle.ha_sight.specs.Items.{call_in, is_call};
ghost use Rattle.ha_journal.specs.EntryText.{call_line as call_line_lem};
ghost use Rattle.ha_config.specs.ValueText.{comma_joined, pair_text};

use crate::parts::{push_ids, push_map, push_number};
use flow_line::push_chars;
use ha_sight::Item;
use ha_value::{EntityId, Value, Word};
use std::alloc::{AllocError, Global};

/// Appends the service, the targets and the data of a call, as they stand in a map.
pub(crate) fn push_call(
    alloc: Global,
    text: &mut Word,
    service: &Word,
    target: &[EntityId],
    fields: &[(Word, Value)],
) -> Result<(), AllocError>
    ensures { OnOk result (text.new ≡ text.old ++ comma_joined (map (λ p. pair_text p.0 p.1) (call_pairs service.now target.now fields.now))) }
{
    text.push_str("\"service\":\"")?;
    push_chars(text, service.as_str())?;
    text.push_str("\",\"target\":")?;
    push_ids(text, target)?;
    push_map(alloc, text, ",\"data\":", ",\"data\":{}", fields)?;
    Ok(())
}

fn line_of_call(
    alloc: Global,
    line: &mut Word,
    name: &Word,
    number: u64,
    call: u64,
    service: &Word,
    target: &[EntityId],
    fields: &[(Word, Value)],
) -> Result<(), AllocError>
    ensures { OnOk result (line.new ≡ call_line_lem name.now number call (record { service = service.now; target = target.now; fields = fields.now })) }
{
    line.clear();
    line.push_str("{\"run\":\"")?;
    push_chars(line, name.as_str())?;
    line.push_str("\",\"number\":")?;
    push_number(line, number)?;
    line.push_str(",\"call\":")?;
    push_number(line, call)?;
    line.push_byte(b',')?;
    push_call(alloc, line, service, target, fields)?;
    line.push_str("}\n")?;
    Ok(())
}

/// Writes the line of a call in the place of a text: the automation's name, the number of the run among the runs of that automation,
/// and the number of the call within the run.
pub fn call_line(
    alloc: Global,
    line: &mut Word,
    name: &Word,
    number: u64,
    call: u64,
    item: &Item,
) -> Result<(), AllocError>
    requires { is_call item.now ≡ true }
    ensures { OnOk result (option_map (call_line_lem name.now number call) (call_in item.now) ≡ Some line.new) }
{
    let Item::Call {
        service,
        target,
        fields,
    } = item
    else {
        unreachable!()
    };
    line_of_call(
        alloc,
        line,
        name,
        number,
        call,
        service,
        target.as_slice(),
        fields.as_slice(),
    )
}
