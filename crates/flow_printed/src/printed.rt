//! The command that a text is the print of.

ghost use Rattle.std.specs.Prelude.{◌≡◌, ◌<◌, ◌^◌, length, Some, IfOk, IfSome};
ghost use Rattle.flow_line.specs.Command.{IsInTime};
ghost use Rattle.ha_config.specs.ValueText.{print_pairs};
ghost use Rattle.ha_config.specs.Words.{same};
ghost use Rattle.ha_config.specs.declared.command.Cmd.{Cmd};
ghost use Rattle.flow_line.specs.Reading.{document};
ghost use Rattle.flow_printed.specs.Map.{map_read, printed_cmd, printed_map, Says};
ghost use Rattle.flow_printed.specs.Printed.{IsPrintOf};

use crate::command::command_of;
use crate::fields::{NoCommand, Pairs, Unread};
use crate::plain::read_plain;
use flow_line::{FlowFault, push_pairs, read_value};
use ha_config::Cmd;
use ha_value::{Value, Word};
use reading::Stop;
use std::alloc::{AllocError, Global};

/// The map that a text is.
fn map_of(alloc: Global, text: &[u8]) -> Result<Pairs, Unread>
    requires { length text.now < 2 ^ 32 }
    ensures { Says (map_read (document text.now)) result }
{
    match read_value(alloc, text) {
        Ok(Value::Pairs(pairs)) => Ok(pairs),
        Err(FlowFault::Memory) => Err(Stop::Memory),
        _ => Err(Stop::Fault(NoCommand)),
    }
}

/// Whether the text is the print of the map, which is made in `shown`.
fn shows(
    alloc: Global,
    pairs: &[(Word, Value)],
    text: &[u8],
    shown: &mut Word,
) -> Result<bool, AllocError>
    ensures { IfOk result (λ same_text. same_text ≡ same (print_pairs pairs.now) text.now) }
{
    shown.clear();
    push_pairs(alloc, shown, pairs)?;
    Ok(shown.bytes() == text)
}

/// The map that the text is the print of.
#[tactic(auto, unfolding(crate::specs::Map::printed_map))]
fn printed_map(alloc: Global, text: &[u8], shown: &mut Word) -> Result<Pairs, Unread>
    requires { length text.now < 2 ^ 32 }
    ensures { Says (printed_map text.now) result }
{
    let pairs = map_of(alloc, text)?;
    if shows(alloc, pairs.as_slice(), text, shown)? {
        Ok(pairs)
    } else {
        Err(Stop::Fault(NoCommand))
    }
}

#[tactic(auto, unfolding(crate::specs::Map::printed_cmd))]
fn printed_command(alloc: Global, text: &[u8], shown: &mut Word) -> Result<Cmd, Unread>
    requires { length text.now < 2 ^ 32 }
    ensures exact { Says (printed_cmd text.now) result }
    ensures in_time { IfOk result IsInTime }
{
    let mut pairs = printed_map(alloc, text, shown)?;
    command_of(alloc, &mut pairs)
}

/// The command that the text is the print of, as below, read by way of its map.
fn read_by_map(alloc: Global, text: &[u8], shown: &mut Word) -> Result<Option<Cmd>, AllocError>
    requires { length text.now < 2 ^ 32 }
    ensures found { IfOk result (λ made. IfSome made (IsPrintOf text.now)) }
    ensures only { (c : Cmd) → IsPrintOf text.now c → IfOk result (λ made. made ≡ Some c) }
{
    match printed_command(alloc, text, shown) {
        Ok(made) => Ok(Some(made)),
        Err(Stop::Memory) => Err(AllocError),
        Err(Stop::Fault(_)) => Ok(None),
    }
}

/// The command that the text is the print of, where the command is fair but for whether the automation is there that it names.
/// The text may be longer than a source's line. `shown` is written over: prints are made in it.
pub fn read_printed(alloc: Global, text: &[u8], shown: &mut Word) -> Result<Option<Cmd>, AllocError>
    requires { length text.now < 2 ^ 32 }
    // The text is the print of what is read.
    ensures found { IfOk result (λ made. IfSome made (IsPrintOf text.now)) }
    // The command that the text is the print of is read, unless memory runs out.
    ensures only { (c : Cmd) → IsPrintOf text.now c → IfOk result (λ made. made ≡ Some c) }
{
    match read_plain(alloc, text) {
        Ok(Some(made)) => Ok(Some(made)),
        Ok(None) => read_by_map(alloc, text, shown),
        Err(fault) => Err(fault),
    }
}
