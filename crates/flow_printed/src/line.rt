//! The line of a source, as it stands in a trace.

ghost use Rattle.std.specs.Prelude.{◌≡◌, ◌<◌, ◌^◌, length, Some, IfOk, IfSome};
ghost use Rattle.flow_printed.specs.Printed.{IsPrintOfLine};
ghost use Rattle.flow_printed.specs.declared.line.PrintedLine.{PrintedLine};

use crate::cut::cut_line;
use crate::digits::{read_u32, read_u64};
use crate::printed::read_printed;
use ha_config::Cmd;
use ha_value::Word;
use std::alloc::{AllocError, Global};

/// A source's line: its number among the lines of that source, from 0, and the command that was put for it.
#[derive(Drop)]
pub struct PrintedLine {
    pub source: u32,
    pub number: u64,
    pub cmd: Cmd,
}

/// The line that the text is the print of, without the end of the line. Its command is fair but for whether the automation is
/// there that it names. `shown` is written over: prints are made in it.
pub fn read_line(
    alloc: Global,
    text: &[u8],
    shown: &mut Word,
) -> Result<Option<PrintedLine>, AllocError>
    requires { length text.now < 2 ^ 32 }
    // The text is the print of what is read.
    ensures found { IfOk result (λ made. IfSome made (IsPrintOfLine text.now)) }
    // The line that the text is the print of is read, unless memory runs out.
    ensures only { (l : PrintedLine) → l.source < 2 ^ 32 → l.number < 2 ^ 64 → IsPrintOfLine text.now l → IfOk result (λ made. made ≡ Some l) }
{
    let Some((source, number, cmd)) = cut_line(text) else {
        return Ok(None);
    };
    let Some(source) = read_u32(source) else {
        return Ok(None);
    };
    let Some(number) = read_u64(number) else {
        return Ok(None);
    };
    match read_printed(alloc, cmd, shown) {
        Ok(Some(cmd)) => Ok(Some(PrintedLine {
            source,
            number,
            cmd,
        })),
        Ok(None) => Ok(None),
        Err(fault) => Err(fault),
    }
}
