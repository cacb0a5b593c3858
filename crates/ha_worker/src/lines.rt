//! The commands of the lines that are held.
ghost use Rattle.std.specs.Prelude.{◌≡◌, ◌++◌, ◌∷◌, [], OnOk};
ghost use Rattle.flow_line.specs.Command.{cmd_of};
ghost use Rattle.ha_worker.specs.Read.{AreOpen, AreRead};

use flow_line::read_cmd;
use ha_config::Cmd;
use ha_text::LineCut;
use std::alloc::{AllocError, Global};
use std::collections::VecDeque;

/// Reads the command of a line, and puts it behind these. There is room for it before it is read: so no error has to hand it back.
fn push_cmd(alloc: Global, line: &[u8], cmds: &mut VecDeque<Cmd>) -> Result<(), AllocError>
    requires open { AreOpen cmds.old.items }
    ensures cmds { OnOk result (cmds.new.items ≡ cmds.old.items ++ cmd_of line.now ∷ []) }
    ensures open { OnOk result (AreOpen cmds.new.items) }
{
    cmds.reserve(1)?;
    let cmd = read_cmd(alloc, line)?;
    cmds.push_back_reserved(cmd);
    Ok(())
}

/// Reads the commands of all whole lines that are held, in order, into this list, which is empty.
pub(crate) fn read_lines(
    alloc: Global,
    cut: &mut LineCut,
    cmds: &mut VecDeque<Cmd>,
) -> Result<(), AllocError>
    requires empty { cmds.old.items ≡ [] }
    ensures read { OnOk result (AreRead cut.old cmds.new.items cut.new) }
    ensures open { OnOk result (AreOpen cmds.new.items) }
{
    'lines: while let Some(line) = cut.take()? {
        push_cmd(alloc, line.as_slice(), cmds)?;
    }
    Ok(())
}
