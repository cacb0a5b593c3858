//! A command with what its text is read as.
ghost use Rattle.std.specs.Prelude.{◌≡◌, IfOk, IfSome};
ghost use Rattle.ha_config.specs.Fair.{prepared};
ghost use Rattle.ha_config.specs.Sound.{IsSoundConfig};
ghost use Rattle.ha_journal.specs.Entries.{reloads_to};

use ha_config::Cmd;
use ha_model::Prepare;
use std::alloc::{AllocError, Global};

/// A command with what its text is read as: a reload gets the configuration that its text is, and any other command stays.
pub(crate) fn prepared<P: Prepare>(alloc: Global, prepare: &P, cmd: Cmd) -> Result<Cmd, AllocError>
    ensures value { IfOk result (λ made. made ≡ prepared P.reads cmd) }
    ensures sound { IfOk result (λ made. IfSome (reloads_to made) IsSoundConfig) }
{
    match cmd {
        Cmd::Reload { text, .. } => {
            let config = prepare.read(alloc, &text)?;
            Ok(Cmd::Reload { text, config })
        }
        other => Ok(other),
    }
}
