//! What was read for the entries of one give. Contracts alone see it: no byte of it goes through the channel.
ghost use Rattle.std.specs.Prelude.{◌≡◌, [], option_to_list};
ghost use Rattle.bus_pass.specs.Reads.{reading};

use ha_config::Cmd;
use std::collections::VecDeque;
use std::marker::Model;
use std::snapshot::Snapshot;

/// What was read for the entries of one give: commands, the number of the line of the first, and that of the first line that was not put.
#[derive(Drop)]
pub struct Read {
    from: u64,
    next: u64,
    one: Snapshot<Option<Cmd>>,
    many: Option<Snapshot<VecDeque<Cmd>>>,
}

impl Model for Read {
    ghost use Rattle.std.specs.Prelude.{◌++◌, [], option_to_list};
    ghost use Rattle.std.specs.Coded.{codes};
    ghost use Rattle.std.specs.Option.{option_map_or};
    ghost use Rattle.ha_config.specs.contracts.command.Cmd as cmd;
    ghost use Rattle.bus_pass.specs.Reads.{Reading, reading};

    ghost Value = { Reading };

    ghost coded = { Prim.hlevel (codes, cmd.the_row.coded) };

    ghost view = { λ r. reading r.from r.next (option_to_list r.one.value ++ option_map_or (λ m. m.value.items) r.many []) };
}

impl Read {
    /// No command was read.
    #[inline(always)]
    pub fn nothing() -> Read
        ensures { result ≡ reading 0 0 [] }
    {
        let nothing = None;
        Read {
            from: 0,
            next: 0,
            one: Snapshot::of(&nothing),
            many: None,
        }
    }

    /// One command was read, where there is one, for the line of this number.
    #[inline(always)]
    pub fn one(from: u64, next: u64, cmd: Snapshot<Option<Cmd>>) -> Read
        ensures { result ≡ reading from next (option_to_list cmd.value) }
    {
        Read {
            from,
            next,
            one: cmd,
            many: None,
        }
    }

    /// These commands were read, for the lines from this number on.
    #[inline(always)]
    pub fn many(from: u64, next: u64, cmds: Snapshot<VecDeque<Cmd>>) -> Read
        ensures { result ≡ reading from next cmds.value.items }
    {
        let nothing = None;
        Read {
            from,
            next,
            one: Snapshot::of(&nothing),
            many: Some(cmds),
        }
    }
}
