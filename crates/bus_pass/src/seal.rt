//! The bus as it lies in the channel.
ghost use Rattle.std.specs.Prelude.{◌≡◌};
ghost use Rattle.ha_whole.specs.Whole.{Running};
ghost use Rattle.bus_pass.specs.Origins.{IsStored};
ghost use Rattle.bus_pass.specs.Reads.{prepared_in};

use crate::held::Held;
use crate::read::Read;
use ha_io::{Keeper, Sink};
use ha_whole::Core;
use std::marker::Model;
use std::snapshot::Snapshot;

/// A bus as it lies in the channel, with what was read for the entries that were put with it; contracts see these commands with what the
/// texts of reloads are read as. Its journal is lawful and has no closing
/// step, and while the boot stands alone its keeper holds the boot's text.
#[derive(Drop)]
pub struct Sealed<C: Core + Drop, K: Sink, Q: Keeper> {
    bus: Held<C, K, Q>,
    read: Snapshot<Read>,
}

impl<C: Core + Drop, K: Sink, Q: Keeper> Model for Sealed<C, K, Q> {
    ghost use Rattle.std.specs.Coded.{codes};
    ghost use Rattle.ha_config.specs.contracts.command.Cmd as cmd;
    ghost use Rattle.ha_model.specs.contracts.record.Record as run;
    ghost use Rattle.ha_journal.specs.contracts.entry.Entry as item;
    ghost use Rattle.bus_turn.specs.Shown.{BusView};
    ghost use Rattle.ha_whole.specs.Whole.{Running};
    ghost use Rattle.bus_pass.specs.Origins.{IsStored};
    ghost use Rattle.bus_pass.specs.Reads.{Reading, prepared_in};

    ghost Value = { BusView × Reading };

    ghost coded = { Prim.hlevel (codes, run.the_row.coded, item.the_row.coded, cmd.the_row.coded) };

    ghost view = { λ s. (s.bus, prepared_in C.Prepare.reads s.read.value) };

    ghost invariant = { λ s. Running s.bus.journal s.bus.records × IsStored s.bus };
}

impl<C: Core + Drop, K: Sink, Q: Keeper> Sealed<C, K, Q> {
    /// The message of this bus.
    pub fn close(bus: Held<C, K, Q>, read: Snapshot<Read>) -> Sealed<C, K, Q>
        requires running { Running bus.journal bus.records }
        requires stored { IsStored bus }
        ensures { result ≡ (bus, prepared_in C.Prepare.reads read.value) }
    {
        Sealed { bus, read }
    }

    /// The bus of a message.
    pub fn open(self) -> Held<C, K, Q>
        ensures bus { result ≡ self.0 }
        ensures running { Running result.journal result.records }
        ensures stored { IsStored result }
    {
        let Sealed { bus, read: _ } = self;
        bus
    }
}
