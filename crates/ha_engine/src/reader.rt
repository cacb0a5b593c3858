//! The engine: a machine, and the reading of the texts of reloads.
ghost use Rattle.std.specs.Prelude.{◌≡◌, ◌↔◌, ◌<◌, IfErr, OnOk, OnErr, Err, true, false};
ghost use Rattle.ha_config.specs.Fair.{prepared};
ghost use Rattle.ha_journal.specs.declared.entry.Entry.{Entry as Item};
ghost use Rattle.ha_journal.specs.Commands.{AreRead, IsFair, put_as};
ghost use Rattle.ha_journal.specs.Entries.{restarts};
ghost use Rattle.ha_whole.specs.Whole.{HasRoom, LacksRoom, Right, put};

use crate::engine::Machine;
use crate::prepared::prepared;
use ha_config::Cmd;
use ha_model::Prepare;
use ha_whole::CoreFault;
use std::marker::Model;

/// The engine.
#[derive(Drop)]
pub struct Engine<P: Prepare + Drop> {
    pub(crate) machine: Machine,
    /// What the texts of reloads are read by.
    pub(crate) prepare: P,
}

impl<P: Prepare + Drop> Model for Engine<P> {
    ghost use Rattle.ha_engine.specs.Core.{Core};
    ghost use Rattle.std.specs.Coded.{codes};
    ghost use Rattle.ha_model.specs.contracts.record.Record as run;
    ghost use Rattle.ha_journal.specs.contracts.entry.Entry as item;

    ghost Value = { Core };

    ghost coded = { Prim.hlevel (codes, run.the_row.coded, item.the_row.coded) };

    ghost view = { λ e. e.machine };

    ghost use Rattle.ha_journal.specs.Commands.{AreRead as AllRead};

    ghost invariant = { λ e. AllRead P.reads e.machine.entries };
}

impl<P: Prepare + Drop> Engine<P> {
    /// Puts a line of a source, and behind a restart the entry that opens the next segment.
    pub(crate) fn append_line(
        &mut self,
        source: u32,
        number: u64,
        cmd: Cmd,
    ) -> Result<(), CoreFault>
        requires usable { self.old.is_spent ≡ false }
        requires known { source < 16 }
        requires fair { IsFair self.old.entries (put_as self.old.entries (prepared P.reads cmd)) }
        ensures put { OnOk result (self.new.entries ≡ put self.old.entries (Item.Line source number (put_as self.old.entries (prepared P.reads cmd)))) }
        ensures right { OnOk result (Right self.new.entries self.new.runs) }
        ensures room { OnOk result (HasRoom self.old.entries (restarts cmd)) }
        ensures full { IfErr result (λ e. e ≡ CoreFault.Full → LacksRoom self.old.entries (restarts cmd)) }
        ensures stays { OnErr result ((self.new.entries ≡ self.old.entries) × (self.new.runs ≡ self.old.runs)) }
        ensures spent { (self.new.is_spent ≡ true) ↔ (result ≡ Err CoreFault.Memory) }
    {
        if !self.machine.has_room() {
            return Err(CoreFault::Full);
        }
        let cmd = match prepared(self.machine.alloc, &self.prepare, cmd) {
            Ok(cmd) => cmd,
            Err(_) => {
                self.machine.spend();
                return Err(CoreFault::Memory);
            }
        };
        self.machine.append_line(source, number, cmd)
    }
}
