//! A machine whose next line brings another configuration into force.
ghost use Rattle.std.specs.Prelude.{◌≡◌, ◌<◌, ◌+◌, IfSome, OnOk, OnErr, is_some, true, false};
ghost use Rattle.ha_config.specs.Fair.{most_reloads};
ghost use Rattle.ha_config.specs.Sound.{IsSoundConfig};
ghost use Rattle.ha_config.specs.StoreText.{in_name_order};
ghost use Rattle.ha_journal.specs.Commands.{IsFair};
ghost use Rattle.ha_journal.specs.Entries.{reloads_to};
ghost use Rattle.ha_journal.specs.declared.entry.Entry.{Entry as Item};
ghost use Rattle.ha_journal.specs.States.{switches_of};
ghost use Rattle.ha_whole.specs.Lasts.{lasts};
ghost use Rattle.ha_whole.specs.Segments.{segment};
ghost use Rattle.ha_whole.specs.Whole.{HasRoom, Right, put};

use crate::engine::Machine;
use crate::kept::Kept;
use crate::lasts::note_lasts;
use crate::line::{let_go, push_line};
use crate::reload::{Reloaded, follow_reload};
use engine_parts::last::drop_last;
use ha_config::Cmd;
use std::alloc::AllocError;

/// One more than so many.
fn one_more(reloads: u32) -> u32
    requires { reloads < most_reloads }
    ensures { result ≡ reloads + 1 }
{
    reloads + 1
}

impl Machine {
    /// Puts a reload with its configuration, for which there is room.
    #[inline(never)]
    pub(crate) fn append_reload(
        &mut self,
        source: u32,
        number: u64,
        cmd: Cmd,
    ) -> Result<(), AllocError>
        requires usable { self.old.is_spent ≡ false }
        requires known { source < 16 }
        requires fair { IsFair self.old.entries cmd }
        requires sound { IfSome (reloads_to cmd) IsSoundConfig }
        requires reloads { is_some (reloads_to cmd) ≡ true }
        requires room { HasRoom self.old.entries false }
        ensures put { OnOk result (self.new.entries ≡ put self.old.entries (Item.Line source number cmd)) }
        ensures right { OnOk result (Right self.new.entries self.new.runs) }
        ensures stays { OnErr result ((self.new.entries ≡ self.old.entries) × (self.new.runs ≡ self.old.runs)) }
        ensures fresh { OnOk result (self.new.is_spent ≡ false) }
        ensures spent { OnErr result (self.new.is_spent ≡ true) }
    {
        match self.kept_now() {
            Ok(kept) => self.append_kept(source, number, cmd, kept),
            Err(error) => {
                let_go(cmd);
                self.spent = true;
                Err(error)
            }
        }
    }

    /// The same, where this is what the store keeps.
    fn append_kept(
        &mut self,
        source: u32,
        number: u64,
        cmd: Cmd,
        kept: Kept,
    ) -> Result<(), AllocError>
        requires usable { self.old.is_spent ≡ false }
        requires known { source < 16 }
        requires fair { IsFair self.old.entries cmd }
        requires sound { IfSome (reloads_to cmd) IsSoundConfig }
        requires reloads { is_some (reloads_to cmd) ≡ true }
        requires room { HasRoom self.old.entries false }
        requires switches { kept.switches ≡ in_name_order (switches_of (segment self.old.entries)) }
        requires moments { kept.moments ≡ in_name_order (lasts (segment self.old.entries)) }
        ensures put { OnOk result (self.new.entries ≡ put self.old.entries (Item.Line source number cmd)) }
        ensures right { OnOk result (Right self.new.entries self.new.runs) }
        ensures stays { OnErr result ((self.new.entries ≡ self.old.entries) × (self.new.runs ≡ self.old.runs)) }
        ensures fresh { OnOk result (self.new.is_spent ≡ false) }
        ensures spent { OnErr result (self.new.is_spent ≡ true) }
    {
        if self.journal.reserve(1).is_err() {
            let_go(cmd);
            self.spent = true;
            return Err(AllocError);
        }
        push_line(&mut self.journal, source, number, cmd);
        let before = self.runs.len();
        match follow_reload(
            self.alloc,
            self.journal.as_slice(),
            self.bounds,
            &self.book,
            &mut self.runs,
            &mut self.parts,
            self.lasts.as_slice(),
        ) {
            Ok(next) => {
                let reloads = one_more(self.reloads);
                let Reloaded { book, order, lasts } = next;
                self.book = book;
                self.order = order;
                self.lasts = lasts;
                self.moved = note_lasts(
                    &mut self.lasts,
                    self.book.listed(),
                    &self.runs,
                    before,
                    self.parts.at,
                );
                self.kept = Some(kept);
                self.reloads = reloads;
                Ok(())
            }
            Err(error) => {
                drop_last(&mut self.journal);
                self.spent = true;
                Err(error)
            }
        }
    }
}
