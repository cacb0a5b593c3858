//! The machine of an engine: the journal with its records, and the parts that stand for it. It puts commands that were prepared.
ghost use Rattle.std.specs.Prelude.{◌≡◌, ◌↔◌, ◌<◌, ◌++◌, ◌∷◌, ◌&&◌, [], ℕ, List, Some, IfErr, IfSome, OnOk, OnErr, Err, is_some, nat_lt, true, false};
ghost use Rattle.ha_config.specs.declared.command.Cmd.TheVariants.{Restart};
ghost use Rattle.ha_config.specs.Fair.{most_reloads};
ghost use Rattle.ha_journal.specs.Entries.{reloads_to, restarts as restarts_lem};
ghost use Rattle.ha_journal.specs.Force.{IsAlike};
ghost use Rattle.ha_journal.specs.Journal.{automations, configured};
ghost use Rattle.ha_config.specs.Sound.{IsSoundConfig};
ghost use Rattle.ha_journal.specs.Commands.{lets_reload, put_as as put_as_lem, IsFair};
ghost use Rattle.ha_sight.specs.declared.item.Item as item_lem;
ghost use Rattle.ha_journal.specs.declared.entry.Entry.{Entry as Item};
ghost use Rattle.ha_model.specs.Lawful.{pick};
ghost use Rattle.ha_whole.specs.Trace.{names};
ghost use Rattle.ha_whole.specs.Whole.{CannotRestart, HasRoom, IsFull, LacksRoom, Right, is_quiet, is_rested, put, ready, switch_of};

use crate::advance::advance;
use crate::bounds::Bounds;
use crate::kept::Kept;
use crate::lasts::{both, note_lasts};
use crate::line::{brings, follow_pushed, let_go, push_line, restarts};
use crate::restart::follow_restart;
use crate::settle::settle_last;
use engine_parts::last::drop_last;
use engine_parts::parts::Parts;
use ha_clock::Moment;
use ha_config::{Cmd, Config};
use ha_journal::Entry;
use ha_model::Record;
use ha_value::{Many, Word};
use ha_whole::CoreFault;
use named_runs::NamedRuns;
use std::alloc::{AllocError, Global};
use std::marker::Model;
use unit_book::UnitBook;

/// How many reloads a journal has at most.
const MOST_RELOADS: u32 = 64;

/// Whether one more may stand behind so many.
fn lets_more(reloads: u32) -> bool
    ensures { result ≡ nat_lt reloads most_reloads }
{
    reloads < MOST_RELOADS
}

/// The machine.
#[derive(Drop)]
pub struct Machine {
    pub(crate) alloc: Global,
    /// All entries.
    pub(crate) journal: Vec<Entry>,
    /// Where the units of the last segment stand among them.
    pub(crate) book: UnitBook,
    pub(crate) runs: NamedRuns,
    /// What stands for the last segment alone.
    pub(crate) parts: Parts,
    /// By the first unit of a name, when one of the name last triggered.
    pub(crate) lasts: Vec<Option<Moment>>,
    /// The places of the automations in force in the byte order of their names.
    pub(crate) order: Many<u32>,
    pub(crate) bounds: Bounds,
    /// How many reloads there are.
    pub(crate) reloads: u32,
    /// Whether the opening of the last segment changed a switch.
    pub(crate) reset: bool,
    /// Whether the last put changed when an automation last triggered.
    pub(crate) moved: bool,
    /// Behind a reload, what the store kept before it.
    pub(crate) kept: Option<Kept>,
    pub(crate) spent: bool,
}

impl Model for Machine {
    ghost use Rattle.ha_engine.specs.Core.{Core};
    ghost use Rattle.std.specs.Coded.{codes};
    ghost use Rattle.ha_model.specs.contracts.record.Record as run;
    ghost use Rattle.ha_journal.specs.contracts.entry.Entry as item;

    ghost Value = { Core };

    ghost coded = { Prim.hlevel (codes, run.the_row.coded, item.the_row.coded) };

    ghost use Rattle.ha_engine.specs.Engines.{core_of, IsKept};

    ghost view = { core_of };

    ghost invariant = { IsKept };
}

impl Machine {
    /// Whether one more entry has room, if it is no restart.
    #[inline(always)]
    pub(crate) fn has_room(&self) -> bool
        ensures room { result ≡ true → HasRoom self.now.entries false }
        ensures full { result ≡ false → IsFull self.now.entries }
    {
        self.journal.len() < self.bounds.limit
    }

    /// Memory ran out before a put.
    pub(crate) fn spend(&mut self)
        ensures entries { self.new.entries ≡ self.old.entries }
        ensures runs { self.new.runs ≡ self.old.runs }
        ensures spent { self.new.is_spent ≡ true }
    {
        self.spent = true;
    }

    /// Whether a restart has room with the entry behind it, where one entry has.
    fn lets_restart(&self) -> bool
        requires { HasRoom self.now.entries false }
        ensures room { result ≡ true → HasRoom self.now.entries true }
        ensures full { result ≡ false → CannotRestart self.now.entries }
    {
        self.bounds.lets_restart(self.journal.len())
    }

    /// Puts a line that is no restart and brings no configuration, for which there is room.
    #[inline(always)]
    fn append_plain(&mut self, source: u32, number: u64, cmd: Cmd) -> Result<(), AllocError>
        requires usable { self.old.is_spent ≡ false }
        requires known { source < 16 }
        requires fair { IsFair self.old.entries (put_as_lem self.old.entries cmd) }
        requires plain { restarts_lem cmd ≡ false }
        requires quiet { (is_some (reloads_to cmd) && lets_reload self.old.entries) ≡ false }
        requires room { HasRoom self.old.entries false }
        ensures put { OnOk result (self.new.entries ≡ put self.old.entries (Item.Line source number (put_as_lem self.old.entries cmd))) }
        ensures right { OnOk result (Right self.new.entries self.new.runs) }
        ensures stays { OnErr result ((self.new.entries ≡ self.old.entries) × (self.new.runs ≡ self.old.runs)) }
        ensures fresh { OnOk result (self.new.is_spent ≡ false) }
        ensures spent { OnErr result (self.new.is_spent ≡ true) }
    {
        if self.journal.reserve(1).is_err() {
            let_go(cmd);
            self.spent = true;
            return Err(AllocError);
        }
        push_line(&mut self.journal, source, number, cmd);
        let lets = lets_more(self.reloads);
        settle_last(
            self.alloc,
            &self.parts.helpers,
            self.journal.as_mut_slice(),
            &self.book,
            lets,
        );
        let before = self.runs.len();
        match follow_pushed(
            self.alloc,
            self.journal.as_slice(),
            self.bounds,
            &self.book,
            &mut self.runs,
            &mut self.parts,
        ) {
            Ok(()) => {
                self.moved = note_lasts(
                    &mut self.lasts,
                    self.book.listed(),
                    &self.runs,
                    before,
                    self.parts.at,
                );
                self.kept = None;
                Ok(())
            }
            Err(error) => {
                drop_last(&mut self.journal);
                self.spent = true;
                Err(error)
            }
        }
    }

    /// Puts a restart with the entry behind it, for which there is room.
    #[inline(never)]
    fn append_restart(&mut self, source: u32, number: u64) -> Result<(), AllocError>
        requires usable { self.old.is_spent ≡ false }
        requires known { source < 16 }
        requires room { HasRoom self.old.entries true }
        ensures put { OnOk result (self.new.entries ≡ put self.old.entries (Item.Line source number Restart)) }
        ensures right { OnOk result (Right self.new.entries self.new.runs) }
        ensures stays { OnErr result ((self.new.entries ≡ self.old.entries) × (self.new.runs ≡ self.old.runs)) }
        ensures fresh { OnOk result (self.new.is_spent ≡ false) }
        ensures spent { OnErr result (self.new.is_spent ≡ true) }
    {
        if self.journal.reserve(2).is_err() {
            self.spent = true;
            return Err(AllocError);
        }
        push_line(&mut self.journal, source, number, Cmd::Restart);
        match follow_restart(
            self.alloc,
            &mut self.journal,
            &mut self.bounds,
            &mut self.book,
            &mut self.runs,
            &mut self.parts,
            &mut self.lasts,
            &mut self.moved,
        ) {
            Ok(reset) => {
                self.reset = reset;
                self.kept = None;
                Ok(())
            }
            Err(error) => {
                drop_last(&mut self.journal);
                self.spent = true;
                Err(error)
            }
        }
    }

    /// Puts a line that is no restart, for which there is room.
    #[inline(always)]
    fn append_other(&mut self, source: u32, number: u64, cmd: Cmd) -> Result<(), AllocError>
        requires usable { self.old.is_spent ≡ false }
        requires known { source < 16 }
        requires fair { IsFair self.old.entries (put_as_lem self.old.entries cmd) }
        requires sound { IfSome (reloads_to cmd) IsSoundConfig }
        requires plain { restarts_lem cmd ≡ false }
        requires room { HasRoom self.old.entries false }
        ensures put { OnOk result (self.new.entries ≡ put self.old.entries (Item.Line source number (put_as_lem self.old.entries cmd))) }
        ensures right { OnOk result (Right self.new.entries self.new.runs) }
        ensures stays { OnErr result ((self.new.entries ≡ self.old.entries) × (self.new.runs ≡ self.old.runs)) }
        ensures fresh { OnOk result (self.new.is_spent ≡ false) }
        ensures spent { OnErr result (self.new.is_spent ≡ true) }
    {
        if self.enters(&cmd) {
            return self.append_reload(source, number, cmd);
        }
        self.append_plain(source, number, cmd)
    }

    /// Whether a command brings a configuration, and one more reload may stand.
    fn enters(&self, cmd: &Cmd) -> bool
        ensures { result ≡ (is_some (reloads_to cmd.now) && lets_reload self.now.entries) }
    {
        both(brings(cmd), lets_more(self.reloads))
    }

    /// Puts a line of a source, for which there is room if it is no restart.
    #[inline(always)]
    fn append_by_kind(&mut self, source: u32, number: u64, cmd: Cmd) -> Result<(), CoreFault>
        requires usable { self.old.is_spent ≡ false }
        requires known { source < 16 }
        requires fair { IsFair self.old.entries (put_as_lem self.old.entries cmd) }
        requires sound { IfSome (reloads_to cmd) IsSoundConfig }
        requires room { HasRoom self.old.entries false }
        ensures put { OnOk result (self.new.entries ≡ put self.old.entries (Item.Line source number (put_as_lem self.old.entries cmd))) }
        ensures right { OnOk result (Right self.new.entries self.new.runs) }
        ensures room { OnOk result (HasRoom self.old.entries (restarts_lem cmd)) }
        ensures full { IfErr result (λ e. e ≡ CoreFault.Full → LacksRoom self.old.entries (restarts_lem cmd)) }
        ensures stays { OnErr result ((self.new.entries ≡ self.old.entries) × (self.new.runs ≡ self.old.runs)) }
        ensures spent { (self.new.is_spent ≡ true) ↔ (result ≡ Err CoreFault.Memory) }
    {
        if !restarts(&cmd) {
            return match self.append_other(source, number, cmd) {
                Ok(()) => Ok(()),
                Err(_) => Err(CoreFault::Memory),
            };
        }
        let_go(cmd);
        if !self.lets_restart() {
            return Err(CoreFault::Full);
        }
        match self.append_restart(source, number) {
            Ok(()) => Ok(()),
            Err(_) => Err(CoreFault::Memory),
        }
    }

    /// Puts a line of a source, and behind a restart the entry that opens the next segment.
    #[inline(always)]
    pub(crate) fn append_line(
        &mut self,
        source: u32,
        number: u64,
        cmd: Cmd,
    ) -> Result<(), CoreFault>
        requires usable { self.old.is_spent ≡ false }
        requires known { source < 16 }
        requires fair { IsFair self.old.entries (put_as_lem self.old.entries cmd) }
        requires sound { IfSome (reloads_to cmd) IsSoundConfig }
        ensures put { OnOk result (self.new.entries ≡ put self.old.entries (Item.Line source number (put_as_lem self.old.entries cmd))) }
        ensures right { OnOk result (Right self.new.entries self.new.runs) }
        ensures room { OnOk result (HasRoom self.old.entries (restarts_lem cmd)) }
        ensures full { IfErr result (λ e. e ≡ CoreFault.Full → LacksRoom self.old.entries (restarts_lem cmd)) }
        ensures stays { OnErr result ((self.new.entries ≡ self.old.entries) × (self.new.runs ≡ self.old.runs)) }
        ensures spent { (self.new.is_spent ≡ true) ↔ (result ≡ Err CoreFault.Memory) }
    {
        if !self.has_room() {
            let_go(cmd);
            return Err(CoreFault::Full);
        }
        self.append_by_kind(source, number, cmd)
    }

    /// Puts one step of a worker: of the ready pairs that at the place of the worker's number, modulo how many there are.
    pub(crate) fn append_step(&mut self, worker: u32) -> Result<(), CoreFault>
        requires usable { self.old.is_spent ≡ false }
        requires busy { is_quiet self.old.runs self.old.entries ≡ false }
        ensures put { OnOk result ((serial : ℕ) × (branch : List ℕ) × (item : item_lem.Item) × (pick worker (ready self.old.runs self.old.entries) ≡ Some (serial, branch)) × (self.new.entries ≡ self.old.entries ++ Item.Step worker serial branch item ∷ [])) }
        ensures right { OnOk result (Right self.new.entries self.new.runs) }
        ensures room { OnOk result (HasRoom self.old.entries false) }
        ensures full { IfErr result (λ e. e ≡ CoreFault.Full → LacksRoom self.old.entries false) }
        ensures stays { OnErr result ((self.new.entries ≡ self.old.entries) × (self.new.runs ≡ self.old.runs)) }
        ensures spent { (self.new.is_spent ≡ true) ↔ (result ≡ Err CoreFault.Memory) }
    {
        if !self.has_room() {
            return Err(CoreFault::Full);
        }
        match self.append_one(worker) {
            Ok(()) => Ok(()),
            Err(_) => Err(CoreFault::Memory),
        }
    }

    /// The same, where there is room.
    fn append_one(&mut self, worker: u32) -> Result<(), AllocError>
        requires usable { self.old.is_spent ≡ false }
        requires busy { is_quiet self.old.runs self.old.entries ≡ false }
        requires room { HasRoom self.old.entries false }
        ensures put { OnOk result ((serial : ℕ) × (branch : List ℕ) × (item : item_lem.Item) × (pick worker (ready self.old.runs self.old.entries) ≡ Some (serial, branch)) × (self.new.entries ≡ self.old.entries ++ Item.Step worker serial branch item ∷ [])) }
        ensures right { OnOk result (Right self.new.entries self.new.runs) }
        ensures stays { OnErr result ((self.new.entries ≡ self.old.entries) × (self.new.runs ≡ self.old.runs)) }
        ensures fresh { OnOk result (self.new.is_spent ≡ false) }
        ensures spent { OnErr result (self.new.is_spent ≡ true) }
    {
        if self.journal.reserve(1).is_err() {
            self.spent = true;
            return Err(AllocError);
        }
        let before = self.runs.len();
        match advance(
            self.alloc,
            &mut self.journal,
            self.bounds,
            &self.book,
            &mut self.runs,
            &mut self.parts,
            worker,
        ) {
            Ok(()) => {
                self.moved = note_lasts(
                    &mut self.lasts,
                    self.book.listed(),
                    &self.runs,
                    before,
                    self.parts.at,
                );
                self.kept = None;
                Ok(())
            }
            Err(error) => {
                self.spent = true;
                Err(error)
            }
        }
    }

    /// Whether no run is ready to step.
    pub(crate) fn is_quiet(&self) -> bool
        requires { self.now.is_spent ≡ false }
        ensures { result ≡ is_quiet self.now.runs self.now.entries }
    {
        self.parts.ready.pairs.len() == 0
    }

    /// Whether the source may put a line.
    pub(crate) fn is_rested(&self, source: u32) -> bool
        requires { self.now.is_spent ≡ false }
        ensures { result ≡ is_rested self.now.runs source self.now.entries }
    {
        match self.parts.rested.get(source as usize) {
            Some(flag) => *flag,
            None => true,
        }
    }

    /// The journal.
    pub(crate) fn entries(&self) -> &[Entry]
        ensures value { result.now ≡ self.now.entries }
        ensures right { Right self.now.entries self.now.runs }
    {
        self.journal.as_slice()
    }

    /// The configuration in force.
    pub(crate) fn configuration(&self) -> &Config
        ensures automations { result.now.automations ≡ automations self.now.entries }
        ensures configured { IsAlike result.now (configured self.now.entries) }
    {
        self.book.configuration(self.journal.as_slice())
    }

    /// The names that the runs of all units have, by the units' numbers.
    pub(crate) fn unit_names(&self) -> &Many<Word>
        ensures { result.now ≡ names self.now.entries }
    {
        self.book.names()
    }

    /// The records of its runs.
    pub(crate) fn runs(&self) -> &[Record]
        ensures value { result.now ≡ self.now.runs }
        ensures right { Right self.now.entries self.now.runs }
    {
        self.runs.all()
    }

    /// Whether memory ran out in a put.
    pub(crate) fn is_spent(&self) -> bool
        ensures { result ≡ self.now.is_spent }
    {
        self.spent
    }

    /// Whether the automation is on.
    pub(crate) fn switch(&self, automation: u32) -> Option<bool>
        requires { self.now.is_spent ≡ false }
        ensures { result ≡ switch_of self.now.entries automation }
    {
        self.parts.switches.is_on(automation)
    }

    /// The journal and the records.
    pub(crate) fn taken_apart(self) -> (Many<Entry>, Many<Record>)
        ensures journal { result.0 ≡ self.entries }
        ensures records { result.1 ≡ self.runs }
    {
        let Machine {
            journal,
            book,
            runs,
            parts,
            lasts,
            order,
            kept,
            ..
        } = self;
        drop(book);
        drop(parts);
        drop(lasts);
        drop(order);
        drop(kept);
        (Many::from_vec(journal), runs.into_all())
    }
}
