//! What is asked of a core.
ghost use Rattle.std.specs.Prelude.{◌≡◌, ◌↔◌, ◌<◌, ◌++◌, ◌∷◌, [], ℕ, List, Option, Some, Bool, true, false, count_by, IfOk, IfErr, OnOk, OnErr, Err};
ghost use Rattle.std.specs.List.{list_any};
ghost use Rattle.ha_journal.specs.declared.entry.Entry.{Entry};
ghost use Rattle.ha_sight.specs.declared.item.Item.{Item};
ghost use Rattle.ha_model.specs.declared.record.Record.{Record};
ghost use Rattle.ha_journal.specs.Force.{IsAlike};
ghost use Rattle.ha_journal.specs.Journal.{automations, configured};
ghost use Rattle.ha_config.specs.Fair.{prepared};
ghost use Rattle.ha_journal.specs.Commands.{put_as, AreRead, IsFair};
ghost use Rattle.ha_journal.specs.Entries.{restarts};
ghost use Rattle.ha_model.specs.Lawful.{is_line_of, shuts, pick};
ghost use Rattle.ha_whole.specs.Trace.{names};
ghost use Rattle.ha_whole.specs.Whole.{HasRoom, LacksRoom, Right, changes_store, is_quiet, is_rested, put, ready, store_text, switch_of};

use crate::faults::CoreFault;
use ha_config::{Cmd, Config};
use ha_journal::Entry;
use ha_model::{Prepare, Record};
use ha_value::{Many, Word};
use std::alloc::{AllocError, Global};

/// A core: a journal with its records, to which lines and steps are put. Once memory ran out in a put it is spent, and only its journal and
/// records are of use.
pub trait Core: Sized {
    /// What the texts of reloads are read by.
    type Prepare: Prepare + Send;

    /// The journal.
    ghost entries: { Self → List Entry };

    /// The records of its runs.
    ghost runs: { Self → List Record };

    ghost is_spent: { Self → Bool };

    /// Puts a line of a source; a command that names no automation is put as refused by L9, and a reload by L12
    /// where its text is no configuration, or by L13 where 64 reloads stand before it. Behind a restart the entry that opens the next
    /// segment is put with it. Full exactly where there is no room: all is then as before. After Memory the core is spent, its journal and
    /// records as before.
    fn put_line(&mut self, source: u32, number: u64, cmd: Cmd) -> Result<(), CoreFault>
        requires usable { is_spent self.old ≡ false }
        requires known { source < 16 }
        requires rested { is_rested (runs self.old) source (entries self.old) ≡ true }
        requires next { number ≡ count_by (is_line_of source) (entries self.old) }
        requires unshut { list_any (shuts source) (entries self.old) ≡ false }
        requires fair { IsFair (entries self.old) (put_as (entries self.old) (prepared Self.Prepare.reads cmd)) }
        ensures put { OnOk result (entries self.new ≡ put (entries self.old) (Entry.Line source number (put_as (entries self.old) (prepared Self.Prepare.reads cmd)))) }
        ensures right { OnOk result (Right (entries self.new) (runs self.new)) }
        ensures room { OnOk result (HasRoom (entries self.old) (restarts cmd)) }
        ensures full { IfErr result (λ e. e ≡ CoreFault.Full → LacksRoom (entries self.old) (restarts cmd)) }
        ensures stays { OnErr result ((entries self.new ≡ entries self.old) × (runs self.new ≡ runs self.old)) }
        ensures spent { (is_spent self.new ≡ true) ↔ (result ≡ Err CoreFault.Memory) };

    /// Puts one step of worker `worker`: of the ready pairs of run and branch that at the place of the worker's number, modulo how many
    /// there are. Full exactly where the last segment or the journal is full: all is then as before. After Memory the core is spent, its
    /// journal and records as before.
    fn put_step(&mut self, worker: u32) -> Result<(), CoreFault>
        requires usable { is_spent self.old ≡ false }
        requires busy { is_quiet (runs self.old) (entries self.old) ≡ false }
        ensures put { OnOk result ((serial : ℕ) × (branch : List ℕ) × (item : Item) × (pick worker (ready (runs self.old) (entries self.old)) ≡ Some (serial, branch)) × (entries self.new ≡ entries self.old ++ Entry.Step worker serial branch item ∷ [])) }
        ensures right { OnOk result (Right (entries self.new) (runs self.new)) }
        ensures room { OnOk result (HasRoom (entries self.old) false) }
        ensures full { IfErr result (λ e. e ≡ CoreFault.Full → LacksRoom (entries self.old) false) }
        ensures stays { OnErr result ((entries self.new ≡ entries self.old) × (runs self.new ≡ runs self.old)) }
        ensures spent { (is_spent self.new ≡ true) ↔ (result ≡ Err CoreFault.Memory) };

    /// Whether the source may put a line: it has none in the last segment, or the journal was quiet at some time since its last one there.
    fn rested(&self, source: u32) -> bool
        requires { is_spent self.now ≡ false }
        ensures { result ≡ is_rested (runs self.now) source (entries self.now) };

    /// Whether no run is ready to step.
    fn quiet(&self) -> bool
        requires { is_spent self.now ≡ false }
        ensures { result ≡ is_quiet (runs self.now) (entries self.now) };

    /// Whether memory ran out in a put.
    fn spent(&self) -> bool
        ensures { result ≡ is_spent self.now };

    /// The journal. The configuration of each reload in it is what its text is read as.
    fn journal(&self) -> &[Entry]
        ensures value { result.now ≡ entries self.now }
        ensures right { Right (entries self.now) (runs self.now) }
        ensures read { AreRead Self.Prepare.reads (entries self.now) };

    /// The records of its runs, in order of their serials.
    fn records(&self) -> &[Record]
        ensures value { result.now ≡ runs self.now }
        ensures right { Right (entries self.now) (runs self.now) };

    /// The configuration in force, but for its helpers: those are the boot's.
    fn config(&self) -> &Config
        ensures automations { result.now.automations ≡ automations (entries self.now) }
        ensures configured { IsAlike result.now (configured (entries self.now)) };

    /// The names that the runs of all units of the last segment have, by the units' numbers.
    fn units(&self) -> &Many<Word>
        ensures { result.now ≡ names (entries self.now) };

    /// Whether the automation is on; none exactly where there is none.
    fn on(&self, automation: u32) -> Option<bool>
        requires { is_spent self.now ≡ false }
        ensures { result ≡ switch_of (entries self.now) automation };

    /// The text that keeps the switches, and when automations last triggered.
    fn store_text(&self, alloc: Global) -> Result<Word, AllocError>
        requires { is_spent self.now ≡ false }
        ensures { IfOk result (λ text. text ≡ store_text (entries self.now)) };

    /// Whether the last put, or the boot, changed that text.
    fn last_changed_switch(&self) -> bool
        requires { is_spent self.now ≡ false }
        ensures { result ≡ changes_store (entries self.now) };

    /// The journal and the records, without taking memory.
    fn into_parts(self) -> (Many<Entry>, Many<Record>)
        ensures journal { result.0 ≡ entries self }
        ensures records { result.1 ≡ runs self };
}
