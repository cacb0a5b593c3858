//! What a worker puts on a bus that it holds. Nobody else comes between: the bus is given back behind all of it.
ghost use Rattle.std.specs.Prelude.{◌≡◌, ◌<◌, ◌∷◌, [], ℕ, length, true, false, None, Some, option_to_list, IfSome, IsSome, is_none, Option, map};
ghost use Rattle.std.specs.List.{list_any};
ghost use Rattle.std.specs.VecDeque.{deque_len};
ghost use Rattle.ha_config.specs.declared.config.Config.{Config as Configuration};
ghost use Rattle.ha_config.specs.Words.{Text};
ghost use Rattle.ha_journal.specs.Commands.{IsFair, put_as};
ghost use Rattle.ha_config.specs.Fair.{prepared, shuts_source};
ghost use Rattle.ha_journal.specs.Journal.{Journal};
ghost use Rattle.ha_model.specs.Lawful.{shuts};
ghost use Rattle.ha_whole.specs.Whole.{IsFull, is_rested};
ghost use Rattle.bus_turn.specs.declared.fault.BusFault.{BusFault};
ghost use Rattle.bus_pass.specs.Journal.{IsRestless};
ghost use Rattle.ha_worker.specs.Came.{Came, CameUntil, IsAt};
ghost use Rattle.ha_worker.specs.Read.{AreOpen};

use bus_pass::Held;
use ha_config::Cmd;
use ha_io::{Keeper, Sink};
use ha_whole::Core;
use std::alloc::Global;
use std::collections::VecDeque;

/// Puts steps until the source is rested. Gives whether it is: else the bus keeps a first fault. Where it `goes_on`, a line is put behind
/// the steps, and the trace's sink may keep theirs until then.
fn put_steps<C: Core + Drop, K: Sink, Q: Keeper>(
    alloc: Global,
    bus: &mut Held<C, K, Q>,
    id: u32,
    goes_on: bool,
) -> bool
    requires open { bus.old.first ≡ None }
    ensures came { (n : ℕ) → IsAt n id bus.old → Came id n n [] bus.old bus.new }
    ensures shut { (k : ℕ) → list_any (shuts k) bus.new.journal ≡ list_any (shuts k) bus.old.journal }
    ensures rested { result ≡ true → is_rested bus.new.records id bus.new.journal ≡ true }
    ensures fault { result ≡ is_none bus.new.first }
    ensures full { bus.new.first ≡ Some BusFault.Full → IsFull bus.new.journal × IsRestless bus.new.journal }
{
    'steps: while !bus.rested(id) {
        let _ = bus.first();
        bus.step(alloc, id, goes_on);
        if bus.first().is_some() {
            return false;
        }
    }
    true
}

/// Puts a line with this command. Gives whether the bus keeps no fault. Where it `goes_on`, more is put before the next read of a source,
/// and the trace's sink may keep the line until then. It is a part of its callers, so that the command is not moved once more.
#[inline(always)]
fn put_line<C: Core + Drop, K: Sink, Q: Keeper>(
    alloc: Global,
    bus: &mut Held<C, K, Q>,
    id: u32,
    next: &mut u64,
    cmd: Cmd,
    goes_on: bool,
) -> bool
    requires open { bus.old.first ≡ None }
    requires known { id < 16 }
    requires at { IsAt next.old id bus.old }
    requires rested { is_rested bus.old.records id bus.old.journal ≡ true }
    requires unshut { list_any (shuts id) bus.old.journal ≡ false }
    requires fair { (read : Text → Option Configuration) (j : Journal) → IsFair j (put_as j (prepared read cmd)) }
    ensures some { CameUntil id next.old next.new (prepared C.Prepare.reads cmd ∷ []) result [] bus.old bus.new }
    ensures unshut { shuts_source cmd ≡ false → list_any (shuts id) bus.new.journal ≡ false }
    ensures fault { result ≡ is_none bus.new.first }
{
    let _ = bus.first();
    let before = bus.core().journal().len();
    bus.line(alloc, id, *next, cmd, goes_on);
    let fault = bus.first();
    if bus.core().journal().len() == before {
        return false;
    }
    *next += 1;
    fault.is_none()
}

/// Puts a line with the command that is held, as soon as its source is rested. Nothing else is put before the next read.
pub(crate) fn put_held<C: Core + Drop, K: Sink, Q: Keeper>(
    alloc: Global,
    bus: &mut Held<C, K, Q>,
    id: u32,
    next: &mut u64,
    held: &mut Option<Cmd>,
) -> bool
    requires open { bus.old.first ≡ None }
    requires known { id < 16 }
    requires at { IsAt next.old id bus.old }
    requires unshut { list_any (shuts id) bus.old.journal ≡ false }
    requires held { IsSome held.old }
    requires fair { IfSome held.old (λ cmd. (read : Text → Option Configuration) (j : Journal) → IsFair j (put_as j (prepared read cmd))) }
    ensures some { CameUntil id next.old next.new (map (prepared C.Prepare.reads) (option_to_list held.old)) result [] bus.old bus.new }
    ensures unshut { IfSome held.old (λ cmd. shuts_source cmd ≡ false → list_any (shuts id) bus.new.journal ≡ false) }
    ensures fault { result ≡ is_none bus.new.first }
{
    if !put_steps(alloc, bus, id, true) {
        return false;
    }
    let Some(cmd) = held.take() else {
        unreachable!()
    };
    put_line(alloc, bus, id, next, cmd, false)
}

/// Puts a line with the first of these commands, as soon as its source is rested. It is taken from them only then.
fn put_next<C: Core + Drop, K: Sink, Q: Keeper>(
    alloc: Global,
    bus: &mut Held<C, K, Q>,
    id: u32,
    next: &mut u64,
    cmds: &mut VecDeque<Cmd>,
) -> bool
    requires open { bus.old.first ≡ None }
    requires known { id < 16 }
    requires at { IsAt next.old id bus.old }
    requires unshut { list_any (shuts id) bus.old.journal ≡ false }
    requires some { 0 < deque_len cmds.old }
    requires open_all { AreOpen cmds.old.items }
    ensures some { CameUntil id next.old next.new (map (prepared C.Prepare.reads) cmds.old.items) result (map (prepared C.Prepare.reads) cmds.new.items) bus.old bus.new }
    ensures unshut { list_any (shuts id) bus.new.journal ≡ false }
    ensures open_all { AreOpen cmds.new.items }
    ensures fewer { result ≡ true → length cmds.new.items < length cmds.old.items }
    ensures fault { result ≡ is_none bus.new.first }
{
    if !put_steps(alloc, bus, id, true) {
        return false;
    }
    let Some(cmd) = cmds.pop_front() else {
        unreachable!()
    };
    let goes_on = !cmds.is_empty();
    put_line(alloc, bus, id, next, cmd, goes_on)
}

/// Puts the lines with these commands, in order, each as soon as its source is rested, and then the steps that the last one began. Gives
/// whether all were put and the bus keeps no fault: a first fault ends it.
pub(crate) fn put_all<C: Core + Drop, K: Sink, Q: Keeper>(
    alloc: Global,
    bus: &mut Held<C, K, Q>,
    id: u32,
    next: &mut u64,
    cmds: &mut VecDeque<Cmd>,
) -> bool
    requires open { bus.old.first ≡ None }
    requires known { id < 16 }
    requires at { IsAt next.old id bus.old }
    requires unshut { list_any (shuts id) bus.old.journal ≡ false }
    requires open_all { AreOpen cmds.old.items }
    ensures some { CameUntil id next.old next.new (map (prepared C.Prepare.reads) cmds.old.items) result [] bus.old bus.new }
    ensures unshut { list_any (shuts id) bus.new.journal ≡ false }
    ensures empty { result ≡ true → cmds.new.items ≡ [] }
    ensures fault { result ≡ is_none bus.new.first }
{
    'cmds: while !cmds.is_empty() {
        if !put_next(alloc, bus, id, next, cmds) {
            return false;
        }
    }
    put_steps(alloc, bus, id, false)
}
