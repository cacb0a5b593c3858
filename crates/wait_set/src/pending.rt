//! What is kept beside the waits.
ghost use Rattle.std.specs.Prelude.{◌≡◌, ◌∷◌, [], ◌++◌, ℕ, MatchOption, None, OnOk, Some, false, nat_eq, true};
ghost use Rattle.timer_queue.specs.Timers.{removed};
ghost use Rattle.tpl_reads.specs.Reads.{entities_read};
ghost use Rattle.wait_set.specs.Readers.{read_by};
ghost use Rattle.wait_set.specs.Runs.{has_pair};

use crate::readers::Readers;
use crate::runs::list_run;
use ha_sight::WaitAsk;
use std::alloc::{AllocError, Global};
use std::collections::BTreeSet;
use timer_queue::TimerQueue;

/// What is kept beside the waits: of those that have not ended the dues, and what the templates of those that ask one read; and of all the
/// serials of their runs, each with the owner.
#[derive(Drop)]
pub(crate) struct Pending {
    pub timers: TimerQueue,
    pub readers: Readers,
    pub runs: BTreeSet<(u64, u64)>,
}

/// A wait is listed: its run, and what its template reads where it asks one.
pub(crate) fn list_ask(
    pending: &mut Pending,
    alloc: Global,
    ask: &WaitAsk,
    owner: u64,
) -> Result<(), AllocError>
    ensures timers { pending.new.timers ≡ pending.old.timers }
    ensures here { OnOk result (MatchOption ask.now.test (Unit {0}) (λ t. read_by owner pending.new.readers ≡ Some (entities_read t))) }
    ensures others { (n : ℕ) → nat_eq owner n ≡ false → read_by n pending.new.readers ≡ read_by n pending.old.readers }
    ensures run { OnOk result (has_pair pending.new.runs ask.now.serial owner ≡ true) }
    ensures runs { (s o : ℕ) → has_pair pending.old.runs s o ≡ true → has_pair pending.new.runs s o ≡ true }
{
    list_test(&mut pending.readers, alloc, ask, owner)?;
    list_run(&mut pending.runs, ask.serial, owner)?;
    Ok(())
}

/// The owner is listed with what its wait's template reads, where it asks one.
fn list_test(
    readers: &mut Readers,
    alloc: Global,
    ask: &WaitAsk,
    owner: u64,
) -> Result<(), AllocError>
    ensures here { OnOk result (MatchOption ask.now.test (Unit {0}) (λ t. read_by owner readers.new ≡ Some (entities_read t))) }
    ensures others { (n : ℕ) → nat_eq owner n ≡ false → read_by n readers.new ≡ read_by n readers.old }
{
    match &ask.test {
        Some(test) => readers.put(alloc, owner, test),
        None => Ok(()),
    }
}

/// The wait of this owner is pending no more.
pub(crate) fn settle(pending: &mut Pending, owner: u64)
    ensures timers { pending.new.timers ≡ removed owner pending.old.timers }
    ensures gone { read_by owner pending.new.readers ≡ None }
    ensures readers { (n : ℕ) → nat_eq owner n ≡ false → read_by n pending.new.readers ≡ read_by n pending.old.readers }
    ensures runs { pending.new.runs ≡ pending.old.runs }
{
    pending.timers.remove(owner);
    pending.readers.take(owner);
}

/// The wait of this owner has ended.
pub(crate) fn mark(
    pending: &mut Pending,
    fresh: &mut Vec<u64>,
    owner: u64,
) -> Result<(), AllocError>
    ensures timers { pending.new.timers ≡ removed owner pending.old.timers }
    ensures gone { read_by owner pending.new.readers ≡ None }
    ensures readers { (n : ℕ) → nat_eq owner n ≡ false → read_by n pending.new.readers ≡ read_by n pending.old.readers }
    ensures runs { pending.new.runs ≡ pending.old.runs }
    ensures fresh { OnOk result (fresh.new.items ≡ fresh.old.items ++ (owner ∷ [])) }
{
    settle(pending, owner);
    fresh.push(owner)?;
    Ok(())
}
