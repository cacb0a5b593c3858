//! The run that waits for a run goes on where that one ends, and at that entry already no more waits for it.
ghost use Rattle.std.specs.Prelude.{◌≡◌, ◌+◌, ◌<◌, ◌≤◌, ◌∷◌, [], ℕ, List, None, Some, length, nat_eq, option_map, true, vec_len, vec_capacity, if◌then◌else◌};
ghost use Rattle.ha_journal.specs.Journal.{Journal, last_place};
ghost use Rattle.ha_model.specs.Records.{CallEnds, Records};
ghost use Rattle.ha_ready.specs.ReadyPairs.{changed_at, pairs_from};
ghost use Rattle.ha_sight.specs.Scripts.{Branch as Path};
ghost use Rattle.script_calls.specs.Waiting.{caller_of};
ghost use Rattle.trig_set.specs.Stands.{StandsFor, attached};
ghost use Rattle.wait_set.specs.declared.asked.Asked.{Asked as Wait};
ghost use Rattle.wait_set.specs.Asked.{WaitTable, finished, is_bare, wait_of};
ghost use Rattle.wait_set.specs.Stands as waits_lem;
ghost use Rattle.engine_parts.specs.Called.{owner_at, placed, told_after, woken_asks, woken_owners};
ghost use Rattle.engine_parts.specs.Kept.{GoingWith, Gone, Owned};
ghost use Rattle.engine_parts.specs.Pending.{AreOthers};
ghost use Rattle.engine_parts.specs.Records.{HasRoom, IsTable};
ghost use Rattle.engine_parts.specs.Without.{without_owners};
ghost use Rattle.engine_parts.specs.Runs.{first_wait};

use crate::parts::Parts;
use crate::ready::put_woken;
use crate::wake::detach;
use ha_sight::Branch;
use trig_set::TrigSet;
use wait_set::Waits;

/// The triggers of the wait of a run in a branch are detached, and no others: it has none, but its owner is known.
fn detach_wait(triggers: &mut TrigSet, waits: &Waits, serial: u64, branch: &Branch)
    ensures stands { (j : Journal) → StandsFor triggers.old j → StandsFor triggers.new j }
    ensures rest { attached triggers.new ≡ without_owners (owner_at serial branch.now waits.now.asks) (attached triggers.old) }
    ensures owned { (j : Journal) (a : Wait) (w : WaitTable) → wait_of serial branch.now waits.now.asks ≡ Some a → first_wait ≤ a.owner → AreOthers (a.owner ∷ []) w.asks → Owned j triggers.old w → Owned j triggers.new w }
{
    match waits.owner_of(serial, branch) {
        Some(owner) => detach(triggers, owner),
        None => {}
    }
}

/// The wait of a run in a branch, for a run that it called, has ended at a place, and the branch is ready. There is room for its pair.
fn resume(parts: &mut Parts, serial: u64, branch: Branch, place: u64)
    requires { vec_len parts.old.ready.pairs < vec_capacity parts.old.ready.pairs }
    ensures triggers { (j : Journal) → StandsFor parts.old.triggers j → StandsFor parts.new.triggers j }
    ensures attached { attached parts.new.triggers ≡ without_owners (owner_at serial branch parts.old.waits.asks) (attached parts.old.triggers) }
    ensures owned { (j : Journal) (a : Wait) (w : WaitTable) → wait_of serial branch parts.old.waits.asks ≡ Some a → first_wait ≤ a.owner → AreOthers (a.owner ∷ []) w.asks → Owned j parts.old.triggers w → Owned j parts.new.triggers w }
    ensures asks { parts.new.waits ≡ record { asks = finished serial branch place parts.old.waits.asks; fresh = parts.old.waits.fresh } }
    ensures waits { (j : Journal) (a : Wait) → wait_of serial branch parts.old.waits.asks ≡ Some a → is_bare a.ask ≡ true → a.place < length j
        → waits_lem.StandsFor parts.old.waits.asks j → waits_lem.StandsFor parts.new.waits.asks j }
    ensures pairs { (m : ℕ) (by : ℕ → List Path) → parts.old.ready.pairs.items ≡ pairs_from 0 m by → 0 < serial → serial ≤ m → parts.new.ready.pairs.items ≡ pairs_from 0 m (changed_at serial (placed branch (by serial)) by) }
    ensures len { vec_len parts.new.ready.pairs ≡ vec_len parts.old.ready.pairs + 1 }
    ensures capacity { vec_capacity parts.old.ready.pairs ≤ vec_capacity parts.new.ready.pairs }
    ensures rest { parts.new ≡ record parts.old { triggers = parts.new.triggers; waits = parts.new.waits; ready = parts.new.ready } }
{
    detach_wait(&mut parts.triggers, &parts.waits, serial, &branch);
    parts.waits.finish(serial, &branch, place);
    put_woken(&mut parts.ready, serial, branch);
}

/// A run has ended at the last place, or has none: the one that waits for it goes on. There is room for the pairs of all that wait.
pub fn wake_caller(parts: &mut Parts, called: u64, place: u64)
    requires { HasRoom 0 parts.old }
    ensures attached { attached parts.new.triggers ≡ without_owners (woken_owners called parts.old.calls parts.old.waits.asks) (attached parts.old.triggers) }
    ensures waits { parts.new.waits.asks ≡ woken_asks called place parts.old.calls parts.old.waits.asks }
    ensures going { (told : CallEnds) (gone : Gone) (k : Journal) (rs : Records) → IsTable k rs → GoingWith told gone k rs parts.old → GoingWith (told_after called place told rs) gone k rs parts.new }
    ensures rested { parts.new.rested ≡ parts.old.rested }
    ensures room { (n : ℕ) → HasRoom n parts.old → HasRoom n parts.new }
{
    match parts.calls.run_ended(called) {
        Some((serial, branch)) => resume(parts, serial, branch, place),
        None => {}
    }
}
