//! A run that ends leaves nothing behind: its triggers, its waits, its frames and its pairs go, and the one that waits for it goes on.
ghost use Rattle.std.specs.Prelude.{◌≡◌, ◌-◌, ◌<◌, ◌≤◌, ◌∷◌, [], ℕ, None, Some, length, set, slice_get};
ghost use Rattle.ha_journal.specs.Journal.{Journal, last_place};
ghost use Rattle.ha_model.specs.Records.{CallEnds, Records};
ghost use Rattle.run_modes.specs.Fits.{AreNumbered};
ghost use Rattle.trig_set.specs.Stands.{StandsFor, attached};
ghost use Rattle.wait_set.specs.Asked.{owners_of, without_run};
ghost use Rattle.engine_parts.specs.Called.{woken_asks, woken_owners};
ghost use Rattle.engine_parts.specs.Kept.{Going, GoingWith, Gone, Owned};
ghost use Rattle.engine_parts.specs.Pending.{AreOthers};
ghost use Rattle.engine_parts.specs.Records.{HasRoom, IsTable, also};
ghost use Rattle.engine_parts.specs.Without.{without_owners};
ghost use Rattle.engine_parts.specs.Runs.{first_wait};

use crate::called::wake_caller;
use crate::parts::Parts;
use crate::ready::drop_pairs;
use crate::slots::Slots;
use crate::wake::detach;
use script_step::Frames;
use trig_set::TrigSet;
use wait_set::Waits;

/// The triggers of all waits of a run are detached, and no others.
fn detach_run(triggers: &mut TrigSet, waits: &Waits, serial: u64)
    ensures rest { attached triggers.new ≡ without_owners (owners_of serial waits.now.asks) (attached triggers.old) }
    ensures stands { (j : Journal) → StandsFor triggers.old j → StandsFor triggers.new j }
    ensures owned { (j : Journal) → ((i o : ℕ) → slice_get (owners_of serial waits.now.asks) i ≡ Some o → (first_wait ≤ o) × AreOthers (o ∷ []) (without_run serial waits.now.asks))
        → Owned j triggers.old (record { asks = without_run serial waits.now.asks; fresh = waits.now.fresh })
        → Owned j triggers.new (record { asks = without_run serial waits.now.asks; fresh = waits.now.fresh }) }
{
    let mut at = 0;
    'asks: while let Some(found) = waits.owner_from(serial, at) {
        let (owner, behind) = found;
        detach(triggers, owner);
        at = behind;
    }
}

/// The slot of a run is emptied.
fn clear_slot(frames: &mut Slots<Frames>, serial: u64)
    ensures slot { serial - 1 < length frames.old.items → frames.new.items ≡ set frames.old.items (serial - 1) None }
    ensures beyond { length frames.old.items ≤ serial - 1 → frames.new.items ≡ frames.old.items }
    ensures spare { frames.new.spare ≡ frames.old.spare }
{
    frames.drop_at(serial.saturating_sub(1) as usize);
}

/// Its triggers, its waits, its frames and its pairs go, and it waits for no other run any more.
fn clear_run(parts: &mut Parts, serial: u64)
    ensures going { (told : CallEnds) (gone : Gone) (k : Journal) (rs : Records) → AreNumbered 0 rs → 0 < serial → serial ≤ length rs → GoingWith told gone k rs parts.old → GoingWith told (also gone serial) k rs parts.new }
    ensures rest { attached parts.new.triggers ≡ without_owners (owners_of serial parts.old.waits.asks) (attached parts.old.triggers) }
    ensures waits { parts.new.waits.asks ≡ without_run serial parts.old.waits.asks }
    ensures rested { parts.new.rested ≡ parts.old.rested }
    ensures room { (n : ℕ) → HasRoom n parts.old → HasRoom n parts.new }
{
    detach_run(&mut parts.triggers, &parts.waits, serial);
    parts.waits.drop_run(serial);
    clear_slot(&mut parts.frames, serial);
    drop_pairs(&mut parts.ready, serial);
    parts.calls.drop_run(serial);
}

/// A run goes at the last place, and the one that waits for it goes on; it has still to be ended. There is room for the pairs of all that
/// wait.
pub fn forget(parts: &mut Parts, serial: u64, place: u64)
    requires { HasRoom 0 parts.old }
    ensures rest { attached parts.new.triggers ≡ without_owners (owners_of serial parts.old.waits.asks) (without_owners (woken_owners serial parts.old.calls parts.old.waits.asks) (attached parts.old.triggers)) }
    ensures waits { parts.new.waits.asks ≡ without_run serial (woken_asks serial place parts.old.calls parts.old.waits.asks) }
    ensures going { (gone : Gone) (k : Journal) (rs : Records) → place ≡ last_place k → IsTable k rs → 0 < serial → serial ≤ length rs → Going gone k rs parts.old → Going (also gone serial) k rs parts.new }
    ensures rested { parts.new.rested ≡ parts.old.rested }
    ensures room { (n : ℕ) → HasRoom n parts.old → HasRoom n parts.new }
{
    wake_caller(parts, serial, place);
    clear_run(parts, serial);
}
