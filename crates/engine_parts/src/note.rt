//! What fires at an entry, and which waits end there.
ghost use Rattle.std.specs.Prelude.{◌≡◌, ◌≤◌, ℕ, All, List, Option, IfOk, OnOk, length};
ghost use Rattle.ha_clock.specs.Local.{last_moment};
ghost use Rattle.ha_journal.specs.declared.entry.Entry.{Entry as Item};
ghost use Rattle.ha_journal.specs.Journal.{Journal, HasEntry, more};
ghost use Rattle.ha_past.specs.Firings.{Owner, firings};
ghost use Rattle.trig_set.specs.Next.{IsNext};
ghost use Rattle.trig_set.specs.Stands as triggers_lem;
ghost use Rattle.wait_set.specs.Concern.{has};
ghost use Rattle.wait_set.specs.Stands as waits_lem;
ghost use Rattle.wait_set.specs.Tested.{TestedOrQuiet};
ghost use Rattle.wait_set.specs.Timers.{AreApart};
ghost use Rattle.engine_parts.specs.Waiting.{AsksKept, EndsGrow};
ghost use Rattle.engine_parts.specs.Pending.{AreOthers, AreWaits};
ghost use Rattle.script_step.specs.declared.frames.Frames.{Frames};
ghost use Rattle.engine_parts.specs.Kept.{AreOwned};
ghost use Rattle.engine_parts.specs.Runs.{AreHeld};

use ha_journal::{BusEvent, Entry, Firing};
use ha_sight::Answers;
use ha_value::Many;
use std::alloc::{AllocError, Global};
use std::collections::BTreeSet;
use trig_set::{Before, TrigSet};
use wait_set::Waits;

/// The waits note the entry at a place, with all that fires there. Of templates those of the owners in `tested` alone are asked.
pub fn note_waits<A: Answers>(
    waits: &mut Waits,
    alloc: Global,
    place: u64,
    tested: &BTreeSet<u64>,
    fired: &Many<Firing>,
    answers: &A,
) -> Result<(), AllocError>
    requires quiet { All (TestedOrQuiet (A.sight answers.now) (has tested.now)) waits.old.asks }
    ensures stands { OnOk result ((j : Journal) (x : Item) → waits_lem.StandsFor waits.old.asks j → waits_lem.IsNext j place x (A.sight answers.now) fired.now waits.old.asks
        → waits_lem.StandsFor waits.new.asks (more j x)) }
    ensures asks { OnOk result ((j : Journal) (x : Item) → waits_lem.IsNext j place x (A.sight answers.now) fired.now waits.old.asks → (serial : ℕ) → AsksKept waits.old waits.new serial) }
    ensures grow { OnOk result ((serial : ℕ) → EndsGrow waits.old waits.new serial) }
    ensures owned { OnOk result ((n : ℕ) (owners : List Owner) → AreOwned n owners waits.old.asks → AreOwned n owners waits.new.asks) }
    ensures told { OnOk result ((n : ℕ) (owners : List Owner) → AreOwned n owners waits.old.asks → AreWaits waits.new.fresh) }
    ensures apart { OnOk result (AreApart waits.old.asks → AreApart waits.new.asks) }
    ensures others { OnOk result (AreApart waits.old.asks → AreOthers waits.new.fresh waits.new.asks) }
    ensures held { OnOk result ((i : Journal) (os : List (Option Frames)) → AreHeld i os waits.old.asks → AreHeld i os waits.new.asks) }
{
    waits.note(alloc, place, tested, fired, answers)?;
    Ok(())
}

/// The triggers, and then the waits with all that fires, note the entry at a place; `events` has the events of helpers that it gives, and
/// `answers` holds what is seen after it. Of waits' templates those of the owners in `tested` alone are asked.
pub fn note<A: Answers>(
    triggers: &mut TrigSet,
    waits: &mut Waits,
    alloc: Global,
    place: u64,
    tested: &BTreeSet<u64>,
    entry: &Entry,
    before: Before,
    events: &Many<BusEvent>,
    answers: &A,
) -> Result<Many<Firing>, AllocError>
    requires in_time { (A.sight answers.now).now ≤ last_moment }
    requires quiet { All (TestedOrQuiet (A.sight answers.now) (has tested.now)) waits.old.asks }
    ensures attached { OnOk result (triggers_lem.attached triggers.new ≡ triggers_lem.attached triggers.old) }
    ensures fired { IfOk result (λ fired. (j : Journal) → triggers_lem.StandsFor triggers.old j
        → IsNext j place entry.now before events.now (A.sight answers.now) (triggers_lem.attached triggers.old)
        → fired ≡ firings (more j entry.now) place (triggers_lem.attached triggers.old)) }
    ensures triggers { OnOk result ((j : Journal) → triggers_lem.StandsFor triggers.old j
        → IsNext j place entry.now before events.now (A.sight answers.now) (triggers_lem.attached triggers.old) → triggers_lem.StandsFor triggers.new (more j entry.now)) }
    ensures waits { OnOk result ((j : Journal) → HasEntry j → triggers_lem.StandsFor triggers.old j → waits_lem.StandsFor waits.old.asks j
        → IsNext j place entry.now before events.now (A.sight answers.now) (triggers_lem.attached triggers.old)
        → waits_lem.AreFired (more j entry.now) place (firings (more j entry.now) place (triggers_lem.attached triggers.old)) waits.old.asks
        → waits_lem.StandsFor waits.new.asks (more j entry.now)) }
    ensures asks { OnOk result ((j : Journal) → HasEntry j → triggers_lem.StandsFor triggers.old j
        → IsNext j place entry.now before events.now (A.sight answers.now) (triggers_lem.attached triggers.old)
        → waits_lem.AreFired (more j entry.now) place (firings (more j entry.now) place (triggers_lem.attached triggers.old)) waits.old.asks
        → (serial : ℕ) → AsksKept waits.old waits.new serial) }
    ensures grow { OnOk result ((serial : ℕ) → EndsGrow waits.old waits.new serial) }
    ensures owned { OnOk result ((n : ℕ) (owners : List Owner) → AreOwned n owners waits.old.asks → AreOwned n owners waits.new.asks) }
    ensures told { OnOk result ((n : ℕ) (owners : List Owner) → AreOwned n owners waits.old.asks → AreWaits waits.new.fresh) }
    ensures apart { OnOk result (AreApart waits.old.asks → AreApart waits.new.asks) }
    ensures others { OnOk result (AreApart waits.old.asks → AreOthers waits.new.fresh waits.new.asks) }
    ensures held { OnOk result ((i : Journal) (os : List (Option Frames)) → AreHeld i os waits.old.asks → AreHeld i os waits.new.asks) }
{
    let fired = match triggers.note(alloc, place, entry, before, events, answers) {
        Ok(fired) => fired,
        Err(error) => return Err(error),
    };
    note_waits(waits, alloc, place, tested, &fired, answers)?;
    Ok(fired)
}
