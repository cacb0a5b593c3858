//! What a step began is taken in: a wait with its triggers, and a delay.
ghost use Rattle.std.specs.Prelude.{◌≡◌, ◌+◌, ◌<◌, ◌&&◌, false, is_none, nat_eq, IsTrue, None, OnOk, length};
ghost use Rattle.std.specs.List.{list_any};
ghost use Rattle.ha_config.specs.Sound.{are_sound_triggers};
ghost use Rattle.ha_journal.specs.Journal.{Journal};
ghost use Rattle.trig_set.specs.Next.{Listed};
ghost use Rattle.trig_set.specs.Stands.{attached};
ghost use Rattle.wait_set.specs.Asked.{added, is_of};
ghost use Rattle.wait_set.specs.Timers.{timer_added};
ghost use Rattle.engine_parts.specs.Kept.{KeysBelow};
ghost use Rattle.engine_parts.specs.Owners.{AreBelow};
ghost use Rattle.engine_parts.specs.Runs.{first_wait};
ghost use Rattle.engine_parts.specs.Stages.{Untold};
ghost use Rattle.engine_entry.specs.Stepping.{IsTaken, asks_with};

use engine_parts::parts::FIRST_WAIT;
use ha_clock::Moment;
use ha_sight::WaitAsk;
use script_step::Held;
use std::alloc::{AllocError, Global};
use timer_queue::TimerQueue;
use trig_set::TrigSet;
use wait_set::Waits;

/// A wait that began at a place is taken in, and its triggers are attached under an owner of its own.
fn attach_ask(
    triggers: &mut TrigSet,
    waits: &mut Waits,
    alloc: Global,
    place: u64,
    ask: WaitAsk,
) -> Result<(), AllocError>
    requires room { place < 1048576 }
    requires below { AreBelow (first_wait + place) (attached triggers.old) }
    requires early { list_any (λ a. nat_eq a.owner (first_wait + place)) waits.old.asks ≡ false }
    requires sound { IsTrue (are_sound_triggers ask.triggers) }
    requires free { list_any (λ a. is_of ask.serial ask.branch a && is_none a.end) waits.old.asks ≡ false }
    ensures asks { OnOk result (waits.new.asks ≡ added (record { owner = first_wait + place; place = place; ask = ask; end = None }) waits.old.asks) }
    ensures fresh { OnOk result (waits.new.fresh ≡ waits.old.fresh) }
    ensures untold { OnOk result ((k : Journal) (before : Listed) → (h : Untold k triggers.old waits.old before) → length h.j ≡ place → Untold k triggers.new waits.new before) }
{
    let owner = FIRST_WAIT + place;
    triggers.attach(alloc, owner, &ask.triggers, place)?;
    waits.add(alloc, ask, owner, place)?;
    Ok(())
}

/// The same of a wait in memory of its own. Most steps begin none.
#[inline(never)]
fn attach_wait(
    triggers: &mut TrigSet,
    waits: &mut Waits,
    alloc: Global,
    place: u64,
    ask: Held<WaitAsk>,
) -> Result<(), AllocError>
    requires room { place < 1048576 }
    requires below { AreBelow (first_wait + place) (attached triggers.old) }
    requires early { list_any (λ a. nat_eq a.owner (first_wait + place)) waits.old.asks ≡ false }
    requires sound { IsTrue (are_sound_triggers ask.triggers) }
    requires free { list_any (λ a. is_of ask.serial ask.branch a && is_none a.end) waits.old.asks ≡ false }
    ensures asks { OnOk result (waits.new.asks ≡ added (record { owner = first_wait + place; place = place; ask = ask; end = None }) waits.old.asks) }
    ensures fresh { OnOk result (waits.new.fresh ≡ waits.old.fresh) }
    ensures untold { OnOk result ((k : Journal) (before : Listed) → (h : Untold k triggers.old waits.old before) → length h.j ≡ place → Untold k triggers.new waits.new before) }
{
    let taken = ask.taken();
    attach_ask(triggers, waits, alloc, place, taken)
}

/// The wait that a step began, if it began one.
pub fn take_wait(
    triggers: &mut TrigSet,
    waits: &mut Waits,
    alloc: Global,
    place: u64,
    wait: Option<Held<WaitAsk>>,
) -> Result<(), AllocError>
    requires room { place < 1048576 }
    requires below { AreBelow (first_wait + place) (attached triggers.old) }
    requires early { list_any (λ a. nat_eq a.owner (first_wait + place)) waits.old.asks ≡ false }
    requires taken { IsTaken wait waits.old }
    ensures asks { OnOk result (waits.new.asks ≡ asks_with place wait waits.old.asks) }
    ensures fresh { OnOk result (waits.new.fresh ≡ waits.old.fresh) }
    ensures untold { OnOk result ((k : Journal) (before : Listed) → (h : Untold k triggers.old waits.old before) → length h.j ≡ place → Untold k triggers.new waits.new before) }
{
    match wait {
        Some(ask) => attach_wait(triggers, waits, alloc, place, ask),
        None => Ok(()),
    }
}

/// The delay that a step began, if it began one, is put into the queue under the place of the step.
pub fn take_delay(
    delays: &mut TimerQueue,
    place: u64,
    due: Option<Moment>,
) -> Result<(), AllocError>
    requires { KeysBelow place delays.old }
    ensures { OnOk result (delays.new ≡ timer_added due place delays.old) }
{
    let Some(due) = due else {
        return Ok(());
    };
    match delays.insert(due, place) {
        Ok(_) => Ok(()),
        Err(_) => Err(AllocError),
    }
}
