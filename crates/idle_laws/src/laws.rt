//! Laws of the definitions alone. Each is a function that does nothing; its contract is the law.
ghost use Rattle.std.specs.Prelude.{◌≡◌, ℕ, Option, false, length};
ghost use Rattle.ha_value.specs.declared.value.EntityId.{EntityId};
ghost use Rattle.ha_config.specs.declared.config.Trigger.{Trigger};
ghost use Rattle.ha_config.specs.declared.command.Cmd.{Cmd};
ghost use Rattle.ha_journal.specs.declared.entry.Entry.TheVariants.{Line};
ghost use Rattle.ha_journal.specs.Journal.{Journal, HasEntry, more};
ghost use Rattle.ha_journal.specs.Moves.{moves};
ghost use Rattle.ha_laws.specs.IdleLines.{IsIdle};
ghost use Rattle.ha_past.specs.Holds.{pending};

/// A line that was refused, or that says that its source failed or gave too much, moves no trigger,
/// and a hold that was pending before it is pending after it, with the place at which it began, and
/// no other is.
pub fn a_pending_hold_stays_at_an_idle_line()
    ensures moves { (j : Journal) (source number : ℕ) (cmd : Cmd) → HasEntry j → IsIdle cmd → (t : Trigger) (e : Option EntityId)
        → moves (more j (Line source number cmd)) t e (length j) ≡ false }
    ensures pending { (j : Journal) (source number : ℕ) (cmd : Cmd) → HasEntry j → IsIdle cmd → (t : Trigger) (e : Option EntityId) (since : ℕ)
        → pending (more j (Line source number cmd)) t e since ≡ pending j t e since }
{}
