//! Laws of the definitions alone. Each is a function that does nothing; its contract is the law.
ghost use Rattle.std.specs.Prelude.{◌≡◌, [], ◌∷◌, ◌++◌, ◌<◌, ℕ, suc, List, None, Option, Some, length};
ghost use Rattle.timer_queue.specs.Timers.{Timer};
ghost use Rattle.wait_set.specs.Asked.{WaitTable as Waits};
ghost use Rattle.engine_parts.specs.Fronts.{Stands, fronts};
ghost use Rattle.script_step.specs.declared.frames.Frames.{Frames};
ghost use Rattle.engine_parts.specs.Kept.{RunsKept, nobody};
ghost use Rattle.ha_engine.specs.Admits.{gone_by};
ghost use Rattle.engine_parts.specs.Records.{IsTable, first_branches};
ghost use Rattle.ha_config.specs.declared.config.Mode.{Mode};
ghost use Rattle.ha_model.specs.RunSteps.{joined};
ghost use Rattle.ha_config.specs.Words.{Pairs};
ghost use Rattle.run_modes.specs.Table.{begin_now, new_run};
ghost use Rattle.ha_journal.specs.Journal.{Journal, units};
ghost use Rattle.ha_sight.specs.Scripts.{Branch};
ghost use Rattle.ha_model.specs.Records.{CallEnds, Records, actions_of, live_count};
ghost use Rattle.script_step.specs.Gates.{first_fronts};
ghost use Rattle.ha_ready.specs.ReadyPairs.{pairs_of, ready_with};

/// The records with one that its mode admits are a table again; those that it replaces went, and all runs are kept: the new one with its
/// outer branch, where it begins, and with none where it waits.
pub fn admitted_runs_are_kept()
    ensures table { (k : Journal) (rs : Records) → IsTable k rs → (a : ℕ) (mode : Mode) (place order number : ℕ) (env : Pairs) → place < length k → IsTable k (joined mode a place rs (new_run rs a mode place order number env)) }
    ensures kept { (k : Journal) (rs : Records) → IsTable k rs → (a : ℕ) (mode : Mode) (place order number : ℕ) (env : Pairs) → place < length k → (f : Frames) → f.serial ≡ suc (length rs)
        → Stands f (actions_of (units k) a) env [] → fronts f [] ≡ first_fronts (actions_of (units k) a) → (told : CallEnds) → f.automation ≡ a → (delays : List Timer) (w : Waits) (os : List (Option Frames)) (pairs : List (ℕ × Branch)) (bs : List Branch)
        → ready_with told k (new_run rs a mode place order number env) ≡ bs → RunsKept told (gone_by mode a rs) k rs delays w os pairs
        → RunsKept told nobody k (joined mode a place rs (new_run rs a mode place order number env)) delays w (os ++ Some f ∷ []) (pairs ++ pairs_of (suc (length rs)) bs) }
    ensures begun { (k : Journal) (rs : Records) → IsTable k rs → (a : ℕ) (mode : Mode) (place order number : ℕ) (env : Pairs) → place < length k → (f : Frames) → f.serial ≡ suc (length rs)
        → Stands f (actions_of (units k) a) env [] → fronts f [] ≡ first_fronts (actions_of (units k) a) → (told : CallEnds) → begin_now mode (live_count a rs) place ≡ Some place
        → ready_with told k (new_run rs a mode place order number env) ≡ first_branches (actions_of (units k) a) }
    ensures waiting { (k : Journal) (rs : Records) → IsTable k rs → (a : ℕ) (mode : Mode) (place order number : ℕ) (env : Pairs) → place < length k → (f : Frames) → f.serial ≡ suc (length rs)
        → Stands f (actions_of (units k) a) env [] → fronts f [] ≡ first_fronts (actions_of (units k) a) → (told : CallEnds) → begin_now mode (live_count a rs) place ≡ None
        → ready_with told k (new_run rs a mode place order number env) ≡ [] }
{}
