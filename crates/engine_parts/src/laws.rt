//! Laws of the definitions alone. Each is a function that does nothing; its contract is the law.
ghost use Rattle.std.specs.Prelude.{◌≡◌, ◌-◌, set, true, false, [], ◌∷◌, ◌++◌, ◌<◌, ℕ, suc, List, None, Option, Some, filter, length};
ghost use Rattle.ha_journal.specs.declared.entry.Entry.TheVariants.{Line, Step};
ghost use Rattle.ha_sight.specs.declared.steps.StepOut.{StepOut};
ghost use Rattle.ha_journal.specs.Attempts.{fired};
ghost use Rattle.timer_queue.specs.Timers.{Timer};
ghost use Rattle.ha_past.specs.Firings.{Owner, firings};
ghost use Rattle.engine_parts.specs.Waiting.{TellsEnds, AsksKept, EndsGrow, ends, fresh};
ghost use Rattle.wait_set.specs.Asked.{WaitTable as Waits};
ghost use Rattle.script_step.specs.Told.{AreTold};
ghost use Rattle.engine_parts.specs.Fronts.{IsGiven, IsOpen, Stands, fronts};
ghost use Rattle.ha_sight.specs.declared.item.Item.{Item};
ghost use Rattle.engine_parts.specs.Stepped.{AskTaken, DueTaken, OthersKept, OthersTold};
ghost use Rattle.script_step.specs.declared.frames.Frames.{Frames};
ghost use Rattle.engine_parts.specs.Kept.{AreOwned, Gone, RunsKept, nobody};
ghost use Rattle.engine_parts.specs.Records.{AreEnded, IsTable, first_branches};
ghost use Rattle.run_modes.specs.Fits.{AreNumbered};
ghost use Rattle.wait_set.specs.declared.asked.Asked.{Asked};
ghost use Rattle.wait_set.specs.Stands.{AreFired};
ghost use Rattle.engine_parts.specs.Numbers.{AreFew, is_ascending, rule_numbers};
ghost use Rattle.engine_parts.specs.Owners.{AreAscending, attempts_by, is_automation, ordered, owners_on};
ghost use Rattle.ha_ready.specs.Picked.{IsPicked};
ghost use Rattle.engine_parts.specs.Runs.{LiveKept, SlotsKept, Waking};
ghost use Rattle.ha_config.specs.declared.command.Cmd.{Cmd};
ghost use Rattle.ha_journal.specs.Journal.{Journal, HasEntry, now as now_of, more, through, units};
ghost use Rattle.ha_sight.specs.Scripts.{Branch};
ghost use Rattle.ha_journal.specs.declared.entry.Entry.{Entry};
ghost use Rattle.ha_model.specs.declared.record.Record.{Record};
ghost use Rattle.ha_model.specs.Records.{CallEnds, Records, actions_of, spot_with, spots, spot_of, next_spot};
ghost use Rattle.script_step.specs.Gates.{Fronts, first_fronts, gate_at, open_now};
ghost use Rattle.engine_parts.specs.Fronts.{AreFronts};
ghost use Rattle.engine_parts.specs.Touched.{QueueKept, due_places, wait_places};
ghost use Rattle.ha_ready.specs.Agree.{but, step_at, touched, AgreesBut};
ghost use Rattle.ha_ready.specs.RunPast.{AllPast, IsPast, SameScript};
ghost use Rattle.engine_parts.specs.OneMore.{FrontsStay};
ghost use Rattle.ha_model.specs.Lawful.{Right, IsRightEntry, is_running, pick, ready, record_of};
ghost use Rattle.ha_ready.specs.ReadyPairs.{branches_at, branches_with, ends_at, may_with, pairs_of, ready_with};

/// A run of a known unit that makes no step, neither begins nor ends at an entry, and none of whose gates opens there, has behind it the
/// branches that may step before it.
pub fn untouched_runs_stay()
    ensures { (told told' : CallEnds) (j : Journal) (x : Entry) (r r' : Record) (F : Fronts) → HasEntry j → IsPast (length j) r → r.automation < length (units j) → SameScript r r' → r.begin ≡ r'.begin → r.end ≡ r'.end
        → spot_of r'.serial j x ≡ [] → AreFronts (actions_of (units j) r.automation) r.env (spots j r.serial) F → FrontsStay told told' j (more j x) F
        → ready_with told' (more j x) r' ≡ ready_with told j r }
{}

/// A run that an entry does not touch has the branches that may step which it had: what is kept of the gates of its frames tells it. The
/// places of an entry that touches are its own, those of the delays that are over, and those of the waits that ended.
pub fn gates_are_kept()
    ensures untouched { (told : CallEnds) (j : Journal) (x : Entry) → ((p : ℕ) → p < length j → told p ≡ ends_at j p) → (delays : List Timer) (w w' : Waits) (rs : Records) (os : List (Option Frames)) → Right j rs → TellsEnds w j → TellsEnds w' (more j x) → SlotsKept (ends_at j) j delays w rs os
        → (s : ℕ) → 0 < s → AsksKept w w' s → EndsGrow w w' s → step_at (more j x) s (length j) ≡ false
        → touched (more j x) (due_places (now_of (more j x)) delays ++ wait_places (fresh w')) s ≡ false → branches_at rs j s ≡ branches_with told rs (more j x) s }
    ensures listed { (told : CallEnds) (j : Journal) (delays : List Timer) (w : Waits) (r : Record) (f : Frames) → TellsEnds w j → is_running (length j) r ≡ true → LiveKept told j delays w r f
        → ready_with told j r ≡ open_now (now_of j) (ends w r.serial) (fronts f (spots j r.serial)) }
{}

/// Where the triggers of each pending wait are attached under its owner, the firings of all owners tell the waits what they are to be told.
pub fn firings_tell_waits()
    ensures { (k : Journal) (q n : ℕ) (os : List Owner) (asks : List Asked) → AreAscending 0 os → AreOwned n os asks → AreFired k q (firings k q os) asks }
{}

/// The attempts by triggers of an entry are the firings of the automations in force that are on, as configured.
pub fn attempts_are_firings()
    ensures { (j : Journal) (p : ℕ) (os : List Owner) → AreFew (through j p) → AreAscending 0 os → filter is_automation os ≡ owners_on j p
        → attempts_by (ordered (is_ascending (rule_numbers (through j p))) (rule_numbers (through j p)) (firings j p os)) ≡ fired j p }
{}

/// The gate of a picked branch is open for the step that is told the end of its wait; and what the frames of its run then give is a right
/// step.
pub fn picked_steps_are_right()
    ensures gate { (told : CallEnds) (j : Journal) (delays : List Timer) (w : Waits) (s : ℕ) (b : Branch) → TellsEnds w j → (r : Record) (f : Frames) → r.serial ≡ s → LiveKept told j delays w r f
        → may_with told j r b ≡ true → IsOpen (gate_at b (fronts f (spots j r.serial))) (spot_with told j b) (ends w s b) }
    ensures right { (j : Journal) (rs : Records) (k s : ℕ) (b : Branch) (out : StepOut) → Right j rs → pick k (ready rs j) ≡ Some (s, b)
        → ((r : Record) → record_of rs s ≡ Some r → IsGiven (actions_of (units j) r.automation) r.env (spots j r.serial) (next_spot j b) out) → IsRightEntry rs j (Step k s b out.item) }
{}

/// The frames of the run that made a step are kept behind it, where its new delay and its new wait were taken in.
pub fn stepped_frames_are_kept()
    ensures { (told told' : CallEnds) (j : Journal) → ((p : ℕ) → p < length j → told' p ≡ told p) → told' (length j) ≡ None → (k s : ℕ) (b : Branch) (item : Item) (delays delays' : List Timer) (w w' : Waits) (r : Record) (f f' : Frames) (out : StepOut) → HasEntry j → r.serial ≡ s → LiveKept told j delays w r f → f'.serial ≡ f.serial → f'.automation ≡ f.automation
        → Stands f' (actions_of (units j) r.automation) r.env (spots j s ++ next_spot j b ∷ []) → AreTold s (length j) (now_of j) b (fronts f (spots j s)) (fronts f' (spots j s ++ next_spot j b ∷ [])) out
        → QueueKept (now_of (more j (Step k s b item))) delays delays' → OthersKept w w' s b → DueTaken (now_of (more j (Step k s b item))) (length j) b (fronts f' (spots j s ++ next_spot j b ∷ [])) delays' → AskTaken (length j) s b out w'
        → LiveKept told' (more j (Step k s b item)) delays' w' r f' }
{}

/// Behind a line, where the waits stand for it, the ready pairs before it agree, but for the runs of delays that are over and of waits that
/// ended there; and the branches of these may be listed anew.
pub fn lines_wake_runs()
    ensures pairs { (told : CallEnds) (j : Journal) → ((p : ℕ) → p < length j → told p ≡ ends_at j p) → (rs : Records) (source number : ℕ) (cmd : Cmd) (delays : List Timer) (w w' : Waits) (os : List (Option Frames)) → Right j rs → TellsEnds w j → TellsEnds w' (more j (Line source number cmd))
        → ((s : ℕ) → AsksKept w w' s) → ((s : ℕ) → EndsGrow w w' s) → SlotsKept (ends_at j) j delays w rs os
        → AgreesBut told (touched (more j (Line source number cmd)) (due_places (now_of (more j (Line source number cmd))) delays ++ wait_places (fresh w'))) rs (more j (Line source number cmd)) (ready rs j) }
    ensures waking { (told : CallEnds) (j : Journal) → ((p : ℕ) → p < length j → told p ≡ ends_at j p) → (rs : Records) (source number : ℕ) (cmd : Cmd) (delays delays' : List Timer) (w w' : Waits) (os : List (Option Frames)) (at : ℕ) → Right j rs → at ≡ now_of (more j (Line source number cmd))
        → QueueKept (now_of (more j (Line source number cmd))) delays delays' → ((s : ℕ) → AsksKept w w' s) → TellsEnds w' (more j (Line source number cmd)) → SlotsKept (ends_at j) j delays w rs os
        → Waking told rs (more j (Line source number cmd)) w' os at }
{}

/// Behind a step the ready pairs before it agree, but for its own run and those of delays that are over and of waits that ended there; and
/// the branches of these may be listed anew, where the frames of the run that made the step are kept.
pub fn steps_wake_runs()
    ensures pairs { (told : CallEnds) (j : Journal) → ((p : ℕ) → p < length j → told p ≡ ends_at j p) → (rs : Records) (k s : ℕ) (b : Branch) (item : Item) (delays delays' : List Timer) (w w' : Waits) (os : List (Option Frames)) → Right j rs → OthersTold w w' s
        → TellsEnds w j → TellsEnds w' (more j (Step k s b item)) → SlotsKept (ends_at j) j delays w rs os
        → AgreesBut told (touched (more j (Step k s b item)) (length j ∷ (due_places (now_of (more j (Step k s b item))) delays ++ wait_places (fresh w')))) rs (more j (Step k s b item)) (ready rs j) }
    ensures waking { (told : CallEnds) (j : Journal) → ((p : ℕ) → p < length j → told p ≡ ends_at j p) → (rs : Records) (k s : ℕ) (b : Branch) (item : Item) (delays delays' : List Timer) (w w' : Waits) (os : List (Option Frames)) → Right j rs → OthersTold w w' s
        → (picked : IsPicked rs j s b) → picked.run.serial ≡ s → (f : Frames) (at : ℕ) → at ≡ now_of (more j (Step k s b item)) → QueueKept (now_of (more j (Step k s b item))) delays delays'
        → TellsEnds w' (more j (Step k s b item)) → SlotsKept (ends_at j) j delays w rs os → LiveKept told (more j (Step k s b item)) delays' w' picked.run f → Waking told rs (more j (Step k s b item)) w' (set os (s - 1) (Some f)) at }
{}

/// Where the runs that went end, and the others are the same, all runs are kept.
pub fn runs_that_went_end()
    ensures { (told : CallEnds) (gone : Gone) (q : ℕ) (k : Journal) (delays : List Timer) (w : Waits) (rs rs' : Records) (os : List (Option Frames)) (pairs : List (ℕ × Branch)) → AllPast (length k) rs' → AreNumbered 0 rs → AreEnded gone q rs rs'
        → RunsKept told gone k rs delays w os pairs → RunsKept told nobody k rs' delays w os pairs }
{}

/// One run more is kept with its branches. That of a new run, whose frames just began: its outer branch may step, where it runs and its
/// script has an action.
pub fn one_run_more_is_kept()
    ensures added { (told : CallEnds) (k : Journal) (rs : Records) (delays : List Timer) (w : Waits) (new : Record) (f : Frames) (os : List (Option Frames)) (pairs : List (ℕ × Branch)) (bs : List Branch) → LiveKept told k delays w new f
        → ready_with told k new ≡ bs → RunsKept told nobody k rs delays w os pairs → RunsKept told nobody k (rs ++ new ∷ []) delays w (os ++ Some f ∷ []) (pairs ++ pairs_of (suc (length rs)) bs) }
    ensures live { (told : CallEnds) (k : Journal) (rs : Records) → IsTable k rs → (new : Record) (f : Frames) → new.serial ≡ suc (length rs) → Stands f (actions_of (units k) new.automation) new.env []
        → fronts f [] ≡ first_fronts (actions_of (units k) new.automation) → (delays : List Timer) (w : Waits) → new.end ≡ None → f.serial ≡ new.serial → f.automation ≡ new.automation → LiveKept told k delays w new f }
    ensures branches { (told : CallEnds) (k : Journal) (rs : Records) → IsTable k rs → (new : Record) (f : Frames) → new.serial ≡ suc (length rs) → Stands f (actions_of (units k) new.automation) new.env []
        → fronts f [] ≡ first_fronts (actions_of (units k) new.automation) → is_running (length k) new ≡ true → ready_with told k new ≡ first_branches (actions_of (units k) new.automation) }
{}
