//! Laws on the runs and sources of a journal with one more entry. Each is a function that does nothing; its contract is the law.
ghost use Rattle.std.specs.Prelude.{◌≡◌, ◌<◌, ◌≤◌, ℕ, suc, Bool, true, false, ◌||◌, List, Option, None, Some, length, bytes_eq, if◌then◌else◌};
ghost use Rattle.std.specs.List.{list_any};
ghost use Rattle.ha_value.specs.declared.value.EntityId.{EntityId};
ghost use Rattle.ha_model.specs.declared.record.EndCause.{EndCause};
ghost use Rattle.ha_journal.specs.declared.entry.Entry.{Entry};
ghost use Rattle.ha_model.specs.declared.record.Record.{Record};
ghost use Rattle.ha_config.specs.declared.config.Trigger.{Trigger};
ghost use Rattle.ha_journal.specs.Journal.{HasEntry, Journal, more, units};
ghost use Rattle.ha_journal.specs.Holds.{fires};
ghost use Rattle.ha_journal.specs.Triggers.{firings};
ghost use Rattle.ha_sight.specs.Scripts.{Ask, Branch};
ghost use Rattle.ha_sight.specs.Branches.{branches_of};
ghost use Rattle.ha_journal.specs.Waits.{completes, end_at, is_over, wait_end};
ghost use Rattle.ha_model.specs.Records.{CallEnds, Records, actions_of};
ghost use Rattle.ha_config.specs.Words.{or_else};
ghost use Rattle.ha_model.specs.RecordSteps.{records_after};
ghost use Rattle.ha_model.specs.Lawful.{Right, is_quiet, is_running, may_step, pick, ready};
ghost use Rattle.ha_ready.specs.ReadyPairs.{branches_at, branches_with, changed_at, pairs_from, with_run};
ghost use Rattle.ha_ready.specs.Agree.{AgreesBut, but};
ghost use Rattle.ha_ready.specs.RunPast.{AllPast, IsPast};
ghost use Rattle.ha_ready.specs.RestedFlags.{IsKnown, RestedKept, flags_from, source_of};
ghost use Rattle.ha_ready.specs.Picked.{IsPicked};

/// The ready pairs stand run by run, in order of their serials.
pub fn ready_stands_run_by_run()
    ensures ready { (j : Journal) (rs : Records) → Right j rs → ready rs j ≡ pairs_from 0 (length rs) (branches_at rs j) }
    ensures change { (m s : ℕ) (bs : List Branch) (by : ℕ → List Branch) → 0 < s → s ≤ m → with_run s bs (pairs_from 0 m by) ≡ pairs_from 0 m (changed_at s bs by) }
{}

/// Ready pairs that agree but for some runs: from the pairs before an entry to those behind it, run by run.
pub fn pairs_agree_but_for_some()
    ensures first { (told : CallEnds) (left : ℕ → Bool) (rs : Records) (j k : Journal) → Right j rs → ((s : ℕ) → 0 < s → s ≤ length rs → left s ≡ false → branches_at rs j s ≡ branches_with told rs k s)
        → AgreesBut told left rs k (ready rs j) }
    ensures run { (told : CallEnds) (s : ℕ) (left : ℕ → Bool) (rs : Records) (j : Journal) (pairs : List (ℕ × Branch)) → 0 < s → s ≤ length rs → AgreesBut told left rs j pairs
        → AgreesBut told (but left s) rs j (with_run s (branches_with told rs j s) pairs) }
    ensures grown { (told : CallEnds) (changed : ℕ → Bool) (rs rs' : Records) (j : Journal) (pairs : List (ℕ × Branch)) → length rs ≤ length rs' → pairs ≡ pairs_from 0 (length rs) (branches_with told rs j)
        → ((s : ℕ) → 0 < s → s ≤ length rs' → changed s ≡ false → branches_with told rs j s ≡ branches_with told rs' j s) → AgreesBut told changed rs' j pairs }
    ensures all { (told : CallEnds) (left : ℕ → Bool) (rs : Records) (j : Journal) (pairs : List (ℕ × Branch)) → ((s : ℕ) → left s ≡ false) → AgreesBut told left rs j pairs → pairs ≡ pairs_from 0 (length rs) (branches_with told rs j) }
{}

/// The records of a journal tell of its places alone; so a run that neither begins nor ends at an entry runs behind it where it ran before.
pub fn records_tell_the_past()
    ensures past { (j : Journal) (rs : Records) → Right j rs → AllPast (length j) rs }
    ensures stays { (n : ℕ) (r : Record) → IsPast n r → is_running (suc n) r ≡ is_running n r }
    ensures ended { (n p : ℕ) (c : EndCause) (r : Record) → r.end ≡ Some (p, c) → p ≤ n → is_running (suc n) r ≡ false }
    ensures begun { (n p : ℕ) (r : Record) → r.begin ≡ Some p → p ≤ n → r.end ≡ None → is_running (suc n) r ≡ true }
{}

/// The flags of the sources go on to say who is rested.
pub fn rested_flags_are_kept()
    ensures { (j : Journal) (rs : Records) (x : Entry) (flags : List Bool) → Right j rs → IsKnown (source_of x) → RestedKept j rs flags
        → RestedKept (more j x) (records_after j rs x) (flags_from (source_of x) (is_quiet (records_after j rs x) (more j x)) 0 flags) }
{}

/// A pair that is picked of the ready ones is one of a run that runs, with a branch in which it may step.
pub fn a_picked_pair_may_step()
    ensures { (j : Journal) (rs : Records) (k s : ℕ) (b : Branch) → Right j rs → pick k (ready rs j) ≡ Some (s, b) → IsPicked rs j s b }
{}

/// The firings at a place stay as they are with one more entry, and a wait has the end that it had, or else the one that the entry gives
/// it.
pub fn waits_of_one_more()
    ensures firings { (j : Journal) (x : Entry) → HasEntry j → (ts : List Trigger) (since q : ℕ) → q < length j → firings (more j x) ts since q ≡ firings j ts since q }
    ensures end { (j : Journal) (x : Entry) → HasEntry j → (ask : Ask) (p : ℕ) → p ≤ length j → wait_end (more j x) ask p
        ≡ or_else (wait_end j ask p) (if completes (more j x) ask p (length j) || is_over (more j x) ask p (length j) then Some (end_at (more j x) ask p (length j)) else None) }
{}

/// At most one entry is the one that a firing of a trigger counts from: with `for` the one at which it moved, and else that of its place.
pub fn a_firing_counts_from_one_entry()
    ensures { (j : Journal) (t : Trigger) (e : Option EntityId) (since p i k : ℕ) → i ≤ p → k ≤ p → fires j t e since p i ≡ true → fires j t e since p k ≡ true → i ≡ k }
{}

/// Where one more place of a branch is allowed, the branch is among those that the run's script has.
pub fn allowed_branches_are_listed()
    ensures { (rs : Records) (j : Journal) (r : Record) (b : Branch) → may_step rs j r b ≡ true → list_any (bytes_eq b) (branches_of (actions_of (units j) r.automation)) ≡ true }
{}
