//! Laws of the definitions alone. Each is a function that does nothing; its contract is the law.
ghost use Rattle.std.specs.Prelude.{◌≡◌, ℕ, List, [], ◌∷◌, length};
ghost use Rattle.ha_journal.specs.declared.entry.Entry.{Entry};
ghost use Rattle.ha_journal.specs.Entries.{BeginsSegment, IsBoot};
ghost use Rattle.ha_journal.specs.Journal.{Journal, more};
ghost use Rattle.ha_model.specs.Records.{Records, records_of};
ghost use Rattle.ha_journal.specs.Attempts.{passing};
ghost use Rattle.ha_model.specs.Lawful.{IsRightEntry, Right};
ghost use Rattle.run_modes.specs.Calls.{all_tried, steps_done, stops_done, AreTurned};

/// The calls for one entry, in their order, give the records of the journal with it: the call and
/// the end of its own run (`called`, `ended`), the stops (`stop_all`, for the automations that it
/// turns off with stop and the scripts whose runs it ends, or for all at a Restart), and then its
/// passing attempts (`attempt`). Before the first entry there are no records.
pub fn records_by_calls()
    ensures first { (boot : Entry) → IsBoot boot → all_tried (boot ∷ []) [] (passing (boot ∷ [])) ≡ records_of (boot ∷ []) }
    ensures more { (j : Journal) (rs : Records) (x : Entry) (turned : List ℕ) → Right j rs → (BeginsSegment x → ⊥) → IsRightEntry rs j x → AreTurned j x turned
        → all_tried (more j x) (stops_done (length j) x turned (steps_done j rs x)) (passing (more j x)) ≡ records_of (more j x) }
{}
