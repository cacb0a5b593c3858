//! Laws of what is kept. Each is a function that does nothing; its contract is the law. `more j x` is the journal `j` with one more entry.
ghost use Rattle.std.specs.Prelude.{◌≡◌, ℕ, List, [], false, length};
ghost use Rattle.ha_value.specs.declared.value.EntityId.{EntityId};
ghost use Rattle.ha_config.specs.Words.{Pairs, Text};
ghost use Rattle.ha_sight.specs.declared.steps.Inner.{Inner};
ghost use Rattle.ha_sight.specs.Inner.{inner_of_helpers};
ghost use Rattle.ha_sight.specs.Services.{is_of_helpers};
ghost use Rattle.ha_sight.specs.Sight.{Sight};
ghost use Rattle.ha_journal.specs.declared.entry.Entry.{Entry};
ghost use Rattle.ha_journal.specs.Entries.{changes_in, is_moment};
ghost use Rattle.ha_journal.specs.Journal.{HasEntry, Journal, helpers, now, more};
ghost use Rattle.ha_journal.specs.Moves.{sight};
ghost use Rattle.helper_set.specs.declared.set.Helpers.{Helpers as Kept};
ghost use Rattle.helper_set.specs.Kept.{AreOutside, AreSeen, StandsFor};

/// What stands for a journal stands for it with an entry that is no moment and changes no helper.
pub fn other_entries_leave_helpers()
    ensures { (s : Kept) (j : Journal) (x : Entry) → HasEntry j → StandsFor s j → changes_in x ≡ [] → is_moment x ≡ false → StandsFor s (more j x) }
{}

/// The next place of a journal sees the helpers as they are kept.
pub fn helpers_are_seen()
    ensures { (s : Kept) (j : Journal) → HasEntry j → StandsFor s j → AreOutside (helpers j) → AreSeen s.kept.items (sight j (length j)) (now j) }
{}

/// Helpers leave a call as it is exactly where its name is no service of theirs, or no helper is configured for which it is.
pub fn other_calls_are_left()
    ensures if_other { (s : Sight) (service : Text) (targets : List EntityId) (fields : Pairs) → is_of_helpers s service ≡ false → inner_of_helpers s service targets fields ≡ Inner.Outer }
    ensures only_other { (s : Sight) (service : Text) (targets : List EntityId) (fields : Pairs) → inner_of_helpers s service targets fields ≡ Inner.Outer → is_of_helpers s service ≡ false }
{}
