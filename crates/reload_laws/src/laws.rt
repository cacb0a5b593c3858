//! Laws of the definitions alone. Each is a function that does nothing; its contract is the law. `more j x` is the journal `j` with one more
//! entry; a journal is one segment here.
ghost use Rattle.std.specs.Prelude.{◌≡◌, ◌⊎◌, ◌<◌, ◌≤◌, ◌++◌, ℕ, suc, [], true, false, None, Option, Some, is_some, length, slice_get};
ghost use Rattle.ha_value.specs.declared.value.EntityId.{EntityId};
ghost use Rattle.ha_config.specs.declared.config.Config.{Config};
ghost use Rattle.ha_config.specs.declared.config.Trigger.{Trigger};
ghost use Rattle.ha_config.specs.Names.{name_of, unit_of};
ghost use Rattle.ha_config.specs.Sound.{IsSoundConfig, may_hold};
ghost use Rattle.ha_config.specs.Words.{Text};
ghost use Rattle.ha_sight.specs.declared.item.Item.{Item};
ghost use Rattle.ha_sight.specs.Scripts.{Branch};
ghost use Rattle.ha_journal.specs.declared.entry.Entry.{Entry};
ghost use Rattle.ha_journal.specs.declared.entry.Entry.TheVariants.{Step};
ghost use Rattle.ha_journal.specs.Attempts.{attempts};
ghost use Rattle.ha_journal.specs.Entries.{reload_in};
ghost use Rattle.ha_journal.specs.Force.{force, has_unit};
ghost use Rattle.ha_journal.specs.Holds.{fired_from};
ghost use Rattle.ha_journal.specs.Journal.{HasEntry, Journal, configured, more, units};
ghost use Rattle.ha_journal.specs.Moves.{sight};
ghost use Rattle.ha_journal.specs.Switches.{is_on, name_switched_at, since};
ghost use Rattle.ha_model.specs.declared.record.EndCause.{EndCause};
ghost use Rattle.ha_model.specs.declared.record.Record.{Record};
ghost use Rattle.ha_model.specs.Lawful.{Right, record_of};
ghost use Rattle.ha_model.specs.Records.{Records, records_of};
ghost use Rattle.ha_past.specs.Holds.{pending};
ghost use Rattle.ha_past.specs.Looks.{arrived, standing};
ghost use Rattle.reload_laws.specs.Ends.{end_of};
ghost use Rattle.reload_laws.specs.Kept.{is_kept};
ghost use Rattle.reload_laws.specs.Same.{ReloadsTheSame};

/// A reload of the configuration that is in force changes nothing. What is in force stays word for word, all numbers with it. Each unit
/// has the switch that it had, and is on since then; the switch of a name is known since the same entry. What a place sees is the same, at
/// the same moment: all states, switches, scripts and helpers. No trigger fires, nothing is attempted, and what is pending of a trigger's
/// `for` is what was pending before, from the place at which it began. A run that has ended, or is of a unit in force, is the run that it was,
/// with its begin, its end and its calls; and no run is new. So all records of a right journal stay.
pub fn the_same_text_changes_nothing()
    ensures force { (j : Journal) (x : Entry) → ReloadsTheSame j x → force (more j x) ≡ force j }
    ensures switches { (j : Journal) (x : Entry) → ReloadsTheSame j x → (a : ℕ) → a < length (units j) → is_on (more j x) a ≡ is_on j a }
    ensures on_since { (j : Journal) (x : Entry) → ReloadsTheSame j x → (a : ℕ) → a < length (units j) → since (more j x) a ≡ since j a }
    ensures known_since { (j : Journal) (x : Entry) → ReloadsTheSame j x → (name : Text) → name_switched_at (more j x) name ≡ name_switched_at j name }
    ensures seen { (j : Journal) (x : Entry) → ReloadsTheSame j x → sight (more j x) (suc (length j)) ≡ sight (more j x) (length j) }
    ensures fires { (j : Journal) (x : Entry) → ReloadsTheSame j x → (t : Trigger) (e : Option EntityId) (from : ℕ) → fired_from (more j x) t e from (length j) ≡ None }
    ensures attempted { (j : Journal) (x : Entry) → ReloadsTheSame j x → attempts (more j x) (length j) ≡ [] }
    ensures holds { (j : Journal) (x : Entry) → ReloadsTheSame j x → (t : Trigger) (e : Option EntityId) (from : ℕ) → pending (more j x) t e from ≡ pending j t e from }
    ensures runs { (j : Journal) (x : Entry) → ReloadsTheSame j x → (s : ℕ) (r : Record) → record_of (records_of j) s ≡ Some r → (r.end ≡ None → has_unit (force j) r.automation ≡ true)
        → record_of (records_of (more j x)) s ≡ Some r }
    ensures none_new { (j : Journal) (x : Entry) → ReloadsTheSame j x → length (records_of (more j x)) ≡ length (records_of j) }
    ensures records { (j : Journal) (x : Entry) (rs : Records) → ReloadsTheSame j x → Right j rs → records_of (more j x) ≡ records_of j }
{}

/// Each live run of a right journal is of a unit in force: a unit that is not in force runs nothing.
pub fn live_runs_are_of_units_in_force()
    ensures { (j : Journal) (rs : Records) → Right j rs → (s : ℕ) (r : Record) → record_of rs s ≡ Some r → r.end ≡ None → has_unit (force j) r.automation ≡ true }
{}

/// A unit is kept at a reload where it is in force, and the new configuration has one of its kind that is equal to it in every field; of
/// the units that there were exactly these are in force behind it. A kept unit has its number, under which the same unit stands before
/// and behind; it has the switch that it had, and is on since then. What is pending of its triggers stays where what it watches stays,
/// else it is what the reload itself moves. A run of it has the end that it had, or is replaced by one that the reload itself attempts: so
/// none of them ends as reloaded.
pub fn kept_units_go_on()
    ensures kept { (j : Journal) (x : Entry) (c : Config) → HasEntry j → reload_in x ≡ Some c → IsSoundConfig (configured j) → (a : ℕ) → a < length (units j)
        → has_unit (force (more j x)) a ≡ is_kept (force j) c a }
    ensures unit { (j : Journal) (x : Entry) (c : Config) → HasEntry j → reload_in x ≡ Some c → (a : ℕ) → is_kept (force j) c a ≡ true
        → unit_of (units (more j x)) a ≡ unit_of (units j) a }
    ensures switches { (j : Journal) (x : Entry) (c : Config) → HasEntry j → reload_in x ≡ Some c → (a : ℕ) → is_kept (force j) c a ≡ true → is_on (more j x) a ≡ is_on j a }
    ensures on_since { (j : Journal) (x : Entry) (c : Config) → HasEntry j → reload_in x ≡ Some c → (a : ℕ) → is_kept (force j) c a ≡ true → since (more j x) a ≡ since j a }
    ensures holds { (j : Journal) (x : Entry) (c : Config) → HasEntry j → reload_in x ≡ Some c → (a : ℕ) → is_kept (force j) c a ≡ true → (t : Trigger) (e : Option EntityId)
        → (is_some t.hold ≡ true → may_hold t.rule ≡ true) → standing (more j x) t e (since (more j x) a) ≡ arrived j x t e (since j a) }
    ensures runs { (j : Journal) (x : Entry) (c : Config) → HasEntry j → reload_in x ≡ Some c → IsSoundConfig (configured j) → (s : ℕ) (r : Record) → record_of (records_of j) s ≡ Some r
        → is_kept (force j) c r.automation ≡ true
        → (end_of (records_of (more j x)) s ≡ r.end) ⊎ ((r.end ≡ None) × (end_of (records_of (more j x)) s ≡ Some (length j, EndCause.Replaced))) }
{}

/// At a reload each live run of a unit that is not kept ends, as reloaded; so it stands in every longer journal. Behind the place of its
/// end no run of a right journal makes a step, and so none makes a call.
pub fn units_that_went_have_ended()
    ensures ended { (j behind : Journal) (x : Entry) (c : Config) → HasEntry j → reload_in x ≡ Some c → (s : ℕ) (r : Record) → record_of (records_of j) s ≡ Some r → r.end ≡ None
        → is_kept (force j) c r.automation ≡ false → end_of (records_of (more j x ++ behind)) s ≡ Some (length j, EndCause.Reloaded) }
    ensures silent { (j : Journal) (rs : Records) → Right j rs → (n worker s : ℕ) (branch : Branch) (item : Item) → slice_get j n ≡ Some (Step worker s branch item)
        → (p : ℕ) (cause : EndCause) → end_of rs s ≡ Some (p, cause) → n ≤ p }
{}

/// Numbers are never used again. A number has its unit in every longer journal; a unit that a reload brings, and does not keep, has a number
/// that no unit had; and a unit that went is not in force again. Of two runs of units of one name, kept or not, the later one has the
/// greater number.
pub fn numbers_are_never_used_again()
    ensures units { (j behind : Journal) (a : ℕ) → a < length (units j) → unit_of (units (j ++ behind)) a ≡ unit_of (units j) a }
    ensures brought { (j : Journal) (x : Entry) (c : Config) → HasEntry j → reload_in x ≡ Some c → (a : ℕ) → has_unit (force (more j x)) a ≡ true → is_kept (force j) c a ≡ false
        → length (units j) ≤ a }
    ensures gone { (j behind : Journal) (a : ℕ) → a < length (units j) → has_unit (force j) a ≡ false → has_unit (force (j ++ behind)) a ≡ false }
    ensures runs { (j : Journal) (m n : ℕ) (q r : Record) → m < n → slice_get (records_of j) m ≡ Some q → slice_get (records_of j) n ≡ Some r
        → name_of (units j) q.automation ≡ name_of (units j) r.automation → q.number < r.number }
{}
