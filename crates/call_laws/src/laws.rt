//! Laws of the definitions alone. Each is a function that does nothing; its contract is the law.
ghost use Rattle.std.specs.Prelude.{◌≡◌, ℕ, Bool, true, List, [], map, length, nat_lt, take, Some};
ghost use Rattle.std.specs.List.{list_all, enumerate_from};
ghost use Rattle.ha_value.specs.declared.value.EntityId.{EntityId};
ghost use Rattle.ha_config.specs.declared.config.Automation.{Automation};
ghost use Rattle.ha_config.specs.Words.{EachAfter, Pairs, Text};
ghost use Rattle.ha_sight.specs.declared.item.Item.{Item};
ghost use Rattle.ha_sight.specs.declared.steps.Inner.{Inner};
ghost use Rattle.ha_sight.specs.Inner.{inner_of, inner_of_helpers};
ghost use Rattle.ha_sight.specs.Scripts.{Branch, Outcome, is_open};
ghost use Rattle.ha_journal.specs.declared.entry.Entry.{Entry};
ghost use Rattle.ha_journal.specs.declared.entry.Entry.TheVariants.{Step};
ghost use Rattle.ha_journal.specs.Entries.{Asked, asked_in, turning};
ghost use Rattle.ha_config.specs.Numbered.{has_number};
ghost use Rattle.ha_journal.specs.Attempts.{passing};
ghost use Rattle.ha_journal.specs.Force.{force, has_unit};
ghost use Rattle.ha_journal.specs.Journal.{HasEntry, Journal, in_force, helpers, more, scripts, units};
ghost use Rattle.ha_journal.specs.Moves.{sight};
ghost use Rattle.ha_model.specs.declared.record.Record.{Record};
ghost use Rattle.ha_model.specs.Lawful.{Right};
ghost use Rattle.ha_model.specs.Records.{Records, ran, records_of, spots, stops, stops_turned};
ghost use Rattle.ha_model.specs.RunSteps.{runs_after};
ghost use Rattle.call_laws.specs.Called.{CallersWait, HasNoScripts, NamesNone, called_with};
ghost use Rattle.call_laws.specs.Plain.{plain_ran};

/// A called run is a run as any other. An entry that starts runs of scripts attempts each of them,
/// in order, by hand and with its variables, and all of these attempts pass; the records behind it
/// are those that a table of runs has after these attempts in turn. What is admitted, by mode and
/// limit, and how runs are numbered, begin and end, `ha_laws::laws::records_by_the_rules` says of all
/// units alike.
pub fn called_scripts_are_attempted()
    ensures attempts { (j : Journal) (worker serial : ℕ) (branch : Branch) (scripts : List ℕ) (fields : Pairs) (waits : Bool) → HasEntry j
        → list_all (λ a. nat_lt a (length (units j))) scripts ≡ true
        → passing (more j (Step worker serial branch (Item.Started scripts fields waits))) ≡ enumerate_from 0 (map (called_with fields) scripts) }
    ensures records { (j : Journal) (worker serial : ℕ) (branch : Branch) (scripts : List ℕ) (fields : Pairs) (waits : Bool) → HasEntry j
        → list_all (λ a. nat_lt a (length (units j))) scripts ≡ true
        → records_of (more j (Step worker serial branch (Item.Started scripts fields waits)))
        ≡ runs_after (more j (Step worker serial branch (Item.Started scripts fields waits))) (records_of j) (enumerate_from 0 (map (called_with fields) scripts)) }
{}

/// A caller never goes on before the run that it called has ended: where a run's script gave a call
/// that waits, the run's next place in that branch is one before which the called run had ended, or
/// was not admitted. Only a run whose script is open may have no such place yet.
pub fn callers_wait()
    ensures { (j : Journal) (r : Record) (o : Outcome) → ran j r ≡ Some o → CallersWait j (is_open o.status) (spots j r.serial) o.items }
{}

/// A configuration without scripts means what it means where there are no scripts at all. Only
/// automations are in force; each call is one of helpers' services, where helpers are configured, one
/// of automations' or is written; a run gives what it gives on places that know of no called runs, where
/// none of the journal's had scripts; and no entry of such a right journal starts or ends runs
/// of scripts: so its attempts are of automations, and what it stops it stops by switches alone.
pub fn without_scripts_automations_are_alone()
    ensures units { (j : Journal) (a : ℕ) → scripts j ≡ [] → has_unit (force j) a ≡ has_number (in_force j) a }
    ensures calls { (j : Journal) (n : ℕ) (service : Text) (targets : List EntityId) (fields : Pairs) → scripts (take n j) ≡ []
        → inner_of (sight j n) service targets fields ≡ inner_of_helpers (sight j n) service targets fields }
    ensures outer { (j : Journal) (n : ℕ) (service : Text) (targets : List EntityId) (fields : Pairs) → scripts (take n j) ≡ [] → helpers j ≡ []
        → inner_of (sight j n) service targets fields ≡ Inner.Outer }
    ensures runs { (j : Journal) (r : Record) → HasNoScripts j → ran j r ≡ plain_ran j r }
    ensures entries { (j : Journal) (rs : Records) → Right j rs → HasNoScripts j → EachAfter (λ before x. NamesNone x) [] j }
    ensures asks { (x : Entry) (chosen : List ℕ) (fields : Pairs) → NamesNone x → asked_in x ≡ Asked.OfScripts chosen fields → ⊥ }
    ensures stops { (x : Entry) (all : List Automation) (a : ℕ) → NamesNone x → stops all a x ≡ stops_turned all a (turning x) }
{}
