//! Laws of the definitions alone. Each is a function that does nothing; its contract is the law.
ghost use Rattle.std.specs.Prelude.{◌≡◌, List, [], Bool, true, false, ℕ, None, Some, option_map, if◌then◌else◌};
ghost use Rattle.ha_value.specs.declared.value.EntityId.{EntityId};
ghost use Rattle.ha_config.specs.declared.command.Cmd.{Cmd};
ghost use Rattle.ha_journal.specs.declared.entry.Entry.{Entry};
ghost use Rattle.ha_journal.specs.declared.entry.Entry.TheVariants.{Line};
ghost use Rattle.ha_config.specs.Words.{Text, Pairs, same_entity};
ghost use Rattle.ha_journal.specs.Entries.{report_in, gone_in, is_restart};
ghost use Rattle.ha_config.specs.declared.helper.Helper.{Helper};
ghost use Rattle.ha_config.specs.Helpers.{helper_named, is_helper};
ghost use Rattle.ha_journal.specs.Helpers.{known, text_of};
ghost use Rattle.ha_journal.specs.Journal.{Journal, helpers, now, more, scripts_in};
ghost use Rattle.ha_journal.specs.Switches.{switch_named};
ghost use Rattle.ha_journal.specs.States.{states};
ghost use Rattle.ha_sight.specs.StateStep.{next_object};
ghost use Rattle.state_table.specs.Anew.{is_automation, switch_object};
ghost use Rattle.state_laws.specs.Stands.{gives_text, sets, sets_anew};
ghost use Rattle.state_table.specs.declared.table.StateTable.{StateTable};
ghost use Rattle.state_laws.specs.Stands.{StandsBut, StandsFor};
ghost use Rattle.std.specs.Prelude.{◌≡◌, length};
ghost use Rattle.ha_journal.specs.Moves.{sight};
ghost use Rattle.cond_eval.specs.declared.view.View.{View};
ghost use Rattle.cond_eval.specs.Seen.{seen};
ghost use Rattle.state_laws.specs.Stands.{IsViewOf};

/// A table that stands for a journal stands, after an entry that is no Report, Gone or Restart,
/// for the journal with that entry but for the automations that the entry sets anew; and where
/// none is left, it stands for it. Of helpers, those to which the entry gives a text are left too.
pub fn switches_are_left()
    ensures left { (t : StateTable) (j : Journal) (x : Entry) → report_in x ≡ None → gone_in x ≡ None → is_restart x ≡ false
        → StandsFor t j → StandsBut (sets j x) t (more j x) }
    ensures none { (t : StateTable) (j : Journal) (left : EntityId → Bool) → ((e : EntityId) → left e ≡ false) → StandsBut left t j → StandsFor t j }
{}

/// The state of an entity after one more entry: of an automation that the entry sets anew, the
/// state of its switch since Now, or none where a reload took it out of force; of a helper, what a report of its text would make of the state before; of
/// what a Report or Gone of a reported entity, or a Restart, does not touch, the state before. A helper keeps
/// its state at a Restart, and no line reports it.
pub fn states_of_one_more()
    ensures anew { (j : Journal) (x : Entry) (e : EntityId) → sets_anew j x e ≡ true
        → states (more j x) e ≡ option_map (λ on. switch_object on (now (more j x))) (switch_named (more j x) e.object) }
    ensures report { (j : Journal) (e entity : EntityId) (k n : ℕ) (text : Text) (attributes : Pairs) → is_automation entity ≡ false → is_helper (helpers j) entity ≡ false
        → states (more j (Line k n (Cmd.Report entity text attributes))) e
        ≡ (if same_entity entity e
        then Some (next_object (states j e) text attributes (now (more j (Line k n (Cmd.Report entity text attributes)))))
        else states j e) }
    ensures gone { (j : Journal) (e entity : EntityId) (k n : ℕ) → is_automation entity ≡ false → is_helper (helpers j) entity ≡ false
        → states (more j (Line k n (Cmd.Gone entity))) e ≡ (if same_entity entity e then None else states j e) }
    ensures restart { (j : Journal) (e : EntityId) (k n : ℕ) → sets_anew j (Line k n Cmd.Restart) e ≡ false → is_helper (helpers j) e ≡ false
        → states (more j (Line k n Cmd.Restart)) e ≡ None }
    ensures kept { (j : Journal) (e : EntityId) (k n : ℕ) (h : Helper) → is_automation e ≡ false → helper_named (helpers j) e ≡ Some h
        → states (more j (Line k n Cmd.Restart)) e ≡ states j e }
    ensures helper { (j : Journal) (e : EntityId) (x : Entry) (h : Helper) → is_automation e ≡ false → helper_named (helpers (more j x)) e ≡ Some h
        → states (more j x) e ≡ Some (next_object (states j e) (text_of (more j x) h) [] (now (more j x))) }
    ensures other { (j : Journal) (e : EntityId) (x : Entry) → report_in x ≡ None → gone_in x ≡ None → is_restart x ≡ false
        → sets_anew j x e ≡ false → gives_text j x e ≡ false → states (more j x) e ≡ states j e }
{}

/// A view whose parts are those of a journal sees what the journal's next entry sees, but for its scripts and helpers; and all of it with
/// the scripts in force, and what is known of the helpers.
pub fn views_see_the_journal()
    ensures parts { (v : View) (j : Journal) → IsViewOf v.states.now v.numbers.now v.config.now v.zone.now v.at j → seen v ≡ record (sight j (length j)) { scripts = []; helpers = [] } }
    ensures whole { (v : View) (j : Journal) (named : List (Text × ℕ)) → IsViewOf v.states.now v.numbers.now v.config.now v.zone.now v.at j → named ≡ scripts_in j
        → record (seen v) { scripts = named; helpers = known j } ≡ sight j (length j) }
{}
