//! Laws of the definitions alone. Each is a function that does nothing; its contract is the law. `more j x` is the journal `j` with one
//! more entry.
ghost use Rattle.std.specs.Prelude.{◌≡◌, ◌++◌, ℕ, [], ◌∷◌, IsTrue, List, None, Some, Option, codes, false, is_some, length, map, option_and_then, option_map, take, true, if◌then◌else◌};
ghost use Rattle.std.specs.List.{list_any};
ghost use Rattle.std.specs.Option.{option_map_or, option_to_list};
ghost use Rattle.ha_value.specs.declared.value.EntityId.{EntityId};
ghost use Rattle.ha_config.specs.declared.command.Cmd.{Cmd};
ghost use Rattle.ha_config.specs.declared.helper.Helper.{Helper};
ghost use Rattle.ha_config.specs.Helpers.{Counter, counter_in, helper_named};
ghost use Rattle.ha_config.specs.Names.{named_among};
ghost use Rattle.ha_config.specs.Sound.{are_sound_helpers};
ghost use Rattle.ha_config.specs.Words.{EachAfter, Pairs, Text, same};
ghost use Rattle.ha_sight.specs.declared.steps.Inner.{Inner};
ghost use Rattle.ha_sight.specs.Inner.{inner_of, own_item};
ghost use Rattle.ha_sight.specs.Services.{is_within};
ghost use Rattle.ha_sight.specs.Sight.{Sight};
ghost use Rattle.ha_sight.specs.StateStep.{next_object};
ghost use Rattle.ha_journal.specs.declared.entry.Entry.{Entry};
ghost use Rattle.ha_journal.specs.Commands.{put_as};
ghost use Rattle.ha_journal.specs.Entries.{change_of, changes_in, event_in, report_in};
ghost use Rattle.ha_journal.specs.Helpers.{due_in, event_for, events_of, finishes, known, last_change, own_event, text_of};
ghost use Rattle.ha_journal.specs.HelperSteps.{IsBare, changed_with, due_with, text_with};
ghost use Rattle.ha_journal.specs.Journal.{HasEntry, Journal, helpers, in_force, more, now};
ghost use Rattle.ha_journal.specs.Moves.{number_in_text, report_number, sight};
ghost use Rattle.ha_journal.specs.States.{of_automation, of_helper, reported, states};
ghost use Rattle.ha_model.specs.Lawful.{Right};
ghost use Rattle.ha_model.specs.Records.{Records};
ghost use Rattle.script_laws.specs.Made.{AreMade};
ghost use Rattle.helper_laws.specs.Bounds.{IsCount};
ghost use Rattle.helper_laws.specs.Starts.{starts};

/// A helper with one more entry: its text is that of its change; that of a timer that finishes is idle; else it is the text before. Its
/// state is what a report of this text makes of the state before.
pub fn helpers_go_on()
    ensures text { (j : Journal) (x : Entry) (h : Helper) → text_of (more j x) h ≡ text_with (change_of h.entity x) (if finishes j x h then codes "idle" else text_of j h) }
    ensures state { (j : Journal) (x : Entry) (h : Helper) → of_helper (more j x) h ≡ Some (next_object (of_helper j h) (text_of (more j x) h) [] (now (more j x))) }
    ensures last { (j : Journal) (x : Entry) (e : EntityId) → last_change (more j x) e ≡ changed_with (change_of e x) (now (more j x)) (last_change j e) }
    ensures due { (j : Journal) (x : Entry) (e : EntityId) → due_in (more j x) e ≡ due_with j x e (change_of e x) }
    ensures seen { (j : Journal) (h : Helper) → HasEntry j → IsBare (of_helper j h) (text_of j h) }
{}

/// A timer finishes at most once for each start. Behind the entry at which it finishes it finishes at
/// no entry before the next that starts it; nor does it behind a change that starts it not, as where it
/// is paused, cancelled or finished by a call; nor where no entry started it. `xs` are the entries
/// between, and `y` is one behind them.
pub fn a_timer_finishes_once_for_each_start()
    ensures once { (j : Journal) (x : Entry) (xs : List Entry) (y : Entry) (h : Helper) → finishes j x h ≡ true → list_any (starts h.entity) xs ≡ false
        → finishes (more j x ++ xs) y h ≡ false }
    ensures stopped { (j : Journal) (x : Entry) (xs : List Entry) (y : Entry) (h : Helper) → is_some (change_of h.entity x) ≡ true
        → list_any (starts h.entity) (x ∷ xs) ≡ false → finishes (more j x ++ xs) y h ≡ false }
    ensures never { (j : Journal) (y : Entry) (h : Helper) → list_any (starts h.entity) j ≡ false → finishes j y h ≡ false }
{}

/// Each change in a right journal is one that a service makes of a helper that its place sees: of a
/// kind for which it is, with a value within its bounds where one is asked for, and by what is seen
/// there. So nothing changes a helper but calls of its services.
pub fn services_make_all_changes()
    ensures { (j : Journal) (rs : Records) → Right j rs → EachAfter (λ before x. AreMade (sight before (length before)) (changes_in x)) [] j }
{}

/// A counter stays in its bounds: in a right journal its text is, after each entry, that of a whole
/// number within them. It is so for each counter that begins within its bounds, whatever the others
/// are, and so for all of a sound configuration.
pub fn counters_stay_in_their_bounds()
    ensures sound { (j : Journal) (rs : Records) → Right j rs → IsTrue (are_sound_helpers (helpers j)) → (e : EntityId) (h : Helper) (c : Counter) → helper_named (helpers j) e ≡ Some h
        → counter_in h.kind ≡ Some c → (n : ℕ) → IsCount c (text_of (take n j) h) }
    ensures each { (j : Journal) (rs : Records) → Right j rs → (e : EntityId) (h : Helper) (c : Counter) → helper_named (helpers j) e ≡ Some h → counter_in h.kind ≡ Some c
        → is_within c c.initial ≡ true → (n : ℕ) → IsCount c (text_of (take n j) h) }
{}

/// Where no helper is configured the states are those of automations and of reports.
pub fn without_helpers_states_are_reported()
    ensures { (j : Journal) → helpers j ≡ [] → (e : EntityId) → states j e
        ≡ (if same e.domain (codes "automation") then option_map (of_automation j) (named_among (in_force j) e.object) else reported j e) }
{}

/// Where no helper is configured, and the entry changes none, it gives the number of its report and its own event alone.
pub fn without_helpers_entries_give_their_own()
    ensures number { (e : EntityId) (name : Option Text) (x : Entry) → changes_in x ≡ [] → report_number e name x ≡ option_and_then (number_in_text e name) (report_in x) }
    ensures events { (j : Journal) (x : Entry) → helpers j ≡ [] → changes_in x ≡ [] → events_of j x ≡ map own_event (option_to_list (event_in x)) }
    ensures others { (j : Journal) (x : Entry) → helpers j ≡ [] → changes_in x ≡ [] → (e : EntityId) → event_for (Some e) (events_of j x) ≡ None }
{}

/// Where no helper is configured no entry of a right journal changes one. So each gives the number of its report and its own event alone, as
/// `without_helpers_entries_give_their_own` says.
pub fn without_helpers_entries_change_none()
    ensures { (j : Journal) (rs : Records) → Right j rs → helpers j ≡ [] → EachAfter (λ before x. changes_in x ≡ []) [] j }
{}

/// Where no helper is configured a command stands for itself, and a call is done by the core exactly where it is one of scripts.
pub fn without_helpers_calls_go_out()
    ensures report { (j : Journal) → helpers j ≡ [] → (e : EntityId) (text : Text) (attributes : Pairs) → put_as j (Cmd.Report e text attributes) ≡ Cmd.Report e text attributes }
    ensures gone { (j : Journal) → helpers j ≡ [] → (e : EntityId) → put_as j (Cmd.Gone e) ≡ Cmd.Gone e }
    ensures known { (j : Journal) → helpers j ≡ [] → known j ≡ [] }
    ensures call { (sight : Sight) → sight.helpers ≡ [] → (service : Text) (targets : List EntityId) (fields : Pairs)
        → inner_of sight service targets fields ≡ option_map_or Inner.Does (own_item sight.scripts service targets fields) Inner.Outer }
{}
