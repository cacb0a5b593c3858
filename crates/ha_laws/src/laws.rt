//! Laws of the definitions alone. Each is a function that does nothing; its contract is the law.
//!
//! `more j x` is the journal `j` with one more entry. The functions that keep a value for a
//! journal, entry by entry, rest on the laws about it.
ghost use Rattle.std.specs.Prelude.{◌≡◌, ◌<◌, ℕ, List, [], ◌∷◌, ◌++◌, ◌||◌, true, false, None, Some, MatchOption, length, max, codes, slice_get, if◌then◌else◌};
ghost use Rattle.ha_value.specs.Ids.{entity_text};
ghost use Rattle.ha_value.specs.declared.value.EntityId.{EntityId};
ghost use Rattle.ha_config.specs.declared.command.Cmd as cmd;
ghost use Rattle.ha_config.specs.declared.command.Cmd.{Cmd};
ghost use Rattle.ha_journal.specs.declared.entry.Entry.{Entry};
ghost use Rattle.ha_journal.specs.declared.entry.Entry.TheVariants.{Line};
ghost use Rattle.ha_sight.specs.declared.item.Item.{Item};
ghost use Rattle.ha_model.specs.declared.record.Record.{Record};
ghost use Rattle.ha_config.specs.Words.{Text, Pairs, EachAfter, same_entity};
ghost use Rattle.ha_journal.specs.Entries.{report_in, gone_in, is_restart, reload_in};
ghost use Rattle.ha_journal.specs.Force.{force};
ghost use Rattle.ha_journal.specs.Journal.{Journal, HasEntry, brings, now as now_lem, more, scripts_in, units};
ghost use Rattle.ha_journal.specs.Switches.{is_on, on_after, switches_after};
ghost use Rattle.ha_journal.specs.States.{reported};
ghost use Rattle.ha_sight.specs.StateStep.{next_object};
ghost use Rattle.ha_sight.specs.Scripts.{Status, whole};
ghost use Rattle.ha_model.specs.Records.{Records, actions_of, records_of, ran_on, spots, next_spot};
ghost use Rattle.ha_journal.specs.Attempts.{passing};
ghost use Rattle.ha_model.specs.RecordSteps.{records_after};
ghost use Rattle.ha_model.specs.RunSteps.{runs_after};
ghost use Rattle.ha_sight.specs.Branches.{branches_of};
ghost use Rattle.ha_sight.specs.Services.{is_of_helpers};
ghost use Rattle.ha_laws.specs.Told.{ByTheRules, AreNear};
ghost use Rattle.ha_config.specs.CheckText.{as_line};
ghost use Rattle.ha_model.specs.Texts.{call_text};
ghost use Rattle.ha_laws.specs.WorkedHall as hall;
ghost use Rattle.ha_laws.specs.WorkedModes as modes;
ghost use Rattle.ha_laws.specs.WorkedScripts as scripts;
ghost use Rattle.ha_laws.specs.WorkedHolds as holds;
ghost use Rattle.ha_laws.specs.IdleLines.{IsIdle, NothingChanges};
ghost use Rattle.ha_laws.specs.Order.{InOrder};
ghost use Rattle.ha_journal.specs.Moves.{sight};
ghost use Rattle.ha_laws.specs.OneCall.{IsCallable, IsNoScript, call_made, one_call};
ghost use Rattle.ha_laws.specs.OneRun.{AllEnded, IsBegun, SameNumbers};
ghost use Rattle.ha_config.specs.declared.config.Mode.{Mode};
ghost use Rattle.ha_model.specs.declared.record.EndCause.{EndCause};
ghost use Rattle.ha_model.specs.Lawful.{Right, Lawful, IsRightEntry, ready, is_quiet, is_rested, is_line_of, may_step};

/// Now after one more entry.
pub fn now_of_one_more()
    ensures { (j : Journal) (x : Entry) → now_lem (more j x) ≡ max (now_lem j) (brings x) }
{}

/// The state of a reported entity after one more entry: a Report of it, a Gone of it, a Restart,
/// or any other.
pub fn states_of_one_more()
    ensures report { (j : Journal) (e entity : EntityId) (k n : ℕ) (text : Text) (attributes : Pairs)
        → reported (more j (Line k n (Cmd.Report entity text attributes))) e
        ≡ (if same_entity entity e
        then Some (next_object (reported j e) text attributes (now_lem (more j (Line k n (Cmd.Report entity text attributes)))))
        else reported j e) }
    ensures gone { (j : Journal) (e entity : EntityId) (k n : ℕ)
        → reported (more j (Line k n (Cmd.Gone entity))) e ≡ (if same_entity entity e then None else reported j e) }
    ensures restart { (j : Journal) (e : EntityId) (k n : ℕ) → reported (more j (Line k n Cmd.Restart)) e ≡ None }
    ensures other { (j : Journal) (e : EntityId) (x : Entry) → report_in x ≡ None → gone_in x ≡ None → is_restart x ≡ false
        → reported (more j x) e ≡ reported j e }
{}

/// A switch after one more entry; `kept` says it of an entry that is no reload.
pub fn switches_of_one_more()
    ensures told { (j : Journal) (x : Entry) (a : ℕ) → HasEntry j → is_on (more j x) a ≡ switches_after (force j) (is_on j) x a }
    ensures kept { (j : Journal) (x : Entry) (a : ℕ) → HasEntry j → reload_in x ≡ None
        → is_on (more j x) a ≡ on_after (units j) a (is_on j a) x }
{}

/// The records after one more entry: first the ends that it gives, then its attempts in turn,
/// then the begins. `table` says the same of a table that is changed call by call.
pub fn records_of_one_more()
    ensures records { (j : Journal) (x : Entry) → records_of (more j x) ≡ records_after j (records_of j) x }
    ensures table { (j : Journal) (x : Entry) → HasEntry j → records_of (more j x) ≡ runs_after (more j x) (records_of j) (passing (more j x)) }
{}

/// Who may step at a place is told by the entries before it.
pub fn ready_of_the_past()
    ensures { (j : Journal) (ys : List Entry) → HasEntry j → ready (records_of j) j ≡ ready (records_of (j ++ ys)) j }
{}

/// A source is rested after an entry where the journal is quiet then, or where it was rested
/// before and the entry is no line of it.
pub fn rested_of_one_more()
    ensures { (rs : Records) (k : ℕ) (j : Journal) (x : Entry)
        → is_rested rs k (more j x) ≡ ((if is_line_of k x then false else is_rested rs k j) || is_quiet rs (more j x)) }
{}

/// The records are exactly those of the rules: the attempts that are admitted by the number of
/// earlier records of their unit that have not ended have one, and each begins and ends as
/// the rules say. On a right journal they are so, and no other list is, whose steps are right.
/// `near` says that in mode queued it is the same to ask whether an earlier record has not ended
/// and whether the one just before has not.
pub fn records_by_the_rules()
    ensures rules { (j : Journal) (rs : Records) → Right j rs → ByTheRules j rs }
    ensures only { (j : Journal) (rs : Records) → ByTheRules j rs → EachAfter (IsRightEntry rs) [] j → rs ≡ records_of j }
    ensures near { (j : Journal) (rs : Records) → Right j rs → AreNear j [] rs }
{}

/// Each record is of a unit of the journal, an automation or a script: an attempt of none does not pass.
pub fn each_record_has_a_unit()
    ensures { (j : Journal) (n : ℕ) → MatchOption (slice_get (records_of j) n) (Unit {0}) (λ r. r.automation < length (units j)) }
{}

/// A line that was refused, or that says that its source failed or gave too much, changes no
/// state, no present moment, no switch and no run, and asks for none.
pub fn idle_lines_change_nothing()
    ensures { (j : Journal) (source number : ℕ) (cmd : Cmd) → HasEntry j → IsIdle cmd → NothingChanges j (more j (Line source number cmd)) }
{}

/// On a right journal the runs of a unit of mode queued end in their order: behind a live one none
/// has ended.
pub fn queued_runs_end_in_order()
    ensures { (j : Journal) (rs : Records) → Right j rs → InOrder (units j) rs }
{}

/// Where all runs have ended, the journal is quiet; where the last one alone is live and has made no step, its own branch
/// is ready and nothing else. Each source is rested where the journal is quiet, and none is behind its own line where it is not.
pub fn one_run_at_a_time()
    ensures ended { (j : Journal) (rs : Records) → AllEnded (length j) rs → is_quiet rs j ≡ true }
    ensures begun { (k : ℕ) (j : Journal) (rs : Records) (b : IsBegun k j rs) → branches_of (actions_of (units j) b.run.automation) ≡ [] ∷ []
        → may_step rs j b.run [] ≡ true → ready rs j ≡ (b.run.serial, []) ∷ [] }
    ensures rested { (rs : Records) (k : ℕ) (j : Journal) → HasEntry j → is_quiet rs j ≡ true → is_rested rs k j ≡ true }
    ensures busy { (rs : Records) (k number : ℕ) (cmd : Cmd) (j before : Journal) → j ≡ more before (Line k number cmd) → is_quiet rs j ≡ false
        → is_rested rs k j ≡ false }
{}

/// The calls' text of a right journal is the same by records that have grown: it tells of a run only its unit and its
/// number.
pub fn calls_of_grown_records()
    ensures { (j : Journal) (rs rs' : Records) → Right j rs → SameNumbers rs rs' → call_text j rs ≡ call_text j rs' }
{}

/// A script that is one call of literal texts, of a service and for a target outside `automation`, has the outer branch
/// alone. At its first place it makes that call, and is done; where scripts are in force, the service is outside `script` too,
/// and no helper is configured for which it is.
pub fn one_call_is_made()
    ensures branch { (service target : Text) → branches_of (one_call service target) ≡ [] ∷ [] }
    ensures call { (j : Journal) (r : Record) (service target : EntityId) → IsCallable service → IsCallable target → IsNoScript (scripts_in j) service
        → is_of_helpers (sight j (length j)) (entity_text service) ≡ false → actions_of (units j) r.automation ≡ one_call (entity_text service) (entity_text target) → spots j r.serial ≡ []
        → ran_on j r (spots j r.serial ++ (next_spot j [] ∷ [])) ≡ Some (call_made service target) }
{}

/// The hall light's journal is lawful and quiet, with these records and calls.
pub fn hall_light_goes_out()
    ensures lawful { Lawful hall.journal hall.records }
    ensures quiet { is_quiet hall.records hall.journal ≡ true }
    ensures calls { call_text hall.journal hall.records
        ≡ as_line (codes "{\"run\":\"hall_light\",\"number\":1,\"call\":1,\"service\":\"light.turn_on\",\"target\":[\"light.hall\"],\"data\":{\"brightness\":128}}")
        ++ as_line (codes "{\"run\":\"hall_light\",\"number\":1,\"call\":2,\"service\":\"light.turn_off\",\"target\":[\"light.hall\"],\"data\":{}}") }
{}

/// A door that opens twice, before its first run has made a step: in mode restart the new run
/// replaces the old one, in mode single there is none, and in mode queued it waits. Where the
/// first one then ends, the queued one begins, and a switch ends it.
pub fn a_door_opens_twice()
    ensures restart { records_of (modes.twice Mode.Restart)
        ≡ modes.run 1 2 Mode.Restart (Some 2) (Some (4, EndCause.Replaced)) 0 ∷ modes.run 2 4 Mode.Restart (Some 4) None 0 ∷ [] }
    ensures single { records_of (modes.twice Mode.Single) ≡ modes.run 1 2 Mode.Single (Some 2) None 0 ∷ [] }
    ensures queued { records_of (modes.twice Mode.Queued) ≡ modes.run 1 2 Mode.Queued (Some 2) None 0 ∷ modes.run 2 4 Mode.Queued None None 0 ∷ [] }
    ensures queued_then { records_of modes.then_done
        ≡ modes.run 1 2 Mode.Queued (Some 2) (Some (5, EndCause.Done)) 1 ∷ modes.run 2 4 Mode.Queued (Some 5) (Some (6, EndCause.SwitchedOff)) 0 ∷ [] }
{}

/// In mode queued with `max: 1` a second opening is refused while the first run is live, and one
/// after its end begins at once.
pub fn a_queue_takes_one()
    ensures { records_of holds.queue_of_one ≡ holds.queue_run 1 2 (Some (5, EndCause.Done)) 1 ∷ holds.queue_run 2 7 None 0 ∷ [] }
{}

/// Triggers with a `for` of five seconds, and a Gone between: a number stays in its bounds, a
/// template of the state becomes false and true again, and an attribute that was already absent
/// stays so.
pub fn holds_over_a_gone()
    ensures number { (holds.attempted holds.number_held 3 ≡ []) × (holds.attempted holds.number_held 4 ≡ 0 ∷ []) }
    ensures template { (holds.attempted holds.template_held 5 ≡ []) × (holds.attempted holds.template_held 6 ≡ 0 ∷ []) }
    ensures attribute { (holds.attempted holds.attribute_held 5 ≡ []) × (holds.attempted holds.attribute_held 6 ≡ 0 ∷ []) }
{}

/// Scripts on their places: each list of a parallel block has the variables for itself, and
/// behind the block they are as before it; a name that a turn sets is the one that was there
/// before the loop; and a false condition ends its block alone.
pub fn scopes_of_scripts()
    ensures apart { whole scripts.apart [] (scripts.at 1 [] ∷ scripts.at 2 [] ∷ scripts.at 3 (0 ∷ []) ∷ scripts.at 4 (1 ∷ []) ∷ scripts.at 5 (0 ∷ []) ∷ scripts.at 6 [] ∷ [])
        ≡ Some (record {
          items = Item.Nothing ∷ Item.Nothing ∷ Item.Nothing ∷ scripts.notify (codes "notify.b") 1 ∷ scripts.notify (codes "notify.a") 2 ∷ scripts.notify (codes "notify.c") 1 ∷ [];
          status = Status.Done;
        }) }
    ensures raised { whole scripts.raised [] (scripts.at 1 [] ∷ scripts.at 2 [] ∷ scripts.at 3 [] ∷ scripts.at 4 [] ∷ scripts.at 5 [] ∷ [])
        ≡ Some (record {
          items = Item.Nothing ∷ Item.Nothing ∷ Item.Nothing ∷ Item.Nothing ∷ scripts.notify (codes "notify.x") 5 ∷ [];
          status = Status.Done;
        }) }
    ensures false_condition { whole scripts.false_inside ((codes "n", scripts.number 4) ∷ []) (scripts.at 1 [] ∷ scripts.at 2 [] ∷ scripts.at 3 [] ∷ [])
        ≡ Some (record { items = Item.Nothing ∷ Item.Nothing ∷ scripts.notify (codes "notify.x") 4 ∷ []; status = Status.Done }) }
{}
