//! Laws of the definitions alone. Each is a function that does nothing; its contract is the law. `more j x` is the journal `j` with one
//! more entry.
ghost use Rattle.std.specs.Prelude.{◌≡◌, ◌<◌, ◌≤◌, ◌-◌, ℕ, suc, [], Bool, true, Option, None, length, is_some, map, option_map, filter_map, flat_map, if◌then◌else◌};
ghost use Rattle.std.specs.List.{cons_option, enumerate_from};
ghost use Rattle.ha_value.specs.declared.value.EntityId.{EntityId};
ghost use Rattle.ha_config.specs.declared.command.Cmd.{Cmd};
ghost use Rattle.ha_config.specs.declared.config.Trigger.{Trigger};
ghost use Rattle.ha_config.specs.declared.config.TriggerRule.{TriggerRule};
ghost use Rattle.ha_journal.specs.declared.entry.Entry.{Entry};
ghost use Rattle.ha_journal.specs.declared.entry.Entry.TheVariants.{Line};
ghost use Rattle.ha_journal.specs.Attempts.{attempts, passing};
ghost use Rattle.ha_journal.specs.Entries.{opens_segment};
ghost use Rattle.ha_journal.specs.Helpers.{helper_events};
ghost use Rattle.ha_journal.specs.Journal.{Journal, HasEntry, now, more};
ghost use Rattle.ha_config.specs.Sound.{may_hold};
ghost use Rattle.ha_journal.specs.Moves.{sight, moves, latest_number, report_number};
ghost use Rattle.ha_journal.specs.Holds.{same_watched, fired_from};
ghost use Rattle.ha_journal.specs.Variables.{variables};
ghost use Rattle.ha_sight.specs.Rules.{is_event};
ghost use Rattle.ha_config.specs.Words.{Text};
ghost use Rattle.ha_past.specs.Firings.{Owner, firing_for, firings_by, firings_of};
ghost use Rattle.ha_past.specs.Holds.{holds_to};
ghost use Rattle.ha_past.specs.Looks.{arrived, at_once, or_else, ripe_value, standing, unripe};

/// What is seen, moves, is watched and is given at the places of a journal stays with one more entry.
pub fn earlier_places_stay()
    ensures seen { (j : Journal) (x : Entry) → HasEntry j → (n : ℕ) → n ≤ length j → sight (more j x) n ≡ sight j n }
    ensures moves { (j : Journal) (x : Entry) → HasEntry j → (t : Trigger) (e : Option EntityId) (n : ℕ) → n < length j → moves (more j x) t e n ≡ moves j t e n }
    ensures watched { (j : Journal) (x : Entry) → HasEntry j → (rule : TriggerRule) (e : Option EntityId) (i p : ℕ) → i < length j → p < length j → same_watched (more j x) rule e i p ≡ same_watched j rule e i p }
    ensures given { (j : Journal) (x : Entry) → HasEntry j → (t : Trigger) (e : Option EntityId) (i : ℕ) → i < length j → variables (more j x) t e i ≡ variables j t e i }
{}

/// The latest number of an entity, or of its attribute, with one more entry.
pub fn numbers_go_on()
    ensures { (j : Journal) (x : Entry) (e : EntityId) (name : Option Text)
        → latest_number e name (more j x) ≡ (if opens_segment x then None else or_else (report_number e name x) (latest_number e name j)) }
{}

/// At most one hold of a trigger is pending for an entity.
pub fn one_hold_is_pending()
    ensures { (j : Journal) (t : Trigger) (e : Option EntityId) (since d : ℕ) → is_some t.hold ≡ true → (i k : ℕ)
        → holds_to j t e since (length j - 1) d i ≡ true → holds_to j t e since (length j - 1) d k ≡ true → i ≡ k }
{}

/// What a trigger fires with at one more entry, the first one too, by what was pending before it.
pub fn firings_go_on()
    ensures { (j : Journal) (x : Entry) (t : Trigger) (e : Option EntityId) (since : ℕ) → (is_some t.hold ≡ true → may_hold t.rule ≡ true)
        → option_map (variables (more j x) t e) (fired_from (more j x) t e since (length j)) ≡ or_else (at_once j x t e since) (ripe_value x (now (more j x)) (arrived j x t e since)) }
{}

/// What is pending after one more entry, by what was pending before it; nothing is at first.
pub fn holds_go_on()
    ensures later { (j : Journal) (x : Entry) (t : Trigger) (e : Option EntityId) (since : ℕ) → (is_some t.hold ≡ true → may_hold t.rule ≡ true)
        → standing (more j x) t e since ≡ unripe x (now (more j x)) (arrived j x t e since) }
    ensures first { (j : Journal) (t : Trigger) (e : Option EntityId) (since : ℕ) → length j ≤ since → standing j t e since ≡ None }
{}

/// The firings of an owner, trigger by trigger and entity by entity.
pub fn owners_fire_by_triggers()
    ensures { (j : Journal) (p : ℕ) (o : Owner) → firings_of j p o ≡ flat_map (firings_by j p o) (enumerate_from 0 o.triggers) }
{}

/// An event trigger without `for` fires at one more entry for the entry's own event, if it has one, and then for each event of a helper, in
/// order.
pub fn event_triggers_fire_for_each_event()
    ensures { (j : Journal) (x : Entry) (o : Owner) (n : ℕ) (t : Trigger) → is_event t.rule ≡ true → t.hold ≡ None
        → firings_by (more j x) (length j) o (n, t)
        ≡ cons_option (firing_for (more j x) (length j) o (n, t) None)
        (filter_map (firing_for (more j x) (length j) o (n, t)) (map (λ v. v.entity) (helper_events j x))) }
{}

/// At a Restart no trigger fires, whatever its automations ask for, so nothing is attempted there.
pub fn a_restart_attempts_nothing()
    ensures fires { (j : Journal) (source number : ℕ) (t : Trigger) (e : Option EntityId) (since : ℕ) → fired_from (more j (Line source number Cmd.Restart)) t e since (length j) ≡ None }
    ensures attempts { (j : Journal) (source number : ℕ) → attempts (more j (Line source number Cmd.Restart)) (length j) ≡ [] }
    ensures passing { (j : Journal) (source number : ℕ) → passing (more j (Line source number Cmd.Restart)) ≡ [] }
{}
