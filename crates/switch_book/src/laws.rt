//! Laws of the definitions alone. Each is a function that does nothing; its contract is the law.
ghost use Rattle.std.specs.Prelude.{◌≡◌, ℕ, List, [], ◌∷◌, Bool, true, Option, Some, None, map, unwrap_or, if◌then◌else◌, nat_eq};
ghost use Rattle.ha_config.specs.declared.config.Automation.{Automation};
ghost use Rattle.ha_config.specs.declared.config.Config.{Config};
ghost use Rattle.ha_config.specs.declared.command.Cmd.{Cmd};
ghost use Rattle.ha_journal.specs.declared.carry.Carry.{Carry};
ghost use Rattle.ha_journal.specs.declared.entry.Entry.{Entry};
ghost use Rattle.ha_journal.specs.declared.entry.Entry.TheVariants.{Boot, Line};
ghost use Rattle.ha_config.specs.Words.{Text};
ghost use Rattle.ha_config.specs.ValueFacts.{all_distinct, keys_of};
ghost use Rattle.ha_config.specs.Numbered.{has_number};
ghost use Rattle.ha_journal.specs.Entries.{reload_in};
ghost use Rattle.ha_journal.specs.Journal.{Journal, HasEntry, automations, in_force, more, units};
ghost use Rattle.ha_journal.specs.Sights.{switch_of};
ghost use Rattle.ha_journal.specs.States.{switches_of};
ghost use Rattle.ha_journal.specs.Switches.{on_after, switched};
ghost use Rattle.ha_config.specs.Names.{names_of, stored_switch, unit_of};
ghost use Rattle.ha_config.specs.Sound.{are_in_name_order};
ghost use Rattle.ha_config.specs.StoreText.{in_name_order};
ghost use Rattle.ha_sight.specs.Sight.{Automations, switch_at};
ghost use Rattle.store_text.specs.Store.{Switches, by_names};
ghost use Rattle.switch_book.specs.Book.{StandsFor, Switch, reloaded, restored, set_each};

/// What is restored stands for the journal of the Boot alone. Where each switch is what the entry
/// makes of the one before, the switches stand for the journal with the entry, if that is no
/// Reload; behind a Reload those of its automations do. For a switch command that is one switch
/// set, that of the automation with the name; for a Switched item its targets set in turn.
pub fn switches_of_one_more()
    ensures boot { (text : Text) (config : Config) (stored : Option Switches) (start : ℕ) (zone : Text) (carry : Carry) → StandsFor (restored stored config.automations) (Boot text config stored start zone carry ∷ []) }
    ensures more { (s : Automations) (j : Journal) (x : Entry) → HasEntry j → reload_in x ≡ None → StandsFor s j
        → StandsFor (map {A = Switch} {B = Switch} (λ p. (p.0, p.1, on_after (units j) p.0 p.2 x)) s) (more j x) }
    ensures reload { (s : Automations) (j : Journal) (x : Entry) (c : Config) → HasEntry j → reload_in x ≡ Some c → StandsFor s j → StandsFor (reloaded s (in_force (more j x))) (more j x) }
    ensures named { (j : Journal) (a b : ℕ) (x : Automation) (source number : ℕ) (before on stop : Bool) → all_distinct (names_of (automations j)) ≡ true
        → has_number (in_force j) a ≡ true → has_number (in_force j) b ≡ true → unit_of (units j) a ≡ Some x
        → on_after (units j) b before (Line source number (Cmd.Switch x.name on stop)) ≡ (if nat_eq b a then on else before) }
    ensures each { (targets : List (ℕ × Bool × Bool)) (s : Automations) → set_each s targets ≡ map {A = Switch} {B = Switch} (λ p. (p.0, p.1, unwrap_or (switched p.0 targets) p.2)) s }
{}

/// Switches that stand for a journal are those of the automations in force, each under its
/// automation's number and name.
pub fn switches_stand_by_number()
    ensures switch { (s : Automations) (j : Journal) → StandsFor s j → (a : ℕ) → switch_at s a ≡ switch_of j a }
    ensures numbers { (s : Automations) (j : Journal) → StandsFor s j → map {A = Switch} {B = ℕ} (λ p. p.0) s ≡ map {A = ℕ × Automation} {B = ℕ} (λ p. p.0) (in_force j) }
    ensures names { (s : Automations) (j : Journal) → StandsFor s j → keys_of (by_names s) ≡ names_of (automations j) }
    ensures pairs { (s : Automations) (j : Journal) → StandsFor s j → by_names s ≡ switches_of j }
{}

/// Switches with distinct names are the same for each name when they were stored and read again;
/// what is read has its names in order, each once.
pub fn stored_switches_are_read()
    ensures found { (name : Text) (s : Switches) → all_distinct (keys_of s) ≡ true → stored_switch name (in_name_order s) ≡ stored_switch name s }
    ensures order { (s : Switches) → all_distinct (keys_of s) ≡ true → are_in_name_order (in_name_order s) ≡ true }
{}
