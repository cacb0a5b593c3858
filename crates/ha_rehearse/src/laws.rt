//! Laws of the definitions alone. Each is a function that does nothing; its contract is the law.
ghost use Rattle.std.specs.Prelude.{◌≡◌, ℕ, Ok};
ghost use Rattle.ha_config.specs.declared.config.Config.{Config};
ghost use Rattle.ha_journal.specs.Journal.{Journal};
ghost use Rattle.ha_model.specs.Records.{Records};
ghost use Rattle.rehearsal.specs.Generated.{config_text};
ghost use Rattle.conf_auto.specs.Config.{config_of};
ghost use Rattle.ha_rehearse.specs.Rehearsed.{Rehearsed};

/// The generated text is a configuration.
pub fn the_text_is_a_configuration()
    ensures { (config : Config) × (config_of config_text ≡ Ok config) }
{}

/// What is rehearsed is fixed by the number of lines alone: there is at most one such journal, with its records.
pub fn rehearsals_are_alike()
    ensures { (n : ℕ) (j j' : Journal) (rs rs' : Records) → Rehearsed n j rs → Rehearsed n j' rs' → (j ≡ j') × (rs ≡ rs') }
{}
