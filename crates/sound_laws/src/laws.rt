//! Laws of the definitions alone. Each is a function that does nothing; its contract is the law.

ghost use Rattle.std.specs.Prelude.{ℕ, List};
ghost use Rattle.ha_config.specs.declared.config.Config.{Config};
ghost use Rattle.ha_config.specs.Sound.{IsSoundConfig};
ghost use Rattle.conf_auto.specs.Read.{IsReadOf};

/// What is read of a text is sound: distinct names, numbers in range, distinct keys, short lists.
pub fn what_is_read_is_sound()
    ensures { (text : List ℕ) (config : Config) → IsReadOf text config → IsSoundConfig config }
{}
