//! Laws of the definitions alone. Each is a function that does nothing; its contract is the law.
ghost use Rattle.std.specs.Prelude.{◌≡◌, ◌↔◌, true};
ghost use Rattle.ha_config.specs.declared.config.Automation.{Automation};
ghost use Rattle.ha_config.specs.declared.config.Script.{Script};
ghost use Rattle.ha_config.specs.Equality.{same_automation, same_script};

/// Two automations, and two scripts, are the same exactly where they are equal in every field.
pub fn the_same_is_equal()
    ensures automations { (x y : Automation) → (same_automation x y ≡ true) ↔ (x ≡ y) }
    ensures scripts { (x y : Script) → (same_script x y ≡ true) ↔ (x ≡ y) }
{}
