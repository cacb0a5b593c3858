//! Laws of the definitions alone. Each is a function that does nothing; its contract is the law.

ghost use Rattle.std.specs.Prelude.{IsTrue};
ghost use Rattle.ha_config.specs.Sound.{are_sound_actions};
ghost use Rattle.yaml_tree.specs.declared.node.Node.{Node};
ghost use Rattle.conf_field.specs.Holds.{Holds};
ghost use Rattle.conf_field.specs.Sizes.{IsSoundTree};
ghost use Rattle.conf_script.specs.Actions.{actions};

/// The actions that are read of a sound tree are sound.
pub fn read_actions_are_sound()
    ensures { (n : Node) → IsSoundTree n → Holds (λ xs. IsTrue (are_sound_actions xs)) (actions n) }
{}
