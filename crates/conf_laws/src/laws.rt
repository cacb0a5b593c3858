//! Each law is a function that does nothing; its contract is the law.

ghost use Rattle.std.specs.Prelude.{IsTrue};
ghost use Rattle.ha_config.specs.Sound.{are_sound_conditions, are_sound_triggers, is_sound_template};
ghost use Rattle.yaml_tree.specs.Spelling.{IsText};
ghost use Rattle.yaml_tree.specs.declared.node.Node.{Node as Tree};
ghost use Rattle.conf_field.specs.Holds.{Holds};
ghost use Rattle.conf_field.specs.Kinds.{template};
ghost use Rattle.conf_field.specs.Sizes.{IsSoundTree, has_distinct_keys};
ghost use Rattle.conf_trigger.specs.Triggers.{triggers};
ghost use Rattle.conf_cond.specs.Conditions.{read_conditions};
ghost use Rattle.std.specs.Prelude.{ℕ, List};

/// No key stands twice in a map of a tree that a text is a spelling of.
pub fn keys_of_texts_are_distinct()
    ensures { (text : List ℕ) (root : Tree) → IsText text root → IsTrue (has_distinct_keys root) }
{}

/// Templates.
pub fn templates_are_sound()
    ensures { (line : ℕ) (node : Tree) → IsSoundTree node → Holds (λ t. IsTrue (is_sound_template t)) (template line node) }
{}

/// Triggers.
pub fn triggers_are_sound()
    ensures { (node : Tree) → IsSoundTree node → Holds (λ ts. IsTrue (are_sound_triggers ts)) (triggers node) }
{}

/// Conditions.
pub fn conditions_are_sound()
    ensures { (node : Tree) → IsSoundTree node → Holds (λ cs. IsTrue (are_sound_conditions cs)) (read_conditions node) }
{}
