//! Laws of the definitions alone. Each is a function that does nothing; its contract is the law.
ghost use Rattle.std.specs.Prelude.{◌≡◌, List, [], ◌∷◌, Some, None, codes, false, true};
ghost use Rattle.ha_value.specs.declared.value.EntityId.{EntityId};
ghost use Rattle.ha_config.specs.declared.template.Template.{Template};
ghost use Rattle.ha_config.specs.Words.{Pairs};
ghost use Rattle.ha_sight.specs.Sight.{Sight};
ghost use Rattle.ha_sight.specs.Templates.{is_true_text, pieces_of, rendered, says};
ghost use Rattle.tpl_reads.specs.Agree.{Agree};
ghost use Rattle.tpl_reads.specs.Reads.{entities_read};
ghost use Rattle.tpl_reads.specs.Worked.{a_test_of_both, a_variable, an_attribute, by_a_choice, by_a_variable, by_the_trigger, by_what_is_set, door, gate, one_of_two, out_of_lists, seen_with, the_same_again, two_are_on, window};

/// A template whose entities are all written in it means the same in two sights that agree on these, in each environment: it writes the same
/// and leaves the same variables, so its rendered text is the same, and whether that says yes, and whether it is true.
pub fn a_template_means_what_it_reads()
    ensures written { (t : Template) (es : List EntityId) (a b : Sight) → entities_read t ≡ Some es → Agree a b es → (env : Pairs) → pieces_of a t env ≡ pieces_of b t env }
    ensures rendered { (t : Template) (es : List EntityId) (a b : Sight) → entities_read t ≡ Some es → Agree a b es → (env : Pairs) → rendered a t env ≡ rendered b t env }
    ensures says { (t : Template) (es : List EntityId) (a b : Sight) → entities_read t ≡ Some es → Agree a b es → (env : Pairs) → says (rendered a t env) ≡ says (rendered b t env) }
    ensures condition { (t : Template) (es : List EntityId) (a b : Sight) → entities_read t ≡ Some es → Agree a b es → (env : Pairs) → is_true_text (rendered a t env) ≡ is_true_text (rendered b t env) }
{}

/// Worked templates read: each operand's entity; those of each arm, whichever is chosen; the entity of an attribute; those of a choice
/// between ids and of lists of them; and each of them once. Which one a variable, one that is set too, or the trigger's data names is not known.
pub fn worked_templates_read()
    ensures operands { entities_read two_are_on ≡ Some (door ∷ window ∷ []) }
    ensures arms { entities_read one_of_two ≡ Some (door ∷ window ∷ gate ∷ []) }
    ensures attribute { entities_read an_attribute ≡ Some (door ∷ []) }
    ensures tests { entities_read a_test_of_both ≡ Some (door ∷ window ∷ []) }
    ensures variable { entities_read by_a_variable ≡ None }
    ensures assigned { entities_read by_what_is_set ≡ None }
    ensures trigger { entities_read by_the_trigger ≡ None }
    ensures choice { entities_read by_a_choice ≡ Some (door ∷ gate ∷ window ∷ []) }
    ensures lists { entities_read out_of_lists ≡ Some (door ∷ window ∷ gate ∷ []) }
    ensures once { entities_read the_same_again ≡ Some (door ∷ []) }
    ensures nothing { entities_read a_variable ≡ Some [] }
{}

/// No entity that is read may be left out: of two sights that agree on the door, a template that asks for door and window is true in one, and
/// not in the other.
pub fn each_entity_counts()
    ensures agree { Agree (seen_with (codes "on")) (seen_with (codes "off")) (door ∷ []) }
    ensures on { says (rendered (seen_with (codes "on")) two_are_on []) ≡ true }
    ensures off { says (rendered (seen_with (codes "off")) two_are_on []) ≡ false }
{}
