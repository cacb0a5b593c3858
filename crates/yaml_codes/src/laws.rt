//! Laws of the definitions alone. Each is a function that does nothing; its contract is the law.
ghost use Rattle.std.specs.Prelude.{◌≡◌, ◌⊎◌, ℕ, List, Err, Ok};
ghost use Rattle.yaml_scan.specs.declared.fault.Code.TheVariants.{LeftOut, Limit, NotUtf8, RepeatedKey, Structure, Tab};
ghost use Rattle.yaml_scan.specs.declared.fault.Fault.{Fault};
ghost use Rattle.yaml_tree.specs.declared.node.Node.{Node};
ghost use Rattle.yaml_tree.specs.Spelling.{IsText};
ghost use Rattle.yaml_tree.specs.Tree.{tree};
ghost use Rattle.yaml_laws.specs.Refused.{SameLines};
ghost use Rattle.yaml_rules.specs.Notation.{EndsQuoted, IsLooseText, IsNoText, IsNotationText, IsUnspelled};
ghost use Rattle.yaml_codes.specs.OpenText.{EndsLoosely, GoesOnLoosely, IsUtf8At};

/// Each text of the grammar is in the notation, and so in the loose one, with its tree; and a text in the loose notation that is not
/// refused is in the grammar, with that tree.
pub fn the_grammar_is_notation_that_is_not_refused()
    ensures grammar { (text : List ℕ) (root : Node) → IsText text root → IsNotationText text root }
    ensures loosely { (text : List ℕ) (root : Node) → IsNotationText text root → IsLooseText text root }
    ensures notation { (text : List ℕ) (root x : Node) → IsLooseText text root → tree text ≡ Ok x → IsText text root }
{}

/// A text in the notation is refused for one of these two rules alone, and one in the loose notation for one of them or as no UTF-8.
pub fn notation_breaks_no_other_rule()
    ensures notation { (text : List ℕ) (root : Node) (f : Fault) → IsNotationText text root → tree text ≡ Err f → (f.code ≡ RepeatedKey) ⊎ (f.code ≡ Limit) }
    ensures loosely { (text : List ℕ) (root : Node) (f : Fault) → IsLooseText text root → tree text ≡ Err f
        → (f.code ≡ RepeatedKey) ⊎ ((f.code ≡ Limit) ⊎ (f.code ≡ NotUtf8)) }
{}

/// C1 and C3 stand at a line with which no text of the loose notation goes on. C13 stands at one with which none of the notation does, but
/// some text of the loose one.
pub fn what_is_left_out_is_no_notation()
    ensures left_out { (text : List ℕ) (f : Fault) → tree text ≡ Err f → (f.code ≡ LeftOut) ⊎ (f.code ≡ Tab) → IsNoText f.line text }
    ensures not_utf8 { (text : List ℕ) (f : Fault) → tree text ≡ Err f → f.code ≡ NotUtf8 → IsUnspelled f.line text }
    ensures loosely { (text : List ℕ) (f : Fault) → tree text ≡ Err f → f.code ≡ NotUtf8 → GoesOnLoosely f.line text }
{}

/// C2 too stands at a line with which no text of the notation goes on, unless the lines up to it end inside a quoted scalar. That scalar
/// then begins on this line, is not closed on it, and with one more line, which closes it, they are in the notation. So it is with the
/// loose notation, where they are in the loose one, and in the notation too if the line is UTF-8.
pub fn an_open_quote_may_go_on()
    ensures notation { (text other : List ℕ) (f : Fault) (root : Node) → SameLines f.line text other → tree text ≡ Err f
        → f.code ≡ Structure → IsNotationText other root → EndsQuoted f.line text }
    ensures loosely { (text other : List ℕ) (f : Fault) (root : Node) → SameLines f.line text other → tree text ≡ Err f
        → f.code ≡ Structure → IsLooseText other root → EndsLoosely f.line text × (IsUtf8At f.line text → EndsQuoted f.line text) }
{}
