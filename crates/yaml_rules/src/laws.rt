//! Laws of the definitions alone. Each is a function that does nothing; its contract is the law.
ghost use Rattle.std.specs.Prelude.{◌≡◌, ◌≤◌, ◌⊎◌, ℕ, List, Err};
ghost use Rattle.yaml_scan.specs.declared.fault.Code.TheVariants.{Limit, RepeatedKey};
ghost use Rattle.yaml_scan.specs.declared.fault.Fault.{Fault};
ghost use Rattle.yaml_tree.specs.Tree.{tree};
ghost use Rattle.yaml_laws.specs.Refused.{IsTooDeep};
ghost use Rattle.yaml_rules.specs.Notation.{Breaks, HasNotation};

/// C4 and C12 stand at a line that goes on in the loose notation, where a rule on its trees is broken at the line: C4 at a key that stands
/// already in its map, C12 at a node that stands in 64 others.
pub fn a_code_of_the_tree_names_its_rule()
    ensures { (text : List ℕ) (f : Fault) → tree text ≡ Err f → (f.code ≡ RepeatedKey) ⊎ (f.code ≡ Limit) → HasNotation f.line text (Breaks f.line f.code) }
{}

/// Where a node is too deep on the first n lines, a text that has them up to one is in the loose notation, and a node on that line stands
/// in 64 others.
pub fn what_is_too_deep_stands_in_64_others()
    ensures { (n : ℕ) (text : List ℕ) → IsTooDeep n text → (m : ℕ) × (m ≤ n) × HasNotation m text (Breaks m Limit) }
{}
