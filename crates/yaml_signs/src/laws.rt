//! Laws of the definitions alone. Each is a function that does nothing; its contract is the law.
ghost use Rattle.std.specs.Prelude.{◌≡◌, ℕ, List, Err};
ghost use Rattle.yaml_scan.specs.declared.fault.Code.TheVariants.{LeftOut};
ghost use Rattle.yaml_scan.specs.declared.fault.Fault.{Fault};
ghost use Rattle.yaml_tree.specs.Tree.{tree};
ghost use Rattle.yaml_signs.specs.Signs.{IsLeftOut};

/// C3 stands at a line with a sign of what the profile leaves out, where a node or a key begins.
pub fn what_is_left_out_has_its_sign()
    ensures { (text : List ℕ) (f : Fault) → tree text ≡ Err f → f.code ≡ LeftOut → IsLeftOut text f.line }
{}
