//! Laws of the definitions alone. Each is a function that does nothing; its contract is the law.

ghost use Rattle.std.specs.Prelude.{◌≡◌, ℕ, List, []};
ghost use Rattle.std.specs.List.{concat};
ghost use Rattle.ha_text.specs.Lines.{lines_of};
ghost use Rattle.ha_text.specs.Calls.{Gives};

/// A stream gives the same lines however it is cut into pieces, and whenever they are taken: those of all pieces together.
#[tactic(auto, using(crate::proofs::PieceLemmas::any_pieces))]
pub fn any_pieces_give_the_lines()
    ensures { (pieces lines : List (List ℕ)) → Gives [] pieces lines → lines ≡ lines_of (concat pieces) }
{}
