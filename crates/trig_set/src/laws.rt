//! Laws of the definitions alone. Each is a function that does nothing; its contract is the law.
ghost use Rattle.std.specs.Prelude.{◌≡◌, ℕ, List, true, IsNone};
ghost use Rattle.ha_past.specs.Firings.{Owner, owner_named, placed, without_owner};
ghost use Rattle.trig_set.specs.Order.{ascend};

/// The owners of a set ascend: a new one is put in at its place, and one that is taken out leaves the others in order.
pub fn owners_ascend()
    ensures placed { (o : Owner) (owners : List Owner) → IsNone (owner_named o.owner owners) → ascend owners ≡ true → ascend (placed o owners) ≡ true }
    ensures without { (n : ℕ) (owners : List Owner) → ascend owners ≡ true → ascend (without_owner n owners) ≡ true }
{}
