//! Places of owners. One place alone, as for most entries, takes no memory.
ghost use Rattle.std.specs.Prelude.{◌≡◌, ◌↔◌, ◌<◌, ◌||◌, ◌∷◌, ℕ, false, true, IfSome, IsSome, IsTrue, OnOk, length};
ghost use Rattle.std.specs.BTreeMap.{is_at};
ghost use Rattle.std.specs.BTreeSet.{IsLowerBound};
ghost use Rattle.std.specs.Ordering.{nat_cmp};
ghost use Rattle.event_bus.specs.Lists.{has};
ghost use Rattle.trig_set.specs.Places.{Turns};

use std::alloc::{AllocError, Global};
use std::collections::BTreeSet;
use std::marker::Model;

/// A set of places.
#[derive(Drop)]
pub struct Places {
    /// The only place, if there is one; the others don't count then.
    alone: Option<usize>,
    several: BTreeSet<usize>,
}

impl Model for Places {
    ghost use Rattle.std.specs.Coded.{codes};
    ghost use Rattle.std.specs.Prelude.{ℕ};
    ghost use Rattle.std.specs.BTreeSet.{BTreeSet as Set};
    ghost use Rattle.trig_set.specs.Places.{places_of};

    ghost Value = { Set ℕ };

    ghost coded = { Prim.hlevel codes };

    ghost view = { λ p. places_of p.alone p.several };
}

/// The set has these two places, and no others.
fn put_two(set: &mut BTreeSet<usize>, one: usize, other: usize) -> Result<(), AllocError>
    ensures { OnOk result ((n : ℕ) → has set.new n ≡ (is_at (nat_cmp other) n || is_at (nat_cmp one) n)) }
{
    set.clear();
    set.insert(one)?;
    set.insert(other)?;
    Ok(())
}

impl Places {
    /// No places.
    pub fn make(alloc: Global) -> Places
        ensures { (n : ℕ) → has result n ≡ false }
    {
        Places {
            alone: None,
            several: BTreeSet::new(alloc),
        }
    }

    /// Puts a place in.
    pub fn insert(&mut self, place: usize) -> Result<(), AllocError>
        ensures updates { OnOk result (Turns self.old self.new place true) }
    {
        match self.alone {
            Some(alone) => {
                if alone != place {
                    put_two(&mut self.several, alone, place)?;
                    self.alone = None;
                }
                Ok(())
            }
            None => {
                if self.several.is_empty() {
                    self.alone = Some(place);
                } else {
                    self.several.insert(place)?;
                }
                Ok(())
            }
        }
    }

    /// Takes the least place out.
    pub fn pop_first(&mut self) -> Option<usize>
        ensures variant { IsSome result ↔ (0 < length self.old.keys) }
        ensures removal { IfSome result (λ k. self.old.keys ≡ k ∷ self.new.keys) }
        ensures member { IfSome result (λ k. IsTrue (has self.old k)) }
        ensures least { IfSome result (IsLowerBound nat_cmp self.old) }
        ensures updates { IfSome result (λ k. Turns self.old self.new k false) }
    {
        match self.alone {
            Some(place) => {
                self.alone = None;
                self.several.clear();
                Some(place)
            }
            None => self.several.pop_first(),
        }
    }
}
