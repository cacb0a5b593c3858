//! The pairs of a map that were found so far, and whether a key is among them.

ghost use Rattle.std.specs.Prelude.{◌≡◌, ◌++◌, ◌∷◌, [], ◌≤◌, ℕ, drop, false, length, nat_eq, true, IfOk, OnOk};
ghost use Rattle.std.specs.BTreeSet.{contains};
ghost use Rattle.std.specs.Ordering.{nat_cmp};
ghost use Rattle.flow_line.specs.Marks.{mark_of, next};
ghost use Rattle.flow_line.specs.Reading.{has_key};

use ha_value::{Many, Value, Word};
use std::alloc::{AllocError, Global};
use std::collections::BTreeSet;
use std::marker::Model;

/// How many keys are looked through one by one, which is faster for so few.
const FEW: usize = 16;

/// Clauses see the pairs. The set has the marks of the keys behind the first few: a key whose mark is not among them is new, and
/// only for the others all keys are looked through.
#[derive(Drop)]
pub struct FoundPairs {
    list: Many<(Word, Value)>,
    marks: BTreeSet<u64>,
}

impl Model for FoundPairs {
    ghost use Rattle.std.specs.Prelude.{◌≡◌, List, ℕ, drop, true};
    ghost use Rattle.std.specs.BTreeSet.{contains};
    ghost use Rattle.std.specs.Coded.{codes};
    ghost use Rattle.std.specs.Ordering.{nat_cmp};
    ghost use Rattle.ha_value.specs.declared.value.Value.{Value as AnyValue};
    ghost use Rattle.ha_value.specs.contracts.value.Value as e;
    ghost use Rattle.flow_line.specs.Marks.{mark_of};
    ghost use Rattle.flow_line.specs.Reading.{has_key};

    ghost Value = { List (List ℕ × AnyValue) };

    ghost coded = { Prim.hlevel (codes, e.the_row.coded) };

    ghost view = { λ p. p.list };

    ghost invariant = { λ p. (q : List ℕ) → has_key (drop 16 p.list) q ≡ true → contains nat_cmp p.marks (mark_of q) ≡ true };
}

/// A key's mark, with one byte more.
#[tactic(auto, unfolding(crate::specs::Marks::next))]
fn next(mark: u64, b: u8) -> u64
    ensures { result ≡ next mark b }
{
    mark.wrapping_mul(1_099_511_628_211)
        .wrapping_add(u64::from(b))
}

/// A number by which keys are told apart: two keys of a line hardly ever have the same one.
fn mark_of(key: &[u8]) -> u64
    ensures { result ≡ mark_of key.now }
{
    let mut mark = 0;
    'bytes: for b in key {
        mark = next(mark, *b);
    }
    mark
}

/// Puts a mark into a set.
fn note(marks: &mut BTreeSet<u64>, mark: u64) -> Result<(), AllocError>
    ensures own { OnOk result (contains nat_cmp marks.new mark ≡ true) }
    ensures others { OnOk result ((n : ℕ) → nat_eq mark n ≡ false → contains nat_cmp marks.new n ≡ contains nat_cmp marks.old n) }
{
    match marks.insert(mark) {
        Ok(_) => Ok(()),
        Err(_) => Err(AllocError),
    }
}

fn has_key(pairs: &[(Word, Value)], key: &Word) -> bool
    ensures { result ≡ has_key pairs.now key.now }
{
    pairs.iter().any(|pair| pair.0.bytes() == key.bytes())
}

impl FoundPairs {
    /// No pairs, with room for two.
    #[inline(always)]
    pub fn with_room(alloc: Global) -> Result<FoundPairs, AllocError>
        ensures { IfOk result (λ pairs. pairs ≡ []) }
    {
        let list = Many::with_room(alloc, 2)?;
        Ok(FoundPairs {
            list,
            marks: BTreeSet::new(alloc),
        })
    }

    /// Whether the key is one of those behind the first few.
    #[tactic(auto, using(crate::proofs::FoundKeys::told))]
    fn is_later(&self, key: &Word) -> bool
        requires { 16 ≤ length self.now }
        ensures { result ≡ has_key (drop 16 self.now) key.now }
    {
        let pairs = self.list.as_slice();
        self.marks.contains(&mark_of(key.bytes())) && has_key(&pairs[FEW..], key)
    }

    #[inline(always)]
    pub fn has(&self, key: &Word) -> bool
        ensures { result ≡ has_key self.now key.now }
    {
        let pairs = self.list.as_slice();
        if pairs.len() <= FEW {
            return has_key(pairs, key);
        }
        has_key(&pairs[..FEW], key) || self.is_later(key)
    }

    /// One more pair at the end.
    #[inline(always)]
    pub fn push(self, pair: (Word, Value)) -> Result<FoundPairs, AllocError>
        ensures { IfOk result (λ pairs. pairs ≡ self ++ pair ∷ []) }
    {
        let FoundPairs {
            mut list,
            mut marks,
        } = self;
        if list.len() >= FEW {
            note(&mut marks, mark_of(pair.0.bytes()))?;
        }
        list.push(pair)?;
        Ok(FoundPairs { list, marks })
    }

    #[inline(always)]
    pub fn into_list(self) -> Many<(Word, Value)>
        ensures { result ≡ self }
    {
        self.list
    }
}
