//! Laws of the definitions. Each is the contract of a function that does nothing.

ghost use Rattle.std.specs.Prelude.{◌≡◌, ◌≤◌, ℕ};
ghost use Rattle.tpl_parse.specs.Refused.{IsFirstFault, NoneGoesOn};

/// Two first faults of a text have the same place, and no place with which no template begins stands before it.
pub fn one_first_fault(text: &[u8])
    ensures place { (p q : ℕ) → IsFirstFault text.now p → IsFirstFault text.now q → p ≡ q }
    ensures least { (p q : ℕ) → NoneGoesOn text.now p → IsFirstFault text.now q → q ≤ p }
{}
