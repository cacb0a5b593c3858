//! How many variables each open block has.
ghost use Rattle.std.specs.Prelude.{◌≡◌, ◌<◌, ◌∷◌, [], ◌++◌, length, slice_set, OnOk, OnErr, MatchOption};

use smallvec::SmallVec;
use std::alloc::{AllocError, Global};
use std::marker::Model;

/// The sizes of the open blocks, the outermost first. Two have room in the list's own place, since most scripts open no more.
#[derive(Drop)]
pub struct Sizes {
    held: SmallVec<usize, 2>,
}

impl Model for Sizes {
    ghost use Rattle.std.specs.Prelude.{ℕ, List};

    ghost Value = { List ℕ };

    ghost view = { λ s. s.held.items };
}

impl Sizes {
    /// No block.
    pub fn make(alloc: Global) -> Sizes
        ensures { result ≡ [] }
    {
        Sizes {
            held: SmallVec::new(alloc),
        }
    }

    /// How many blocks there are.
    pub fn len(&self) -> usize
        ensures { result ≡ length self.now }
    {
        self.held.len()
    }

    pub fn as_slice(&self) -> &[usize]
        ensures { result.now ≡ self.now }
    {
        self.held.as_slice()
    }

    /// One more block, inside the others.
    pub fn push(&mut self, size: usize) -> Result<(), AllocError>
        ensures ok { OnOk result (self.new ≡ self.old ++ size ∷ []) }
        ensures err { OnErr result (self.new ≡ self.old) }
    {
        self.held.push(size)?;
        Ok(())
    }

    /// Takes the innermost block.
    pub fn pop(&mut self) -> Option<usize>
        ensures { MatchOption result ((self.old ≡ []) × (self.new ≡ [])) (λ last. self.old ≡ self.new ++ last ∷ []) }
    {
        self.held.pop()
    }

    /// Gives a block another size.
    pub fn set(&mut self, at: usize, size: usize)
        requires { at < length self.old }
        ensures { self.new ≡ slice_set self.old at size }
    {
        self.held[at] = size;
    }
}
