//! The variables of the open blocks.
ghost use Rattle.std.specs.Prelude.{◌≡◌, ◌<◌, ◌≤◌, ◌-◌, ◌∷◌, [], ◌++◌, suc, length, take, drop, Some, IfOk, IfSome, OnOk, if◌then◌else◌};
ghost use Rattle.ha_config.specs.Words.{has_name};
ghost use Rattle.ha_sight.specs.Scripts.{flat, outer, add_inside, set_name};
ghost use Rattle.script_step.specs.Cuts.{add_at, is_own, named_block, total};

use crate::sizes::Sizes;
use ha_sight::Env;
use ha_value::{Value, Word};
use std::alloc::{AllocError, Global};
use std::marker::Model;

/// The pairs of all open blocks in one list, the outermost block first, and how many each block has.
#[derive(Drop)]
pub struct Scopes {
    pairs: Env,
    sizes: Sizes,
}

impl Model for Scopes {
    ghost use Rattle.std.specs.Prelude.{◌≡◌, length};
    ghost use Rattle.std.specs.Coded.{codes};
    ghost use Rattle.ha_value.specs.contracts.value.Value as v;
    ghost use Rattle.ha_sight.specs.Scripts.{Scopes};
    ghost use Rattle.script_step.specs.Cuts.{cut, total};

    ghost Value = { Scopes };

    ghost coded = { Prim.hlevel (codes, v.the_row.coded) };

    ghost view = { λ s. cut s.sizes s.pairs };

    ghost invariant = { λ s. total s.sizes ≡ length s.pairs };
}

impl Scopes {
    /// One block with these variables.
    pub fn start(alloc: Global, env: Env) -> Result<Scopes, AllocError>
        ensures { IfOk result (λ made. made ≡ env ∷ []) }
    {
        let mut sizes = Sizes::make(alloc);
        sizes.push(env.len())?;
        Ok(Scopes { pairs: env, sizes })
    }

    /// No block.
    pub fn none(alloc: Global) -> Scopes
        ensures { result ≡ [] }
    {
        Scopes {
            pairs: Env::none(alloc),
            sizes: Sizes::make(alloc),
        }
    }

    /// A copy, for a branch of its own.
    pub fn copy(&self, alloc: Global) -> Result<Scopes, AllocError>
        ensures { IfOk result (λ made. made ≡ self.now) }
    {
        let mut sizes = Sizes::make(alloc);
        for size in self.sizes.as_slice() {
            sizes.push(*size)?;
        }
        Ok(Scopes {
            pairs: self.pairs.copy(alloc)?,
            sizes,
        })
    }

    /// All variables, the innermost last.
    pub fn flat(&self) -> &Env
        ensures { result.now ≡ flat self.now }
    {
        &self.pairs
    }

    /// Opens a block without variables.
    pub fn open(&mut self) -> Result<(), AllocError>
        ensures { OnOk result (self.new ≡ self.old ++ [] ∷ []) }
    {
        self.sizes.push(0)?;
        Ok(())
    }

    /// Opens a block with one variable.
    pub fn open_with(&mut self, alloc: Global, name: Word, value: Value) -> Result<(), AllocError>
        ensures { OnOk result (self.new ≡ self.old ++ ((name, value) ∷ []) ∷ []) }
    {
        self.open()?;
        self.add_inside(alloc, name, value)
    }

    /// Drops the innermost block.
    pub fn close(&mut self)
        ensures { self.new ≡ outer self.old }
    {
        if let Some(size) = self.sizes.pop() {
            self.pairs.truncate(self.pairs.len() - size);
        }
    }

    /// Adds a pair to the end of block `k`.
    fn add_at(
        &mut self,
        alloc: Global,
        k: usize,
        name: Word,
        value: Value,
    ) -> Result<(), AllocError>
        requires { k < length self.old }
        ensures { OnOk result (self.new ≡ add_at k (name, value) self.old) }
    {
        let size = self.sizes.as_slice()[k];
        let end = end_of(self.sizes.as_slice(), self.pairs.len(), k);
        self.pairs.insert(alloc, end, name, value)?;
        prove!(size < self.pairs.len());
        self.sizes.set(k, size + 1);
        Ok(())
    }

    /// How many blocks there are.
    fn blocks(&self) -> usize
        ensures { result ≡ length self.now }
    {
        self.sizes.len()
    }

    /// Adds a pair to the innermost block.
    pub fn add_inside(&mut self, alloc: Global, name: Word, value: Value) -> Result<(), AllocError>
        ensures { OnOk result (self.new ≡ add_inside (name, value) self.old) }
    {
        let blocks = self.blocks();
        if blocks == 0 {
            self.open()?;
            self.add_at(alloc, 0, name, value)
        } else {
            self.add_at(alloc, blocks - 1, name, value)
        }
    }

    /// Sets a variable: in the innermost block that has it, else in the innermost one.
    pub fn set(&mut self, alloc: Global, name: Word, value: Value) -> Result<(), AllocError>
        ensures { OnOk result (self.new ≡ set_name (name, value) self.old) }
    {
        if is_own(&name) {
            return self.add_inside(alloc, name, value);
        }
        match self.named_block(&name) {
            Some(k) => self.add_at(alloc, k, name, value),
            None => self.add_inside(alloc, name, value),
        }
    }

    /// The innermost block that has a variable of this name.
    fn named_block(&self, name: &Word) -> Option<usize>
        ensures value { result ≡ named_block name.now self.now }
        ensures within { IfSome result (λ k. k < length self.now) }
    {
        let sizes = self.sizes.as_slice();
        let most = self.pairs.len();
        let mut found = None;
        let mut at = 0;
        for k in 0..sizes.len() {
            let end = at + sizes[k];
            prove!(end <= most);
            let here = has_name(name, &self.pairs, at, end);
            found = later_block(found, k, here);
            at = end;
        }
        found
    }
}

/// Whether a variable of this name always goes into the innermost block.
fn is_own(name: &Word) -> bool
    ensures { result ≡ is_own name.now }
{
    name.bytes() == b"trigger".as_slice()
        || (name.bytes() == b"repeat".as_slice() || name.bytes() == b"wait".as_slice())
}

/// The block that was found, or block `k` where that has the name too.
fn later_block(found: Option<usize>, k: usize, here: bool) -> Option<usize>
    ensures { result ≡ if here then Some k else found }
{
    if here { Some(k) } else { found }
}

/// Whether one of the pairs from one place up to another has this name.
fn has_name(name: &Word, pairs: &Env, from: usize, to: usize) -> bool
    requires { to ≤ length pairs.now }
    ensures { result ≡ has_name name.now (take (to - from) (drop from pairs.now)) }
{
    for i in from..to {
        if pairs.is_named(i, name) {
            return true;
        }
    }
    false
}

/// Where block `k` ends, among so many pairs.
fn end_of(sizes: &[usize], pairs: usize, k: usize) -> usize
    requires within { k < length sizes.now }
    requires total { total sizes.now ≡ pairs }
    ensures { result ≡ total (take (suc k) sizes.now) }
{
    let mut end = 0;
    for i in 0..k + 1 {
        end += sizes[i];
    }
    end
}
