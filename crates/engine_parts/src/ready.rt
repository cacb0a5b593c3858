//! The ready pairs of run and branch, in order, kept from entry to entry.
ghost use Rattle.std.specs.Prelude.{◌≡◌, ◌++◌, ◌&&◌, [], ◌∷◌, ◌<◌, ◌≤◌, ◌+◌, ℕ, suc, List, not, nat_eq, nat_lt, OnOk, length, take, drop, filter, slice_set, vec_len, vec_capacity};
ghost use Rattle.ha_config.specs.Words.{comes_before};
ghost use Rattle.ha_sight.specs.Scripts.{Branch as Path};
ghost use Rattle.ha_ready.specs.ReadyPairs.{changed_at, pairs_from, pairs_of, with_run};
ghost use Rattle.engine_parts.specs.Called.{placed};
ghost use Rattle.engine_parts.specs.Lower.{Ascends, earlier_at, has_one, is_earlier, lower, put_in, stands_at};

use ha_sight::Branch;
use ha_value::Many;
use std::alloc::AllocError;

/// The pairs, by serial and then by branch.
#[derive(Drop)]
pub struct Ready {
    pub pairs: Vec<(u64, Branch)>,
}

/// One pair is taken out.
fn cut(ready: &mut Ready, at: usize)
    requires { at < length ready.old.pairs.items }
    ensures items { ready.new.pairs.items ≡ take at ready.old.pairs.items ++ drop (suc at) ready.old.pairs.items }
    ensures capacity { vec_capacity ready.new.pairs ≡ vec_capacity ready.old.pairs }
{
    ready.pairs.remove(at);
}

/// Whether a pair is of this run.
fn is_of(pair: &(u64, Branch), serial: u64) -> bool
    ensures { result ≡ nat_eq pair.now.0 serial }
{
    pair.0 == serial
}

/// Whether a pair is of an earlier run.
fn is_before(pair: &(u64, Branch), serial: u64) -> bool
    ensures { result ≡ nat_lt pair.now.0 serial }
{
    pair.0 < serial
}

/// How many pairs stand at the front that are of earlier runs, where the pairs stand by their runs.
pub fn lower(pairs: &[(u64, Branch)], serial: u64) -> usize
    ensures fits { result ≤ length pairs.now }
    ensures lower { Ascends 0 pairs.now → result ≡ lower serial pairs.now }
{
    let mut low = 0;
    let mut high = pairs.len();
    'halves: while low < high {
        let at = low + (high - low) / 2;
        if is_before(&pairs[at], serial) {
            low = at + 1;
        } else {
            high = at;
        }
    }
    low
}

/// Whether a pair of this run stands at that place.
fn stands_at(ready: &Ready, serial: u64, at: usize) -> bool
    ensures { result ≡ stands_at serial at ready.now.pairs.items }
{
    match ready.pairs.get(at) {
        Some(pair) => is_of(pair, serial),
        None => false,
    }
}

/// The pairs of a run are taken out, where the pairs stand by their runs.
pub fn drop_pairs(ready: &mut Ready, serial: u64)
    ensures rest { Ascends 0 ready.old.pairs.items → ready.new.pairs.items ≡ filter (λ x. not (nat_eq x.0 serial)) ready.old.pairs.items }
    ensures len { vec_len ready.new.pairs ≤ vec_len ready.old.pairs }
    ensures capacity { vec_capacity ready.new.pairs ≡ vec_capacity ready.old.pairs }
{
    let at = lower(ready.pairs.as_slice(), serial);
    'pairs: while stands_at(ready, serial, at) {
        cut(ready, at);
    }
}

/// A pair is put in at a place.
fn put_pair(ready: &mut Ready, at: usize, serial: u64, branch: Branch) -> Result<(), AllocError>
    requires { at ≤ length ready.old.pairs.items }
    ensures { OnOk result (ready.new.pairs.items ≡ take at ready.old.pairs.items ++ (serial, branch) ∷ drop at ready.old.pairs.items) }
{
    ready.pairs.insert(at, (serial, branch))?;
    Ok(())
}

/// The branches of a run are put in at a place.
fn put_pairs(
    ready: &mut Ready,
    at: usize,
    serial: u64,
    branches: Many<Branch>,
) -> Result<(), AllocError>
    requires { at ≤ length ready.old.pairs.items }
    ensures { OnOk result (ready.new.pairs.items ≡ take at ready.old.pairs.items ++ (pairs_of serial branches ++ drop at ready.old.pairs.items)) }
{
    let mut branches = branches;
    'branches: while let Some(branch) = branches.pop() {
        put_pair(ready, at, serial, branch)?;
    }
    Ok(())
}

/// Whether the run has one pair, at that place, and gets one.
fn is_one(ready: &Ready, serial: u64, at: usize, branches: &Many<Branch>) -> bool
    requires { at ≤ length ready.now.pairs.items }
    ensures { result ≡ (nat_eq (length branches.now) 1 && has_one serial at ready.now.pairs.items) }
{
    branches.len() == 1 && stands_at(ready, serial, at) && !stands_at(ready, serial, at + 1)
}

/// The branch that is alone.
fn only(branches: Many<Branch>) -> Branch
    requires { length branches ≡ 1 }
    ensures { branches ≡ result ∷ [] }
{
    let mut branches = branches;
    match branches.pop() {
        Some(branch) => branch,
        None => unreachable!(),
    }
}

/// The pair at a place gives way to this one.
fn put_over(ready: &mut Ready, at: usize, serial: u64, branch: Branch)
    requires { at < length ready.old.pairs.items }
    ensures { ready.new.pairs.items ≡ slice_set ready.old.pairs.items at (serial, branch) }
{
    ready.pairs[at] = (serial, branch);
}

/// The pairs of a run are taken out, and those of these branches put in.
fn put_anew(ready: &mut Ready, serial: u64, branches: Many<Branch>) -> Result<(), AllocError>
    ensures { OnOk result ((m : ℕ) (by : ℕ → List Path) → ready.old.pairs.items ≡ pairs_from 0 m by → 0 < serial → serial ≤ m → ready.new.pairs.items ≡ with_run serial branches ready.old.pairs.items) }
{
    drop_pairs(ready, serial);
    let at = lower(ready.pairs.as_slice(), serial);
    put_pairs(ready, at, serial, branches)?;
    Ok(())
}

/// The branches of a run that may step are now these. A pair that is alone is written over, and no other one moves.
pub fn set_run(ready: &mut Ready, serial: u64, branches: Many<Branch>) -> Result<(), AllocError>
    ensures { OnOk result ((m : ℕ) (by : ℕ → List Path) → ready.old.pairs.items ≡ pairs_from 0 m by → 0 < serial → serial ≤ m → ready.new.pairs.items ≡ with_run serial branches ready.old.pairs.items) }
{
    let at = lower(ready.pairs.as_slice(), serial);
    if is_one(ready, serial, at, &branches) {
        put_over(ready, at, serial, only(branches));
        return Ok(());
    }
    put_anew(ready, serial, branches)
}

/// Whether a branch comes before another.
fn is_less(left: &[u32], right: &[u32]) -> bool
    ensures { result ≡ comes_before left.now right.now }
{
    left < right
}

/// Whether a pair is of this run, in an earlier branch.
fn is_earlier(pair: &(u64, Branch), serial: u64, branch: &Branch) -> bool
    ensures { result ≡ is_earlier serial branch.now pair.now }
{
    pair.0 == serial && is_less(pair.1.as_slice(), branch.as_slice())
}

/// Whether such a pair stands at that place.
fn earlier_at(ready: &Ready, at: usize, serial: u64, branch: &Branch) -> bool
    ensures { result ≡ earlier_at serial branch.now at ready.now.pairs.items }
{
    match ready.pairs.get(at) {
        Some(pair) => is_earlier(pair, serial, branch),
        None => false,
    }
}

/// The place at which the pair of a run and branch belongs, where the pairs stand by their runs.
fn place_of(ready: &Ready, serial: u64, branch: &Branch) -> usize
    ensures fits { result ≤ length ready.now.pairs.items }
    ensures place { Ascends 0 ready.now.pairs.items
        → take result ready.now.pairs.items ++ (serial, branch.now) ∷ drop result ready.now.pairs.items ≡ put_in serial branch.now ready.now.pairs.items }
{
    let mut at = lower(ready.pairs.as_slice(), serial);
    'pairs: while earlier_at(ready, at, serial, branch) {
        at += 1;
    }
    at
}

/// A pair is put in at a place; there is room for it.
pub fn put_reserved(ready: &mut Ready, at: usize, serial: u64, branch: Branch)
    requires fits { at ≤ length ready.old.pairs.items }
    requires room { vec_len ready.old.pairs < vec_capacity ready.old.pairs }
    ensures items { ready.new.pairs.items ≡ take at ready.old.pairs.items ++ (serial, branch) ∷ drop at ready.old.pairs.items }
    ensures len { vec_len ready.new.pairs ≡ vec_len ready.old.pairs + 1 }
    ensures capacity { vec_capacity ready.old.pairs ≤ vec_capacity ready.new.pairs }
{
    match ready.pairs.insert(at, (serial, branch)) {
        Ok(()) => {}
        Err(_) => unreachable!(),
    }
}

/// One more branch of a run may step; there is room for its pair.
pub fn put_woken(ready: &mut Ready, serial: u64, branch: Branch)
    requires { vec_len ready.old.pairs < vec_capacity ready.old.pairs }
    ensures items { (m : ℕ) (by : ℕ → List Path) → ready.old.pairs.items ≡ pairs_from 0 m by → 0 < serial → serial ≤ m → ready.new.pairs.items ≡ pairs_from 0 m (changed_at serial (placed branch (by serial)) by) }
    ensures len { vec_len ready.new.pairs ≡ vec_len ready.old.pairs + 1 }
    ensures capacity { vec_capacity ready.old.pairs ≤ vec_capacity ready.new.pairs }
{
    let at = place_of(ready, serial, &branch);
    put_reserved(ready, at, serial, branch);
}
