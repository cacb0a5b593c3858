//! Counts by the first unit of a name.
ghost use Rattle.std.specs.Prelude.{◌≡◌, ◌+◌, ◌<◌, ◌≤◌, ◌^◌, ℕ, IfOk, Some, length, nat_eq, option_map, slice_get, slice_index, slice_index_or, true, vec_len, ◌&&◌, if◌then◌else◌};
ghost use Rattle.named_runs.specs.Named.{IsCounted, first_in, last_of};
ghost use Rattle.segment_runs.specs.Segment.{number_at};

use segment_runs::SegmentRuns;
use std::alloc::{AllocError, Global};

/// The same numbers once more.
pub(crate) fn copied(alloc: Global, numbers: &[u32]) -> Result<Vec<u32>, AllocError>
    ensures { IfOk result (λ made. made.items ≡ numbers.now) }
{
    let made = numbers.to_vec(alloc)?;
    Ok(made)
}

/// The count at a place, and 0 where there is none.
fn count_at(counts: &[u64], at: usize) -> u64
    ensures { result ≡ slice_index_or counts.now at 0 }
{
    match counts.get(at) {
        Some(count) => *count,
        None => 0,
    }
}

/// The number of the next run of a name, of which so many runs there are at a place, of all these.
pub(crate) fn next_number(counts: &[u64], at: usize, all: usize) -> u64
    requires few { slice_index_or counts.now at 0 ≤ all }
    requires small { all < 2 ^ 63 }
    ensures { result ≡ slice_index_or counts.now at 0 + 1 }
{
    count_at(counts, at) + 1
}

/// The number of the last run of a name, behind so many before the segment.
fn number_of(before: u64, counts: &[u64], at: usize, all: usize) -> u64
    requires few { slice_index_or counts.now at 0 ≤ all }
    requires small { all < 2 ^ 63 }
    requires before { before < 2 ^ 62 }
    ensures { result ≡ before + slice_index_or counts.now at 0 }
{
    before + count_at(counts, at)
}

/// For each unit the number of the last run of its name, over all segments, and 0 where there is none.
pub(crate) fn last_numbers(
    alloc: Global,
    runs: &SegmentRuns,
    firsts: &[u32],
    counts: &[u64],
) -> Result<Vec<u64>, AllocError>
    requires { IsCounted firsts.now counts.now runs.now }
    ensures { IfOk result (λ made. made.items ≡ last_of firsts.now runs.now.closed runs.now.list) }
{
    let mut made = Vec::with_capacity(alloc, firsts.len())?;
    let all = runs.count();
    'units: for at in 0..firsts.len() {
        let before = runs.carried(at);
        let first = first_of(firsts, at);
        made.push(number_of(before, counts, first as usize, all))?;
    }
    Ok(made)
}

/// So many counts: these, and 0 behind them.
pub(crate) fn counts_with(
    alloc: Global,
    known: &[u64],
    count: usize,
) -> Result<Vec<u64>, AllocError>
    ensures len { IfOk result (λ made. length made.items ≡ count) }
    ensures same { IfOk result (λ made. (n : ℕ) → n < count → slice_index_or made.items n 0 ≡ slice_index_or known.now n 0) }
{
    let mut made = Vec::with_capacity(alloc, count)?;
    'counts: for at in 0..count {
        made.push(count_at(known, at))?;
    }
    Ok(made)
}

/// One more is counted at a place, where there `is_more`.
pub(crate) fn count_told(counts: &mut Vec<u64>, at: usize, is_more: bool)
    requires { slice_index counts.old.items at + 1 < 2 ^ 64 }
    ensures len { vec_len counts.new ≡ vec_len counts.old }
    ensures counts { (n : ℕ) → n < vec_len counts.old → slice_index counts.new.items n ≡ slice_index counts.old.items n + (if is_more && nat_eq at n then 1 else 0) }
{
    if is_more && at < counts.len() {
        counts[at] += 1;
    }
}

/// Whether a number comes not near to what a number can be.
fn is_small(number: u64) -> bool
    ensures { result ≡ true → number < 2 ^ 62 }
{
    number < 0x4000_0000_0000_0000
}

/// Whether none of these does.
pub(crate) fn are_small(numbers: &[u64]) -> bool
    ensures { result ≡ true → (a : ℕ) → number_at numbers.now a < 2 ^ 62 }
{
    'numbers: for at in 0..numbers.len() {
        if !is_small(count_at(numbers, at)) {
            return false;
        }
    }
    true
}

/// What stands at a place, if there is something.
fn slot_at(firsts: &[u32], at: usize) -> Option<u32>
    ensures { result ≡ slice_get firsts.now at }
{
    match firsts.get(at) {
        Some(first) => Some(*first),
        None => None,
    }
}

/// The first unit of the name of a unit.
pub(crate) fn first_of(firsts: &[u32], unit: usize) -> u32
    requires { unit < length firsts.now }
    ensures { slice_get firsts.now unit ≡ Some result }
{
    match slot_at(firsts, unit) {
        Some(first) => first,
        None => unreachable!(),
    }
}

/// What stands at a place, and the place itself behind all.
fn slot_or(firsts: &[u32], automation: u32) -> u32
    ensures { result ≡ first_in firsts.now automation }
{
    match slot_at(firsts, automation as usize) {
        Some(first) => first,
        None => automation,
    }
}

/// The same, where a unit is told.
pub(crate) fn first_told(firsts: &[u32], automation: Option<u32>) -> Option<u32>
    ensures { result ≡ option_map (first_in firsts.now) automation }
{
    match automation {
        Some(automation) => Some(slot_or(firsts, automation)),
        None => None,
    }
}
