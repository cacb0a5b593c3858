//! The waits of a run, found by the pairs of serials and owners that are kept of them.
ghost use Rattle.std.specs.Option.{option_copied};
ghost use Rattle.std.specs.Prelude.{OnOk, ◌≡◌, ◌≤◌, ◌<◌, ◌∷◌, [], ℕ, All, IfSome, MatchOption, IsNone, true, false, drop, length, nat_eq, slice_index_or, slice_set};
ghost use Rattle.wait_set.specs.declared.asked.Asked.{Asked as Wait};
ghost use Rattle.wait_set.specs.Asked.{finished, owners_of, wait_of, with_end};
ghost use Rattle.wait_set.specs.Concern.{Ascend};
ghost use Rattle.wait_set.specs.Runs.{HasNone, IsOfRun, IsPaired, has_pair};

use crate::asked::{Asked, is_of};
use crate::concern::place_of;
use ha_sight::Branch;
use std::alloc::AllocError;
use std::collections::BTreeSet;

/// The owner of a wait is listed with its run. Takes memory for one pair.
pub fn list_run(runs: &mut BTreeSet<(u64, u64)>, serial: u64, owner: u64) -> Result<(), AllocError>
    ensures here { OnOk result (has_pair runs.new serial owner ≡ true) }
    ensures kept { (s o : ℕ) → has_pair runs.old s o ≡ true → has_pair runs.new s o ≡ true }
{
    runs.insert((serial, owner))?;
    Ok(())
}

/// The owner is listed with the run no more.
pub fn unlist(runs: &mut BTreeSet<(u64, u64)>, serial: u64, owner: u64)
    ensures gone { has_pair runs.new serial owner ≡ false }
    ensures others { (s o : ℕ) → nat_eq owner o ≡ false → has_pair runs.new s o ≡ has_pair runs.old s o }
{
    runs.remove(&(serial, owner));
}

/// The least owner from `low` on that is listed with the run, if there is one.
fn next_owner(runs: &BTreeSet<(u64, u64)>, serial: u64, low: u64) -> Option<u64>
    ensures { (n : ℕ) → low ≤ n → MatchOption result (Unit {0}) (λ o. n < o) → has_pair runs.now serial n ≡ false }
{
    let Some(pair) = runs.range((serial, low)..).next() else {
        return None;
    };
    if pair.0 != serial {
        return None;
    }
    Some(pair.1)
}

/// The owner of the wait at a place.
pub fn owner_in(asks: &[Asked], at: usize) -> u64
    requires { at < length asks.now }
    ensures { (d : Wait) → result ≡ (slice_index_or asks.now at d).owner }
{
    asks[at].owner
}

/// The place of the owner's wait, if it is one of the run, from a place on.
fn place_in(asks: &[Asked], owner: u64, serial: u64, from: usize) -> Option<usize>
    requires { Ascend asks.now }
    ensures there { IfSome result (λ place. (from ≤ place) × (place < length asks.now)) }
    ensures of_run { IfSome result (λ place. IsOfRun asks.now serial place) }
    ensures owned { IfSome result (λ place. (d : Wait) → (slice_index_or asks.now place d).owner ≡ owner) }
    ensures none { IsNone result → (n : ℕ) (d : Wait) → from ≤ n → n < length asks.now → (slice_index_or asks.now n d).owner ≡ owner
        → nat_eq (slice_index_or asks.now n d).ask.serial serial ≡ false }
{
    let place = place_of(asks, owner)?;
    if place < from || asks[place].ask.serial != serial {
        return None;
    }
    Some(place)
}

/// The place of a run's first wait from a place on, found one after the other; all are passed where there is none.
fn walk(asks: &[Asked], serial: u64, from: usize) -> usize
    requires { from ≤ length asks.now }
    ensures fits { (from ≤ result) × (result ≤ length asks.now) }
    ensures of_run { IsOfRun asks.now serial result }
    ensures skipped { HasNone asks.now serial from result }
{
    let mut at = from;
    'asks: while at < asks.len() {
        if asks[at].ask.serial == serial {
            return at;
        }
        at += 1;
    }
    at
}

/// The same by the pairs, where the owners ascend.
fn seek(asks: &[Asked], runs: &BTreeSet<(u64, u64)>, serial: u64, from: usize) -> usize
    requires fits { from < length asks.now }
    requires paired { All (IsPaired runs.now) asks.now }
    requires order { Ascend asks.now }
    ensures fits { (from ≤ result) × (result ≤ length asks.now) }
    ensures of_run { IsOfRun asks.now serial result }
    ensures skipped { HasNone asks.now serial from result }
{
    let mut low = owner_in(asks, from);
    'pairs: for _ in 0..runs.len() {
        let Some(owner) = next_owner(runs, serial, low) else {
            return asks.len();
        };
        if let Some(place) = place_in(asks, owner, serial, from) {
            return place;
        }
        low = owner.saturating_add(1);
    }
    walk(asks, serial, from)
}

/// The place of a run's first wait from a place on; all are passed where there is none.
pub fn next_place(
    asks: &[Asked],
    runs: &BTreeSet<(u64, u64)>,
    ordered: bool,
    serial: u64,
    from: usize,
) -> usize
    requires fits { from ≤ length asks.now }
    requires paired { All (IsPaired runs.now) asks.now }
    requires order { ordered ≡ true → Ascend asks.now }
    ensures fits { (from ≤ result) × (result ≤ length asks.now) }
    ensures of_run { IsOfRun asks.now serial result }
    ensures skipped { HasNone asks.now serial from result }
{
    if !ordered || from >= asks.len() {
        return walk(asks, serial, from);
    }
    seek(asks, runs, serial, from)
}

/// The owner of a run's first wait from a place on, and the place behind that wait.
pub fn owner_from(
    asks: &[Asked],
    runs: &BTreeSet<(u64, u64)>,
    ordered: bool,
    serial: u64,
    from: usize,
) -> Option<(u64, usize)>
    requires paired { All (IsPaired runs.now) asks.now }
    requires order { ordered ≡ true → Ascend asks.now }
    ensures first { IfSome result (λ found. owners_of serial (drop from asks.now) ≡ found.0 ∷ owners_of serial (drop found.1 asks.now)) }
    ensures behind { IfSome result (λ found. (from < found.1) × (found.1 ≤ length asks.now)) }
    ensures none { IsNone result → owners_of serial (drop from asks.now) ≡ [] }
{
    if from >= asks.len() {
        return None;
    }
    let place = next_place(asks, runs, ordered, serial, from);
    if place >= asks.len() {
        return None;
    }
    Some((owner_in(asks, place), place + 1))
}

/// The wait of a run in a branch, looked for among the run's own.
pub fn ask_of<'a>(
    asks: &'a [Asked],
    runs: &BTreeSet<(u64, u64)>,
    ordered: bool,
    serial: u64,
    branch: &Branch,
) -> Option<&'a Asked>
    requires paired { All (IsPaired runs.now) asks.now }
    requires order { ordered ≡ true → Ascend asks.now }
    ensures { option_copied result ≡ wait_of serial branch.now asks.now }
{
    let mut place = next_place(asks, runs, ordered, serial, 0);
    'asks: while place < asks.len() {
        let asked = &asks[place];
        if is_of(asked, serial, branch) {
            return Some(asked);
        }
        place = next_place(asks, runs, ordered, serial, place + 1);
    }
    None
}

/// The place of the first wait of a run in a branch, looked for among the run's own; all are passed where there is none.
pub fn place_in_branch(
    asks: &[Asked],
    runs: &BTreeSet<(u64, u64)>,
    ordered: bool,
    serial: u64,
    branch: &Branch,
) -> usize
    requires paired { All (IsPaired runs.now) asks.now }
    requires order { ordered ≡ true → Ascend asks.now }
    ensures here { result < length asks.now → (p : ℕ) (x : Wait) → x ≡ slice_index_or asks.now result x
        → finished serial branch.now p asks.now ≡ slice_set asks.now result (with_end p x) }
    ensures none { length asks.now ≤ result → (p : ℕ) → finished serial branch.now p asks.now ≡ asks.now }
{
    let mut place = next_place(asks, runs, ordered, serial, 0);
    'asks: while place < asks.len() {
        if is_of(&asks[place], serial, branch) {
            return place;
        }
        place = next_place(asks, runs, ordered, serial, place + 1);
    }
    place
}
