//! The runs that a caller waits for, found by the pairs of serials that are kept of them.
ghost use Rattle.std.specs.Prelude.{◌≡◌, ◌<◌, ℕ, IfSome, IsNone, OnErr, OnOk, false, length, nat_eq, true};
ghost use Rattle.wait_set.specs.Runs.{has_pair};

use std::alloc::AllocError;
use std::collections::BTreeSet;

/// The pair is listed. Takes memory for one, and after an error all is as before.
pub fn list_call(
    pairs: &mut BTreeSet<(u64, u64)>,
    caller: u64,
    called: u64,
) -> Result<(), AllocError>
    ensures here { OnOk result (has_pair pairs.new caller called ≡ true) }
    ensures others { OnOk result ((s o : ℕ) → nat_eq called o ≡ false → has_pair pairs.new s o ≡ has_pair pairs.old s o) }
    ensures apart { OnOk result ((s o : ℕ) → nat_eq caller s ≡ false → has_pair pairs.new s o ≡ has_pair pairs.old s o) }
    ensures err { OnErr result ((s o : ℕ) → has_pair pairs.new s o ≡ has_pair pairs.old s o) }
{
    pairs.insert((caller, called))?;
    Ok(())
}

/// The pair is listed no more.
pub fn unlist(pairs: &mut BTreeSet<(u64, u64)>, caller: u64, called: u64)
    ensures gone { has_pair pairs.new caller called ≡ false }
    ensures others { (s o : ℕ) → nat_eq called o ≡ false → has_pair pairs.new s o ≡ has_pair pairs.old s o }
    ensures apart { (s o : ℕ) → nat_eq caller s ≡ false → has_pair pairs.new s o ≡ has_pair pairs.old s o }
    ensures fewer { has_pair pairs.old caller called ≡ true → length pairs.new.keys < length pairs.old.keys }
{
    pairs.remove(&(caller, called));
}

/// The least run that is listed with the caller, if there is one.
pub fn next_called(pairs: &BTreeSet<(u64, u64)>, caller: u64) -> Option<u64>
    ensures some { IfSome result (λ called. has_pair pairs.now caller called ≡ true) }
    ensures none { IsNone result → (n : ℕ) → has_pair pairs.now caller n ≡ false }
{
    let Some(pair) = pairs.range((caller, 0)..).next() else {
        return None;
    };
    if pair.0 != caller {
        return None;
    }
    Some(pair.1)
}
