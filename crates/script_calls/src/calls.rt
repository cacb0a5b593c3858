//! The calls that wait for the runs that they started.
ghost use Rattle.std.specs.Prelude.{◌≡◌, ◌<◌, ◌≤◌, ◌+◌, ℕ, OnOk, OnErr, [], Some, None, false, is_some, length, nat_eq, true, if◌then◌else◌};
ghost use Rattle.script_calls.specs.Waiting.{AreListed, caller_in, caller_of, is_by, unless_by};
ghost use Rattle.wait_set.specs.Runs.{has_pair};

use crate::pairs::{list_call, next_called, unlist};
use ha_sight::Branch;
use std::alloc::{AllocError, Global};
use std::collections::{BTreeMap, BTreeSet};
use std::marker::Model;

/// The calls that wait, each found by the run that it waits for and by the run that makes it. Runs are told by their serials.
#[derive(Drop)]
pub struct Calls {
    callers: BTreeMap<u64, (u64, Branch)>,
    pairs: BTreeSet<(u64, u64)>,
}

impl Model for Calls {
    ghost use Rattle.script_calls.specs.Waiting.{AreListed, Waiting};

    ghost Value = { Waiting };

    ghost view = { λ c. c.callers.entries };

    ghost invariant = { λ c. AreListed c.callers c.pairs };
}

impl Calls {
    /// No calls.
    pub fn make(alloc: Global) -> Calls
        ensures { result ≡ [] }
    {
        Calls {
            callers: BTreeMap::new(alloc),
            pairs: BTreeSet::new(alloc),
        }
    }

    /// The run `caller` waits, in that branch, for the end of the run `called`, and it alone. After an error all is as before.
    pub fn begin(&mut self, caller: u64, branch: Branch, called: u64) -> Result<(), AllocError>
        ensures ok { OnOk result ((c : ℕ) → caller_of c self.new ≡ (if nat_eq called c then Some (caller, branch) else caller_of c self.old)) }
        ensures most { OnOk result (length self.new ≤ length self.old + 1) }
        ensures err { OnErr result (self.new ≡ self.old) }
    {
        list_call(&mut self.pairs, caller, called)?;
        match self.callers.insert(called, (caller, branch)) {
            Ok(former) => {
                unlist_former(&mut self.pairs, former, caller, called);
                Ok(())
            }
            Err(_) => {
                unlist(&mut self.pairs, caller, called);
                Err(AllocError)
            }
        }
    }

    /// The run has ended: gives the one that waits for it, if one does, which then waits no more. Takes no memory.
    pub fn run_ended(&mut self, called: u64) -> Option<(u64, Branch)>
        ensures caller { result ≡ caller_of called self.old }
        ensures rest { (c : ℕ) → caller_of c self.new ≡ (if nat_eq called c then None else caller_of c self.old) }
        ensures fewer { length self.new + (if is_some result then 1 else 0) ≡ length self.old }
    {
        match self.callers.remove(&called) {
            Some(caller) => {
                unlist(&mut self.pairs, caller.0, called);
                Some(caller)
            }
            None => None,
        }
    }

    /// The run waits for no other any more, in whichever branch. Takes no memory.
    pub fn drop_run(&mut self, caller: u64)
        ensures rest { (c : ℕ) → caller_of c self.new ≡ unless_by caller (caller_of c self.old) }
        ensures most { length self.new ≤ length self.old }
    {
        drop_all(&mut self.callers, &mut self.pairs, caller);
    }

    /// Nobody waits any more.
    pub fn clear(&mut self)
        ensures { self.new ≡ [] }
    {
        self.callers.clear();
        self.pairs.clear();
    }

    /// How many calls wait.
    pub fn len(&self) -> usize
        ensures { result ≡ length self.now }
    {
        self.callers.len()
    }
}

/// The caller that waited for a run before is listed with it no more, where another one waits for it now.
fn unlist_former(
    pairs: &mut BTreeSet<(u64, u64)>,
    former: Option<(u64, Branch)>,
    caller: u64,
    called: u64,
)
    ensures here { has_pair pairs.old caller called ≡ true → has_pair pairs.new caller called ≡ true }
    ensures gone { (s : ℕ) → nat_eq caller s ≡ false → has_pair pairs.old s called ≡ is_by s former → has_pair pairs.new s called ≡ false }
    ensures others { (s o : ℕ) → nat_eq called o ≡ false → has_pair pairs.new s o ≡ has_pair pairs.old s o }
{
    let Some(former) = former else {
        return;
    };
    if former.0 != caller {
        unlist(pairs, former.0, called);
    }
}

/// Takes the calls of a run out.
fn drop_all(
    callers: &mut BTreeMap<u64, (u64, Branch)>,
    pairs: &mut BTreeSet<(u64, u64)>,
    caller: u64,
)
    requires { AreListed callers.old pairs.old }
    ensures kept { AreListed callers.new pairs.new }
    ensures rest { (c : ℕ) → caller_in callers.new c ≡ unless_by caller (caller_in callers.old c) }
    ensures most { length callers.new.entries ≤ length callers.old.entries }
{
    'calls: while drop_one(callers, pairs, caller) {}
}

/// Takes a call of the run out, if one is listed, and says whether one was.
fn drop_one(
    callers: &mut BTreeMap<u64, (u64, Branch)>,
    pairs: &mut BTreeSet<(u64, u64)>,
    caller: u64,
) -> bool
    requires { AreListed callers.old pairs.old }
    ensures kept { AreListed callers.new pairs.new }
    ensures rest { (c : ℕ) → unless_by caller (caller_in callers.new c) ≡ unless_by caller (caller_in callers.old c) }
    ensures most { length callers.new.entries ≤ length callers.old.entries }
    ensures fewer { result ≡ true → length pairs.new.keys < length pairs.old.keys }
    ensures none { result ≡ false → (c : ℕ) → has_pair pairs.new caller c ≡ false }
{
    let Some(called) = next_called(pairs, caller) else {
        return false;
    };
    drop_call(callers, caller, called);
    unlist(pairs, caller, called);
    true
}

/// The run `called` is waited for no more, if it is this run that waits for it.
fn drop_call(callers: &mut BTreeMap<u64, (u64, Branch)>, caller: u64, called: u64)
    ensures change { (c : ℕ) → caller_in callers.new c ≡ (if nat_eq called c then unless_by caller (caller_in callers.old c) else caller_in callers.old c) }
    ensures most { length callers.new.entries ≤ length callers.old.entries }
{
    match callers.get(&called) {
        Some(found) if found.0 == caller => {}
        _ => return,
    }
    callers.remove(&called);
}
