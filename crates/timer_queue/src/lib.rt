//! Due times in order: what waits for a moment, taken out by due and then by key.
#![tactic(auto)]

ghost use Rattle.std.specs.Prelude.{◌≡◌, ◌<◌, ◌↔◌, ℕ, [], IfOk, IsNone, IsTrue, MatchOption, All, OnErr, OnOk, false, is_some, nat_eq, nat_le};
ghost use Rattle.std.specs.List.{list_any};
ghost use Rattle.std.specs.Option.{option_map_or};
ghost use Rattle.timer_queue.specs.Timers.{IsLeast, after_due, due_of, earliest, first_due, inserted, keys_due, removed};

use ha_clock::Moment;
use std::alloc::{AllocError, Global};
use std::collections::{BTreeMap, BTreeSet};
use std::marker::Model;

/// Why a timer was not taken in.
#[derive(Clone, Copy, Debug, PartialEq, Eq, Drop)]
pub enum TimerFault {
    /// Memory ran out.
    Memory,
}

/// Timers, each a due and a key of its own, seen as the list of them by due, then key.
#[derive(Drop)]
pub struct TimerQueue {
    timers: BTreeSet<(Moment, u64)>,
    dues: BTreeMap<u64, Moment>,
}

impl Model for TimerQueue {
    ghost use Rattle.std.specs.Prelude.{◌≡◌, ℕ, IsTrue, List};
    ghost use Rattle.std.specs.Ordering.{nat_cmp};
    ghost use Rattle.std.specs.BTreeMap.{get};
    ghost use Rattle.timer_queue.specs.Timers.{Timer, distinct_keys, due_of};

    ghost Value = { List Timer };

    ghost view = { λ q. q.timers.keys };

    ghost invariant = { λ q. IsTrue (distinct_keys q.timers.keys) × ((key : ℕ) → get nat_cmp q.dues key ≡ due_of key q.timers.keys) };
}

impl TimerQueue {
    /// No timers.
    pub fn make(alloc: Global) -> TimerQueue
        ensures { result ≡ [] }
    {
        TimerQueue {
            timers: BTreeSet::new(alloc),
            dues: BTreeMap::new(alloc),
        }
    }

    /// Takes a timer in, at its place. After a fault the timers are as before.
    pub fn insert(&mut self, due: Moment, key: u64) -> Result<(), TimerFault>
        requires { IsNone (due_of key self.old) }
        ensures ok { OnOk result (self.new ≡ inserted (due, key) self.old) }
        ensures err { OnErr result (self.new ≡ self.old) }
    {
        let Ok(_) = self.dues.insert(key, due) else {
            return Err(TimerFault::Memory);
        };
        match self.timers.insert((due, key)) {
            Ok(_) => Ok(()),
            Err(_) => {
                self.dues.remove(&key);
                Err(TimerFault::Memory)
            }
        }
    }

    /// Takes the key's timer out, and says whether there was one.
    pub fn remove(&mut self, key: u64) -> bool
        ensures found { result ≡ is_some (due_of key self.old) }
        ensures rest { self.new ≡ removed key self.old }
    {
        match self.dues.remove(&key) {
            Some(due) => {
                self.timers.remove(&(due, key));
                true
            }
            None => false,
        }
    }

    /// The due of the key's timer, if there is one.
    pub fn due(&self, key: u64) -> Option<Moment>
        ensures { result ≡ due_of key self.now }
    {
        self.dues.get(&key).copied()
    }

    /// The due of the first timer, if there is one.
    pub fn earliest(&self) -> Option<Moment>
        ensures first { result ≡ earliest self.now }
        ensures least { IsLeast result self.now }
    {
        match self.timers.first() {
            Some(first) => Some(first.0),
            None => None,
        }
    }

    /// Whether a timer is due at or before `now`.
    pub fn is_due(&self, now: Moment) -> bool
        ensures first { result ≡ option_map_or (λ due. nat_le due now) (earliest self.now) false }
        ensures none { result ≡ false → (key : ℕ) → MatchOption (due_of key self.now) (Unit {0}) (λ due. now < due) }
    {
        match self.earliest() {
            Some(due) => due <= now,
            None => false,
        }
    }

    /// The keys of the timers that are due at or before `now`, in their order.
    pub fn due_keys(&self, alloc: Global, now: Moment) -> Result<Vec<u64>, AllocError>
        ensures keys { IfOk result (λ keys. keys.items ≡ keys_due now self.now) }
        ensures others { IfOk result (λ keys. (key : ℕ) → list_any (nat_eq key) keys.items ≡ false
            → MatchOption (due_of key self.now) (Unit {0}) (λ due. now < due)) }
    {
        let mut keys = Vec::new(alloc);
        'timers: for timer in self.timers.iter() {
            if timer.0 > now {
                return Ok(keys);
            }
            keys.push(timer.1)?;
        }
        Ok(keys)
    }

    /// Takes the first timer out, if it is due at or before `now`, and gives its key.
    pub fn pop_due(&mut self, now: Moment) -> Option<u64>
        ensures first { result ≡ first_due now self.old }
        ensures rest { self.new ≡ after_due now self.old }
        ensures none { IsNone result ↔ All (λ t. now < t.0) self.old }
    {
        match self.timers.first() {
            Some((due, _)) if *due <= now => {}
            _ => return None,
        }
        let (_, key) = self.timers.pop_first()?;
        self.dues.remove(&key);
        Some(key)
    }
    /// Takes all timers out.
    pub fn clear(&mut self)
        ensures { self.new ≡ [] }
    {
        self.timers.clear();
        self.dues.clear();
    }
}
