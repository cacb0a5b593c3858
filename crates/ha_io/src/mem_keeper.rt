// A keeper in memory.
ghost use Rattle.std.specs.Prelude.{◌≡◌, ◌↔◌, ◌≤◌, Contains, IfOk, IsErrOf, OnOk, Some};
ghost use Rattle.std.specs.Option.{option_map};
ghost use Rattle.ha_io.specs.Counts.{Rose, one_more};
ghost use Rattle.ha_io.specs.MemKeeper.{after_failed_call, after_load, after_save, new_keeper};

use crate::{IoFault, Keeper};
use std::alloc::Global;
use std::marker::Model;

/// A keeper that holds a text in memory, and fails at the calls that it was told.
#[derive(Debug, Drop)]
pub struct MemKeeper {
    alloc: Global,
    kept: Option<Vec<u8>>,
    fails: Vec<u64>,
    calls: u64,
    faults: u64,
}

impl Model for MemKeeper {
    ghost use Rattle.std.specs.Option.{option_map};
    ghost use Rattle.ha_io.specs.MemKeeper.{KeeperState};

    ghost Value = { KeeperState };

    ghost view = { λ k. record { kept = option_map (λ text. text.items) k.kept; fails = k.fails.items; calls = k.calls; faults = k.faults } };
}

impl MemKeeper {
    /// `fails` lists the numbers, from 1, of the calls that fail, loads and saves counted together.
    pub fn make(alloc: Global, kept: Option<Vec<u8>>, fails: Vec<u64>) -> MemKeeper
        ensures { result ≡ new_keeper (option_map (λ text. text.items) kept) fails.items }
    {
        MemKeeper {
            alloc,
            kept,
            fails,
            calls: 0,
            faults: 0,
        }
    }

    /// The text that it holds, if any.
    pub fn text(&self) -> Option<&[u8]>
        ensures { option_map (λ text. text.now) result ≡ self.now.kept }
    {
        match &self.kept {
            None => None,
            Some(text) => Some(text.as_slice()),
        }
    }
}

impl Keeper for MemKeeper {
    ghost faults = { λ keeper. keeper.faults };

    ghost kept = { λ keeper. Some keeper.kept };

    fn load(&mut self, alloc: Global) -> Result<Option<Vec<u8>>, IoFault>
        ensures fails { IsErrOf result IoFault.Failed ↔ Contains self.old.fails (one_more self.old.calls) }
        ensures gives { IfOk result (λ found. option_map (λ bytes. bytes.items) found ≡ self.old.kept) }
        ensures ok { OnOk result (self.new ≡ after_load self.old) }
        ensures failed { IsErrOf result IoFault.Failed → self.new ≡ after_failed_call self.old }
        ensures memory { IsErrOf result IoFault.Memory → self.new ≡ self.old }
        ensures cause { IsErrOf result IoFault.Failed → Rose self.old.faults self.new.faults }
        ensures never_falls { self.old.faults ≤ self.new.faults }
    {
        let calls = self.calls.saturating_add(1);
        if self.fails.contains(&calls) {
            self.calls = calls;
            self.faults = self.faults.saturating_add(1);
            return Err(IoFault::Failed);
        }
        let found = match &self.kept {
            None => None,
            Some(text) => Some(Vec::from_slice(alloc, text)?),
        };
        self.calls = calls;
        Ok(found)
    }

    fn save(&mut self, bytes: &[u8]) -> Result<(), IoFault>
        ensures fails { IsErrOf result IoFault.Failed ↔ Contains self.old.fails (one_more self.old.calls) }
        ensures ok { OnOk result (self.new ≡ after_save self.old bytes.now) }
        ensures failed { IsErrOf result IoFault.Failed → self.new ≡ after_failed_call self.old }
        ensures memory { IsErrOf result IoFault.Memory → self.new ≡ self.old }
        ensures cause { IsErrOf result IoFault.Failed → Rose self.old.faults self.new.faults }
        ensures never_falls { self.old.faults ≤ self.new.faults }
    {
        let calls = self.calls.saturating_add(1);
        if self.fails.contains(&calls) {
            self.calls = calls;
            self.faults = self.faults.saturating_add(1);
            return Err(IoFault::Failed);
        }
        let text = Vec::from_slice(self.alloc, bytes)?;
        self.kept = Some(text);
        self.calls = calls;
        Ok(())
    }
}
