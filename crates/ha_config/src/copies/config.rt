//! Copies and comparisons of configurations.

use crate::config::{Automation, Config, Mode, Script};
use ha_value::Plain;
use std::alloc::{AllocError, Global};

impl Plain for Mode {
    fn copy(&self, _alloc: Global) -> Result<Mode, AllocError> {
        Ok(*self)
    }

    fn same(&self, other: &Mode) -> bool {
        *self == *other
    }
}

impl Plain for Automation {
    fn copy(&self, alloc: Global) -> Result<Automation, AllocError> {
        Ok(Automation {
            name: self.name.copy(alloc)?,
            triggers: self.triggers.copy(alloc)?,
            tests: self.tests.copy(alloc)?,
            actions: self.actions.copy(alloc)?,
            mode: self.mode,
            max: self.max,
            initial: self.initial,
        })
    }

    fn same(&self, other: &Automation) -> bool {
        self.name.same(&other.name)
            && self.triggers.same(&other.triggers)
            && self.tests.same(&other.tests)
            && self.actions.same(&other.actions)
            && self.mode.same(&other.mode)
            && self.max == other.max
            && self.initial.same(&other.initial)
    }
}

impl Plain for Script {
    fn copy(&self, alloc: Global) -> Result<Script, AllocError> {
        Ok(Script {
            name: self.name.copy(alloc)?,
            actions: self.actions.copy(alloc)?,
            mode: self.mode,
            max: self.max,
        })
    }

    fn same(&self, other: &Script) -> bool {
        self.name.same(&other.name)
            && self.actions.same(&other.actions)
            && self.mode.same(&other.mode)
            && self.max == other.max
    }
}

impl Plain for Config {
    fn copy(&self, alloc: Global) -> Result<Config, AllocError> {
        Ok(Config {
            automations: self.automations.copy(alloc)?,
            scripts: self.scripts.copy(alloc)?,
            helpers: self.helpers.copy(alloc)?,
        })
    }

    fn same(&self, other: &Config) -> bool {
        self.automations.same(&other.automations)
            && self.scripts.same(&other.scripts)
            && self.helpers.same(&other.helpers)
    }
}
