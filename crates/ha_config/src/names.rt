//! The names of runs and of automations, and the ids of helpers.
ghost use Rattle.std.specs.Prelude.{◌≡◌, ◌<◌, ◌++◌, codes, length, IfOk, is_some};
ghost use Rattle.std.specs.List.{list_any};
ghost use Rattle.ha_config.specs.Names.{automation_named, name_of};
ghost use Rattle.ha_config.specs.Helpers.{is_helper};
ghost use Rattle.ha_config.specs.Units.{units_of};
ghost use Rattle.ha_config.specs.Words.{same, same_entity};

use crate::config::{Automation, Config};
use crate::helper::Helper;
use crate::sameness::{same_id, same_text};
use ha_value::{EntityId, Plain, Word};
use std::alloc::{AllocError, Global};

/// The name of a script's runs, `script.NAME`.
fn script_run(alloc: Global, name: &Word) -> Result<Word, AllocError>
    ensures { IfOk result (λ made. made ≡ codes "script." ++ name.now) }
{
    let mut made = Word::with_room(alloc, name.len().saturating_add(7))?;
    made.push_str("script.")?;
    made.push_bytes(name.bytes())?;
    Ok(made)
}

/// The name that a call line of the unit's runs has.
pub fn run_name(alloc: Global, config: &Config, unit: u32) -> Result<Word, AllocError>
    requires { unit < length (units_of config.now) }
    ensures { IfOk result (λ name. name ≡ name_of (units_of config.now) unit) }
{
    let at = unit as usize;
    let automations = config.automations.as_slice();
    if at < automations.len() {
        return automations[at].name.copy(alloc);
    }
    let scripts = config.scripts.as_slice();
    script_run(alloc, &scripts[at - automations.len()].name)
}

/// Whether one of the automations has this name.
fn any_named(all: &[Automation], name: &Word) -> bool
    ensures { result ≡ list_any (λ a. same a.name name.now) all.now }
{
    all.iter().any(|a| same_text(&a.name, name))
}

/// Whether there is an automation of this name.
pub fn is_automation(all: &[Automation], name: &Word) -> bool
    ensures { result ≡ is_some (automation_named all.now name.now) }
{
    any_named(all, name)
}

/// Whether one of the helpers has this id.
fn any_of_id(all: &[Helper], entity: &EntityId) -> bool
    ensures { result ≡ list_any (λ h. same_entity h.entity entity.now) all.now }
{
    all.iter().any(|h| same_id(&h.entity, entity))
}

/// Whether there is a helper with this id.
pub fn is_helper(all: &[Helper], entity: &EntityId) -> bool
    ensures { result ≡ is_helper all.now entity.now }
{
    any_of_id(all, entity)
}
