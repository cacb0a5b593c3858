//! Whose templates an entry tests: waits are spared where nothing changes that their templates read.
use crate::home::home_of;
use ha_config::{ActionKind, Config, Template};
use ha_sight::{Env, WaitAsk};
use ha_value::{EntityId, Many, Plain};
use std::alloc::{AllocError, Global};
use wait_set::Waits;

/// The template of the only action, where that is a wait for it.
fn test_of(alloc: Global, config: &Config) -> Result<Option<Template>, AllocError> {
    let Some(rule) = config.automations.get(0) else {
        return Ok(None);
    };
    let Some(action) = rule.actions.get(0) else {
        return Ok(None);
    };
    match &action.kind {
        ActionKind::WaitUntil { test, .. } => Ok(Some(test.copy(alloc)?)),
        _ => Ok(None),
    }
}

/// The template of a wait, as the action has it.
fn template(alloc: Global, action: &str) -> Result<Option<Template>, AllocError> {
    match home_of(alloc, "[]", action)? {
        Some(home) => test_of(alloc, &home.config),
        None => Ok(None),
    }
}

/// The wait of run 1, begun at entry 3 under owner 7.
fn waits_for(alloc: Global, test: Option<Template>) -> Result<Waits, AllocError> {
    let mut waits = Waits::make(alloc);
    let ask = WaitAsk {
        serial: 1,
        branch: Many::make(alloc),
        test,
        triggers: Many::make(alloc),
        due: None,
        env: Env::none(alloc),
    };
    waits.add(alloc, ask, 7, 3)?;
    Ok(waits)
}

fn entity(alloc: Global, id: &str) -> Result<EntityId, AllocError> {
    match EntityId::read(alloc, id.as_bytes()) {
        Ok(id) => Ok(id),
        Err(_) => Err(AllocError),
    }
}

const OF_TWO: &str =
    "[{wait_template: \"{{ is_state('light.x', 'on') or state_attr('light.y', 'n') == 1 }}\"}]";

const OF_A_VARIABLE: &str = "[{wait_template: \"{{ is_state(which, 'on') }}\"}]";

const OF_NOTHING: &str = "[{wait_template: \"{{ which }}\"}]";

/// How many waits are tested where nothing changes, and where the state of `changes` does; from owner `from` on waits began behind the
/// last entry.
fn count_tested(
    alloc: Global,
    action: &str,
    from: u64,
    changes: &str,
) -> Result<(usize, usize), AllocError> {
    let waits = waits_for(alloc, template(alloc, action)?)?;
    let mut tested = waits.tested(alloc, from)?;
    let first = tested.len();
    waits.add_readers(&entity(alloc, changes)?, &mut tested)?;
    Ok((first, tested.len()))
}

#[test]
fn a_wait_is_tested_where_something_changes_that_it_reads(rt: HostRuntime) {
    let alloc = rt.alloc();
    assert!(rt; matches!(count_tested(alloc, OF_TWO, 8, "light.x"), Ok((0, 1))));
    assert!(rt; matches!(count_tested(alloc, OF_TWO, 8, "light.y"), Ok((0, 1))));
    assert!(rt; matches!(count_tested(alloc, OF_TWO, 8, "light.z"), Ok((0, 0))));
    assert!(rt; matches!(count_tested(alloc, OF_TWO, 7, "light.z"), Ok((1, 1))));
    assert!(rt; matches!(count_tested(alloc, OF_A_VARIABLE, 8, "light.z"), Ok((1, 1))));
    assert!(rt; matches!(count_tested(alloc, OF_NOTHING, 8, "light.z"), Ok((0, 0))));
}

/// How many are tested at an entry that changes what the wait of run 1 read, once that run is gone.
fn left_tested(alloc: Global) -> Result<usize, AllocError> {
    let mut waits = waits_for(alloc, template(alloc, OF_TWO)?)?;
    waits.drop_run(1);
    let mut tested = waits.tested(alloc, 0)?;
    waits.add_readers(&entity(alloc, "light.x")?, &mut tested)?;
    Ok(tested.len())
}

#[test]
fn a_wait_that_went_is_not_tested(rt: HostRuntime) {
    assert!(rt; matches!(left_tested(rt.alloc()), Ok(0)));
}
