//! The item of a call, and conditions.
ghost use Rattle.std.specs.Prelude.{◌≡◌, IfOk, ok_or};
ghost use Rattle.ha_sight.specs.Conditions.{hold_all};
ghost use Rattle.ha_sight.specs.Calls.{call_item, checked_call, done_by, fields_of, item_of, template_fault};
ghost use Rattle.ha_sight.specs.Inner.{inner_of};
ghost use Rattle.script_step.specs.Fields.{Checks};

use crate::fault::FieldFault;
use crate::forms::fields_of;
use crate::own::item_of;
use crate::targets::{service_of, targets_of};
use ha_config::{Condition, Form, Template};
use ha_sight::{Answers, Env, Inner, Item, TplFault};
use ha_value::{EntityId, Many, Value, Word};
use std::alloc::{AllocError, Global};

/// The values of a call's data.
fn data_for<A: Answers>(
    alloc: Global,
    answers: &A,
    env: &Env,
    fields: &[(Word, Form)],
) -> Result<Many<(Word, Value)>, FieldFault>
    ensures { Checks result (ok_or (fields_of (A.sight answers.now) env.now fields.now) template_fault) }
{
    match fields_of(fields, alloc, answers, env) {
        Ok(pairs) => Ok(pairs),
        Err(TplFault::Fault) => Err(FieldFault::Template),
        Err(TplFault::Memory) => Err(FieldFault::Memory),
    }
}

/// What the core does itself, else the item of the call.
fn done_by<A: Answers>(
    alloc: Global,
    answers: &A,
    service: Word,
    targets: Many<EntityId>,
    pairs: Many<(Word, Value)>,
) -> Result<Item, FieldFault>
    ensures { Checks result (done_by (inner_of (A.sight answers.now) service targets pairs) (item_of (A.sight answers.now).automations service targets pairs)) }
{
    match answers.inner(alloc, &service, &targets, &pairs) {
        Ok(Inner::Outer) => match item_of(alloc, answers, service, targets, pairs) {
            Ok(item) => Ok(item),
            Err(_) => Err(FieldFault::Memory),
        },
        Ok(Inner::Does(item)) => Ok(item),
        Ok(Inner::Fails(code)) => Err(FieldFault::Own(code)),
        Err(_) => Err(FieldFault::Memory),
    }
}

/// The item that a call gives.
fn checked_call<A: Answers>(
    alloc: Global,
    answers: &A,
    env: &Env,
    service: &Template,
    target: &[Template],
    fields: &[(Word, Form)],
) -> Result<Item, FieldFault>
    ensures { Checks result (checked_call (A.sight answers.now) env.now service.now target.now fields.now) }
{
    let name = match service_of(alloc, answers, env, service) {
        Ok(name) => name,
        Err(fault) => return Err(fault),
    };
    let targets = match targets_of(alloc, answers, env, target) {
        Ok(targets) => targets,
        Err(fault) => return Err(fault),
    };
    match data_for(alloc, answers, env, fields) {
        Ok(pairs) => done_by(alloc, answers, name, targets, pairs),
        Err(fault) => Err(fault),
    }
}

/// The item that a call gives, also where one of its fields fails.
pub fn call_item<A: Answers>(
    alloc: Global,
    answers: &A,
    env: &Env,
    service: &Template,
    target: &[Template],
    fields: &[(Word, Form)],
) -> Result<Item, AllocError>
    ensures { IfOk result (λ item. item ≡ call_item (A.sight answers.now) env.now service.now target.now fields.now) }
{
    match checked_call(alloc, answers, env, service, target, fields) {
        Ok(item) => Ok(item),
        Err(fault) => {
            let code = fault.code()?;
            Ok(Item::Failed(code))
        }
    }
}

/// Whether all conditions hold.
pub fn all_hold<A: Answers>(
    alloc: Global,
    answers: &A,
    tests: &[Condition],
    env: &Env,
) -> Result<bool, AllocError>
    ensures { IfOk result (λ b. b ≡ hold_all (A.sight answers.now) tests.now env.now) }
{
    for i in 0..tests.len() {
        if !answers.test(alloc, &tests[i], env)? {
            return Ok(false);
        }
    }
    Ok(true)
}
