//! The option that is chosen, and variables that are set.
ghost use Rattle.std.specs.Prelude.{◌≡◌, None, Some, IfOk, IfErr, OnOk, option_map};
ghost use Rattle.ha_sight.specs.Scripts.{flat, set_all, set_name};
ghost use Rattle.ha_sight.specs.Templates.{data_of};
ghost use Rattle.ha_sight.specs.declared.faults.TplFault.{TplFault};
ghost use Rattle.script_step.specs.Turns.{first_holding};

use crate::fields::all_hold;
use crate::forms::{data_of, name_of};
use crate::scopes::Scopes;
use ha_config::{Action, Condition, Form};
use ha_sight::{Answers, Env, TplFault};
use ha_value::{Many, Value, Word};
use std::alloc::{AllocError, Global};

/// The first option whose conditions all hold, else their number.
pub fn first_holding<A: Answers>(
    alloc: Global,
    answers: &A,
    options: &[(Many<Condition>, Many<Action>)],
    env: &Env,
) -> Result<usize, AllocError>
    ensures { IfOk result (λ k. k ≡ first_holding (A.sight answers.now) env.now options.now) }
{
    for i in 0..options.len() {
        if all_hold(alloc, answers, options[i].0.as_slice(), env)? {
            return Ok(i);
        }
    }
    Ok(options.len())
}

/// Sets a variable to a value that was made.
fn put(alloc: Global, scopes: &mut Scopes, name: &Word, value: Value) -> Result<(), TplFault>
    ensures ok { OnOk result (scopes.new ≡ set_name (name.now, value) scopes.old) }
    ensures fault { IfErr result (λ e. e ≡ TplFault.Memory) }
{
    match name_of(alloc, name) {
        Ok(name) => match scopes.set(alloc, name, value) {
            Ok(()) => Ok(()),
            Err(_) => Err(TplFault::Memory),
        },
        Err(_) => Err(TplFault::Memory),
    }
}

/// Sets a variable to the value of a form.
fn set_one<A: Answers>(
    alloc: Global,
    scopes: &mut Scopes,
    name: &Word,
    form: &Form,
    answers: &A,
) -> Result<(), TplFault>
    ensures ok { OnOk result (option_map (λ v. set_name (name.now, v) scopes.old) (data_of (A.sight answers.now) form.now (flat scopes.old)) ≡ Some scopes.new) }
    ensures fault { IfErr result (λ e. e ≡ TplFault.Fault → data_of (A.sight answers.now) form.now (flat scopes.old) ≡ None) }
{
    match data_of(form, alloc, answers, scopes.flat()) {
        Ok(value) => put(alloc, scopes, name, value),
        Err(fault) => Err(fault),
    }
}

/// Sets variables in order. After an error some of them may be set.
pub fn set_all<A: Answers>(
    alloc: Global,
    scopes: &mut Scopes,
    pairs: &[(Word, Form)],
    answers: &A,
) -> Result<(), TplFault>
    ensures ok { OnOk result (set_all pairs.now (A.sight answers.now) scopes.old ≡ Some scopes.new) }
    ensures fault { IfErr result (λ e. e ≡ TplFault.Fault → set_all pairs.now (A.sight answers.now) scopes.old ≡ None) }
{
    for i in 0..pairs.len() {
        let pair = &pairs[i];
        match set_one(alloc, scopes, &pair.0, &pair.1, answers) {
            Ok(()) => {}
            Err(fault) => return Err(fault),
        }
    }
    Ok(())
}
