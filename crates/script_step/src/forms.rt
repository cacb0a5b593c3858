//! The texts of templates, and the values of forms.
ghost use Rattle.std.specs.Prelude.{◌≡◌, List, Option, Some, option_map};
ghost use Rattle.ha_value.specs.declared.value.Value.{Value};
ghost use Rattle.ha_config.specs.Words.{Pairs, Text};
ghost use Rattle.ha_sight.specs.Values.{as_data};
ghost use Rattle.ha_sight.specs.Templates.{data_of, rendered};
ghost use Rattle.ha_sight.specs.Calls.{fields_of, forms_of};
ghost use Rattle.script_step.specs.Fields.{Gives, Puts};

use ha_config::{Form, Template};
use ha_sight::{Answers, Env, TplFault, as_data};
use ha_value::{Many, Plain, Value, Word};
use std::alloc::Global;

/// The rendered text of a template.
pub fn text_of<A: Answers>(
    alloc: Global,
    answers: &A,
    env: &Env,
    template: &Template,
) -> Result<Word, TplFault>
    ensures { Gives result (rendered (A.sight answers.now) template.now env.now) }
{
    match answers.render(alloc, template, env) {
        Ok(Value::Text(text)) => Ok(text),
        Ok(_) => unreachable!(),
        Err(fault) => Err(fault),
    }
}

/// A text as data.
fn read_data(alloc: Global, text: Word) -> Result<Value, TplFault>
    ensures { Gives result (Some (as_data text)) }
{
    match as_data(alloc, text) {
        Ok(value) => Ok(value),
        Err(_) => Err(TplFault::Memory),
    }
}

/// The rendered text of a template, as data.
fn data_in<A: Answers>(
    alloc: Global,
    answers: &A,
    env: &Env,
    template: &Template,
) -> Result<Value, TplFault>
    ensures { Gives result (option_map as_data (rendered (A.sight answers.now) template.now env.now)) }
{
    match text_of(alloc, answers, env, template) {
        Ok(text) => read_data(alloc, text),
        Err(fault) => Err(fault),
    }
}

/// A copy of a value.
fn copied(alloc: Global, value: &Value) -> Result<Value, TplFault>
    ensures { Gives result (Some value.now) }
{
    match value.copy(alloc) {
        Ok(value) => Ok(value),
        Err(_) => Err(TplFault::Memory),
    }
}

/// A copy of a name.
pub fn name_of(alloc: Global, name: &Word) -> Result<Word, TplFault>
    ensures { Gives result (Some name.now) }
{
    match name.copy(alloc) {
        Ok(name) => Ok(name),
        Err(_) => Err(TplFault::Memory),
    }
}

/// A list of values.
fn listed(values: Result<Many<Value>, TplFault>) -> Result<Value, TplFault>
    ensures { (given : Option (List Value)) → Gives values given → Gives result (option_map Value.Items given) }
{
    match values {
        Ok(values) => Ok(Value::Items(values)),
        Err(fault) => Err(fault),
    }
}

/// A map of named values.
fn mapped(pairs: Result<Many<(Word, Value)>, TplFault>) -> Result<Value, TplFault>
    ensures { (given : Option Pairs) → Gives pairs given → Gives result (option_map Value.Pairs given) }
{
    match pairs {
        Ok(pairs) => Ok(Value::Pairs(pairs)),
        Err(fault) => Err(fault),
    }
}

/// A named value.
fn paired(
    alloc: Global,
    name: &Word,
    value: Result<Value, TplFault>,
) -> Result<(Word, Value), TplFault>
    ensures { (given : Option Value) → Gives value given → Gives result (option_map (λ (v : Value). (name.now, v)) given) }
{
    match value {
        Ok(value) => match name_of(alloc, name) {
            Ok(name) => Ok((name, value)),
            Err(fault) => Err(fault),
        },
        Err(fault) => Err(fault),
    }
}

/// Appends what a call gave to a list.
fn add<T: Drop>(all: &mut Many<T>, item: Result<T, TplFault>) -> Result<(), TplFault>
    ensures { (given : Option T) → Gives item given → Puts all.old all.new given result }
{
    match item {
        Ok(item) => match all.push(item) {
            Ok(()) => Ok(()),
            Err(_) => Err(TplFault::Memory),
        },
        Err(fault) => Err(fault),
    }
}

/// The value of a form.
#[cycle(data)]
pub fn data_of<A: Answers>(
    form: &Form,
    alloc: Global,
    answers: &A,
    env: &Env,
) -> Result<Value, TplFault>
    ensures { Gives result (data_of (A.sight answers.now) form.now env.now) }
{
    match form {
        Form::Plain(value) => copied(alloc, value),
        Form::Text(template) => data_in(alloc, answers, env, template),
        Form::Items(forms) => listed(forms_of(forms.as_slice(), alloc, answers, env)),
        Form::Pairs(fields) => mapped(fields_of(fields.as_slice(), alloc, answers, env)),
    }
}

/// The values of forms.
#[cycle(data)]
pub fn forms_of<A: Answers>(
    forms: &[Form],
    alloc: Global,
    answers: &A,
    env: &Env,
) -> Result<Many<Value>, TplFault>
    ensures { Gives result (forms_of (A.sight answers.now) env.now forms.now) }
{
    let mut all = Many::make(alloc);
    for i in 0..forms.len() {
        match add(&mut all, data_of(&forms[i], alloc, answers, env)) {
            Ok(()) => {}
            Err(fault) => return Err(fault),
        }
    }
    Ok(all)
}

/// The values of named forms.
#[cycle(data)]
pub fn fields_of<A: Answers>(
    fields: &[(Word, Form)],
    alloc: Global,
    answers: &A,
    env: &Env,
) -> Result<Many<(Word, Value)>, TplFault>
    ensures { Gives result (fields_of (A.sight answers.now) env.now fields.now) }
{
    let mut all = Many::make(alloc);
    for i in 0..fields.len() {
        let field = &fields[i];
        match add(
            &mut all,
            paired(alloc, &field.0, data_of(&field.1, alloc, answers, env)),
        ) {
            Ok(()) => {}
            Err(fault) => return Err(fault),
        }
    }
    Ok(all)
}
