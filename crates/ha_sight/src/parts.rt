//! What several parts of the engine ask of pairs, of attributes and of templates.
ghost use Rattle.std.specs.Prelude.{◌≡◌, IfOk};
ghost use Rattle.ha_sight.specs.Conditions.{attribute_text};
ghost use Rattle.ha_sight.specs.Templates.{rendered, says};

use crate::answers::Answers;
use crate::env::Env;
use crate::faults::TplFault;
use ha_config::Template;
use ha_value::{Plain, Value, Word};
use std::alloc::{AllocError, Global};

/// The text of an attribute; a list, map or null has none.
pub fn attribute_text(alloc: Global, value: &Value) -> Result<Option<Word>, AllocError>
    ensures { IfOk result (λ text. text ≡ attribute_text value.now) }
{
    match value {
        Value::Flag(flag) => Ok(Some(Word::from_str(alloc, if *flag { "true" } else { "false" })?)),
        Value::Number(number) => Ok(Some(number.print(alloc)?)),
        Value::Text(text) => Ok(Some(text.copy(alloc)?)),
        Value::Null | Value::Items(_) | Value::Pairs(_) => Ok(None),
    }
}

/// Whether a template is true in an environment: its text is a number other than zero, or one of `true`, `yes`, `on` and
/// `enable` in any case. One that fails is not true.
pub fn true_in<A: Answers>(
    alloc: Global,
    template: &Template,
    env: &Env,
    answers: &A,
) -> Result<bool, AllocError>
    ensures { IfOk result (λ b. b ≡ says (rendered (A.sight answers.now) template.now env.now)) }
{
    match answers.render(alloc, template, env) {
        Ok(value) => Ok(value.says_yes()),
        Err(TplFault::Fault) => Ok(false),
        Err(TplFault::Memory) => Err(AllocError),
    }
}
