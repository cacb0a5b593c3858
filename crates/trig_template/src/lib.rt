//! The rule of template triggers.
#![tactic(auto)]

ghost use Rattle.std.specs.Prelude.{◌≡◌, [], IfOk};
ghost use Rattle.ha_sight.specs.Templates.{rendered, says};

use ha_config::Template;
use ha_sight::{Answers, Env, true_in};
use std::alloc::{AllocError, Global};

/// Whether the template of a trigger is true, in the empty environment: its text is a number other than zero, or one of `true`, `yes`, `on`
/// and
/// `enable` in any case. One that fails is not true.
pub fn template_true<A: Answers>(
    alloc: Global,
    template: &Template,
    answers: &A,
) -> Result<bool, AllocError>
    ensures { IfOk result (λ b. b ≡ says (rendered (A.sight answers.now) template.now [])) }
{
    let env = Env::none(alloc);
    true_in(alloc, template, &env, answers)
}
