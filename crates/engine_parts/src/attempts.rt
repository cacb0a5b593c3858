//! The attempts of an entry.
ghost use Rattle.std.specs.Prelude.{◌≡◌, IfOk};
ghost use Rattle.ha_sight.specs.Conditions.{hold_all};

use ha_config::Condition;
use ha_sight::{Answers, Env};
use ha_value::Many;
use std::alloc::{AllocError, Global};

/// Whether all conditions hold.
pub fn hold_all<A: Answers>(
    alloc: Global,
    tests: &Many<Condition>,
    env: &Env,
    answers: &A,
) -> Result<bool, AllocError>
    ensures { IfOk result (λ b. b ≡ hold_all (A.sight answers.now) tests.now env.now) }
{
    let all = tests.as_slice();
    'tests: for test in all {
        match answers.test(alloc, test, env) {
            Ok(true) => {}
            Ok(false) => return Ok(false),
            Err(error) => return Err(error),
        }
    }
    Ok(true)
}
