//! Triggers on a template.
ghost use Rattle.std.specs.Prelude.{IfOk, IsTrue};
ghost use Rattle.ha_config.specs.Sound.{is_sound_expr, is_sound_rule, may_hold};

use crate::home::Step::{Clock, Gone, Says};
use crate::home::{goes_at_eight, row};
use crate::triggers::{held, one};
use ha_config::{Expr, Op, Piece, Template, TriggerRule};
use ha_value::{Boxed, Many, Num, Value, Word};
use std::alloc::{AllocError, Global};

/// `states(id)|int`.
fn number_of(alloc: Global, id: &str) -> Result<Expr, AllocError>
    ensures { IfOk result (λ e. IsTrue (is_sound_expr e)) }
{
    let mut args = Many::make(alloc);
    args.push(Expr::Plain(Value::Text(Word::from_str(alloc, id)?)))?;
    let states = Expr::Function { name: 1, args };
    let base = Boxed::new(alloc, states)?;
    let args = Many::make(alloc);
    Ok(Expr::Filter {
        name: 1,
        base,
        args,
    })
}

/// `states(id)|int > 20`.
fn is_over(alloc: Global, id: &str) -> Result<Expr, AllocError>
    ensures { IfOk result (λ e. IsTrue (is_sound_expr e)) }
{
    let left = Boxed::new(alloc, number_of(alloc, id)?)?;
    let right = Boxed::new(alloc, Expr::Plain(Value::Number(Num::Whole(20))))?;
    Ok(Expr::Pair {
        op: Op::More,
        left,
        right,
    })
}

/// `{{ states(id)|int > 20 }}`.
pub fn over_twenty(alloc: Global, id: &str) -> Result<TriggerRule, AllocError>
    ensures sound { IfOk result (λ rule. IsTrue (is_sound_rule rule)) }
    ensures may { IfOk result (λ rule. IsTrue (may_hold rule)) }
{
    let mut pieces = Many::make(alloc);
    pieces.push(Piece::Show(is_over(alloc, id)?))?;
    Ok(TriggerRule::Template(Template { pieces }))
}

fn turns_true(alloc: Global) -> Result<bool, AllocError> {
    let triggers = one(alloc, over_twenty(alloc, "sensor.t")?)?;
    let rows = [
        row(Clock(1_000), &[]),
        row(Says("sensor.t", "21"), &[0]),
        row(Says("sensor.t", "22"), &[]),
        row(Says("sensor.t", "20"), &[]),
        row(Says("sensor.t", "23"), &[0]),
        row(Gone("sensor.t"), &[]),
        row(Says("sensor.t", "23"), &[0]),
    ];
    goes_at_eight(alloc, &triggers, &rows)
}

#[test]
fn a_template_fires_where_it_turns_true(rt: HostRuntime) {
    // before the first report, and once the entity is gone, it fails, and so is not true
    assert!(rt; turns_true(rt.alloc()).unwrap_or(false));
}

fn stays_true(alloc: Global) -> Result<bool, AllocError> {
    let triggers = held(alloc, over_twenty(alloc, "sensor.t")?)?;
    let rows = [
        row(Says("sensor.t", "21"), &[]),
        row(Says("sensor.t", "20"), &[]),
        row(Says("sensor.t", "22"), &[]),
        row(Clock(5_000), &[0]),
        row(Says("sensor.t", "23"), &[]),
        row(Clock(10_000), &[]),
    ];
    goes_at_eight(alloc, &triggers, &rows)
}

#[test]
fn a_template_that_stays_true_holds(rt: HostRuntime) {
    assert!(rt; stays_true(rt.alloc()).unwrap_or(false));
}
