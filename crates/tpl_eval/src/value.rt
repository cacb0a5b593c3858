//! The value of an expression.
ghost use Rattle.std.specs.Prelude.{◌≡◌, map, option_and_then, true, Option};
ghost use Rattle.ha_value.specs.declared.value.Value.{Value};
ghost use Rattle.ha_sight.specs.Sight.{Sight};
ghost use Rattle.ha_sight.specs.Templates.{all_of, value_of as value_lem};
ghost use Rattle.ha_sight.specs.Values.{bounded_items};
ghost use Rattle.ha_config.specs.declared.template.Expr.TheViews.{out-Expr};
ghost use Rattle.tpl_fns.specs.Outcome.{Gives};
ghost use Rattle.tpl_eval.specs.Held.{Leads, Yields};
ghost use Rattle.tpl_eval.specs.Kinds.{is_at, is_field, is_filter, is_pair, is_pick, is_step, makes_no_chain};
ghost use Rattle.tpl_eval.specs.Pairs.{paired};
ghost use Rattle.tpl_eval.specs.Scope.{variables};
ghost use Rattle.tpl_eval.specs.Seen.{Sees};

use crate::held::{Held, add, add_within, empty_text, made, truth_of};
use crate::pairs::{Begun, begin, operate_on};
use crate::paths::{begun, field_in, held_at_end, part_in};
use crate::scope::Scope;
use crate::sizes::most_values;
use crate::steps::{called, filter_with, inverted, negated, none_tested};
use ha_config::{Expr, Op};
use ha_sight::{Part, TplFault};
use ha_value::{Many, Value};

/// The value of an expression. A chain of operators is as deep as it is long, so what is done at one link stands in functions of its own,
/// and a link takes little of the stack.
#[cycle(value)]
#[inline(never)]
pub fn value_of<'a>(scope: &Scope<'a>, expr: &'a Expr) -> Result<Held<'a>, TplFault>
    ensures { (sight : Sight) → Sees sight scope.now.states.now → Yields result (value_lem sight expr.now (variables scope.now)) }
{
    match expr {
        Expr::Plain(value) => Ok(Held::Lent(value)),
        Expr::Name(name) => scope.value_of(name),
        Expr::List(_) => other_value(scope, expr),
        Expr::Field { .. } => step_value(scope, expr),
        Expr::At { .. } => step_value(scope, expr),
        Expr::Filter { .. } => filter_value(scope, expr),
        Expr::Function { .. } => other_value(scope, expr),
        Expr::Negate(_) => other_value(scope, expr),
        Expr::Not(_) => other_value(scope, expr),
        Expr::IsNone { .. } => other_value(scope, expr),
        Expr::Pair { .. } => pair_value(scope, expr),
        Expr::Pick { .. } => picked(scope, expr),
    }
}

/// What makes no long chains.
#[cycle(value)]
#[inline(never)]
fn other_value<'a>(scope: &Scope<'a>, expr: &'a Expr) -> Result<Held<'a>, TplFault>
    requires { makes_no_chain (out-Expr expr.now) ≡ true }
    ensures { (sight : Sight) → Sees sight scope.now.states.now → Yields result (value_lem sight expr.now (variables scope.now)) }
{
    match expr {
        Expr::List(items) => made(items_of(scope, items.as_slice())),
        Expr::Function { name, args } => called(scope, *name, values_of(scope, args.as_slice())),
        Expr::Negate(inner) => negated(value_of(scope, inner.get())),
        Expr::Not(inner) => inverted(value_of(scope, inner.get())),
        Expr::IsNone { base, holds } => none_tested(value_of(scope, base.get()), *holds),
        _ => unreachable!(),
    }
}

/// A list in brackets. It has at most 65,536 values, those inside its items counted, and more are a fault; each is counted before it is
/// copied.
#[cycle(value)]
#[inline(never)]
fn items_of<'a>(scope: &Scope<'a>, exprs: &'a [Expr]) -> Result<Value, TplFault>
    ensures { (sight : Sight) → Sees sight scope.now.states.now → Gives result (option_and_then bounded_items (all_of sight (map (value_lem sight) exprs.now) (variables scope.now))) }
{
    let mut all = Many::make(scope.alloc);
    let mut left = most_values();
    for i in 0..exprs.len() {
        match add_within(scope.alloc, &mut all, left, value_of(scope, &exprs[i])) {
            Ok(rest) => left = rest,
            Err(fault) => return Err(fault),
        }
    }
    Ok(Value::Items(all))
}

/// The values of expressions.
#[cycle(value)]
#[inline(never)]
fn values_of<'a>(scope: &Scope<'a>, exprs: &'a [Expr]) -> Result<Many<Value>, TplFault>
    ensures { (sight : Sight) → Sees sight scope.now.states.now → Gives result (all_of sight (map (value_lem sight) exprs.now) (variables scope.now)) }
{
    let mut all = Many::make(scope.alloc);
    for i in 0..exprs.len() {
        match add(scope.alloc, &mut all, value_of(scope, &exprs[i])) {
            Ok(()) => {}
            Err(fault) => return Err(fault),
        }
    }
    Ok(all)
}

/// What the last step of a path leads to.
#[cycle(value)]
#[inline(never)]
fn step_value<'a>(scope: &Scope<'a>, expr: &'a Expr) -> Result<Held<'a>, TplFault>
    requires { is_step (out-Expr expr.now) ≡ true }
    ensures { (sight : Sight) → Sees sight scope.now.states.now → Yields result (value_lem sight expr.now (variables scope.now)) }
{
    match expr {
        Expr::Field { .. } => held_at_end(scope.alloc, field_part(scope, expr)),
        Expr::At { .. } => held_at_end(scope.alloc, at_part(scope, expr)),
        _ => unreachable!(),
    }
}

/// What an expression leads to, where a step follows.
#[cycle(value)]
#[inline(never)]
fn part_of<'a>(scope: &Scope<'a>, expr: &'a Expr) -> Result<Part<'a>, TplFault>
    ensures { (sight : Sight) → Sees sight scope.now.states.now → Leads result (value_lem sight expr.now (variables scope.now)) }
{
    match expr {
        Expr::Name(name) => Ok(scope.named(name)),
        Expr::Field { .. } => field_part(scope, expr),
        Expr::At { .. } => at_part(scope, expr),
        _ => begun(value_of(scope, expr)),
    }
}

#[cycle(value)]
#[inline(never)]
fn field_part<'a>(scope: &Scope<'a>, expr: &'a Expr) -> Result<Part<'a>, TplFault>
    requires { is_field (out-Expr expr.now) ≡ true }
    ensures { (sight : Sight) → Sees sight scope.now.states.now → Leads result (value_lem sight expr.now (variables scope.now)) }
{
    let Expr::Field { base, name } = expr else {
        unreachable!()
    };
    field_in(scope.alloc, part_of(scope, base.get()), name)
}

#[cycle(value)]
#[inline(never)]
fn at_part<'a>(scope: &Scope<'a>, expr: &'a Expr) -> Result<Part<'a>, TplFault>
    requires { is_at (out-Expr expr.now) ≡ true }
    ensures { (sight : Sight) → Sees sight scope.now.states.now → Leads result (value_lem sight expr.now (variables scope.now)) }
{
    let Expr::At { base, index } = expr else {
        unreachable!()
    };
    match part_of(scope, base.get()) {
        Ok(part) => part_in(scope.alloc, part, value_of(scope, index.get())),
        Err(fault) => Err(fault),
    }
}

#[cycle(value)]
#[inline(never)]
fn filter_value<'a>(scope: &Scope<'a>, expr: &'a Expr) -> Result<Held<'a>, TplFault>
    requires { is_filter (out-Expr expr.now) ≡ true }
    ensures { (sight : Sight) → Sees sight scope.now.states.now → Yields result (value_lem sight expr.now (variables scope.now)) }
{
    let Expr::Filter { name, base, args } = expr else {
        unreachable!()
    };
    match value_of(scope, base.get()) {
        Ok(held) => filter_with(scope.alloc, *name, held, values_of(scope, args.as_slice())),
        Err(fault) => Err(fault),
    }
}

#[cycle(value)]
#[inline(never)]
fn pair_value<'a>(scope: &Scope<'a>, expr: &'a Expr) -> Result<Held<'a>, TplFault>
    requires { is_pair (out-Expr expr.now) ≡ true }
    ensures { (sight : Sight) → Sees sight scope.now.states.now → Yields result (value_lem sight expr.now (variables scope.now)) }
{
    let Expr::Pair { op, left, right } = expr else {
        unreachable!()
    };
    pair_with(right.get(), scope, *op, value_of(scope, left.get()))
}

/// A pair whose left operand is known. `and` and `or` give the operand that decides, and the right one is computed only where the left one
/// does not.
#[cycle(value)]
#[inline(never)]
fn pair_with<'a>(
    right: &'a Expr,
    scope: &Scope<'a>,
    op: Op,
    left: Result<Held<'a>, TplFault>,
) -> Result<Held<'a>, TplFault>
    ensures { (sight : Sight) (given : Option Value) → Sees sight scope.now.states.now → Yields left.entry given → Yields result (paired sight op given (value_lem sight right.now (variables scope.now))) }
{
    match begin(op, left) {
        Begun::Decided(answer) => answer,
        Begun::Passed => value_of(scope, right),
        Begun::Taken(left) => operate_on(scope.alloc, op, left, value_of(scope, right)),
    }
}

#[cycle(value)]
#[inline(never)]
fn picked<'a>(scope: &Scope<'a>, expr: &'a Expr) -> Result<Held<'a>, TplFault>
    requires { is_pick (out-Expr expr.now) ≡ true }
    ensures { (sight : Sight) → Sees sight scope.now.states.now → Yields result (value_lem sight expr.now (variables scope.now)) }
{
    let Expr::Pick { test, yes, no } = expr else {
        unreachable!()
    };
    match truth_of(value_of(scope, test.get())) {
        Ok(true) => value_of(scope, yes.get()),
        Ok(false) => match no {
            Some(no) => value_of(scope, no.get()),
            None => Ok(empty_text(scope.alloc)),
        },
        Err(fault) => Err(fault),
    }
}
