//! The entities that an expression reads.
ghost use Rattle.std.specs.Prelude.{◌≡◌, List, map};
ghost use Rattle.ha_value.specs.declared.value.EntityId.{EntityId as Entity};
ghost use Rattle.tpl_reads.specs.Finds.{Finds, Found};
ghost use Rattle.tpl_reads.specs.Reads as lem;
ghost use Rattle.tpl_reads.specs.Reads.{Written, all_of, both, expr_reads, known_of, looked_up};

use crate::named::add_named;
use ha_config::Expr;
use ha_value::{EntityId, Many};
use std::alloc::{AllocError, Global};

/// Whether the function, by its number, looks at the state of the entity that its first argument names.
fn looks_up(name: u8) -> bool
    ensures { result ≡ lem.looks_up name }
{
    name == 1 || name == 2 || name == 3 || name == 4 || name == 5
}

/// Adds the entity that a function looks at, by its first argument. False where that is computed.
fn add_looked_up(
    name: u8,
    args: &[Expr],
    alloc: Global,
    found: &mut Many<EntityId>,
) -> Result<bool, AllocError>
    ensures { Finds found.old found.new (looked_up name (map known_of args.now)) result }
{
    match args {
        [] => Ok(true),
        [first, ..] => {
            if looks_up(name) {
                add_named(first, alloc, found)
            } else {
                Ok(true)
            }
        }
    }
}

/// Adds the entities that an expression reads. False where not all of them are written. A chain of operators is as deep as it is long, so a
/// link takes little of the stack.
#[cycle(exprs)]
#[inline(never)]
pub fn add_expr(expr: &Expr, alloc: Global, found: &mut Many<EntityId>) -> Result<bool, AllocError>
    ensures { Finds found.old found.new (expr_reads expr.now) result }
{
    match expr {
        Expr::Plain(_) => Ok(true),
        Expr::Name(_) => Ok(true),
        Expr::List(items) => add_exprs(items.as_slice(), alloc, found),
        Expr::Field { base, .. } => add_expr(base.get(), alloc, found),
        Expr::At { base, index } => {
            let first = add_expr(base.get(), alloc, found);
            add_expr_then(index.get(), alloc, found, first)
        }
        Expr::Filter { base, args, .. } => {
            let first = add_expr(base.get(), alloc, found);
            add_exprs_then(args.as_slice(), alloc, found, first)
        }
        Expr::Function { name, args } => {
            let first = add_looked_up(*name, args.as_slice(), alloc, found);
            add_exprs_then(args.as_slice(), alloc, found, first)
        }
        Expr::Negate(inner) => add_expr(inner.get(), alloc, found),
        Expr::Not(inner) => add_expr(inner.get(), alloc, found),
        Expr::IsNone { base, .. } => add_expr(base.get(), alloc, found),
        Expr::Pair { left, right, .. } => {
            let first = add_expr(left.get(), alloc, found);
            add_expr_then(right.get(), alloc, found, first)
        }
        Expr::Pick { test, yes, no } => {
            let first = add_expr(test.get(), alloc, found);
            let second = add_expr_then(yes.get(), alloc, found, first);
            match no {
                Some(no) => add_expr_then(no.get(), alloc, found, second),
                None => second,
            }
        }
    }
}

/// Adds those of an expression behind what was found before, if all of that was written.
#[cycle(exprs)]
fn add_expr_then(
    expr: &Expr,
    alloc: Global,
    found: &mut Many<EntityId>,
    before: Result<bool, AllocError>,
) -> Result<bool, AllocError>
    ensures { (start : List Entity) (given : Written) → Found start found.old given before → Found start found.new (both given (expr_reads expr.now)) result }
{
    match before {
        Ok(true) => add_expr(expr, alloc, found),
        Ok(false) => Ok(false),
        Err(fault) => Err(fault),
    }
}

/// Adds those of several expressions.
#[cycle(exprs)]
#[inline(never)]
fn add_exprs(exprs: &[Expr], alloc: Global, found: &mut Many<EntityId>) -> Result<bool, AllocError>
    ensures { Finds found.old found.new (all_of (map expr_reads exprs.now)) result }
{
    for i in 0..exprs.len() {
        match add_expr(&exprs[i], alloc, found) {
            Ok(true) => {}
            Ok(false) => return Ok(false),
            Err(fault) => return Err(fault),
        }
    }
    Ok(true)
}

/// The same, behind what was found before, if all of that was written.
#[cycle(exprs)]
fn add_exprs_then(
    exprs: &[Expr],
    alloc: Global,
    found: &mut Many<EntityId>,
    before: Result<bool, AllocError>,
) -> Result<bool, AllocError>
    ensures { (start : List Entity) (given : Written) → Found start found.old given before → Found start found.new (both given (all_of (map expr_reads exprs.now))) result }
{
    match before {
        Ok(true) => add_exprs(exprs, alloc, found),
        Ok(false) => Ok(false),
        Err(fault) => Err(fault),
    }
}
