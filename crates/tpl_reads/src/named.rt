//! The entities whose ids the value of an expression may be.
ghost use Rattle.std.specs.Prelude.{◌≡◌, List, map};
ghost use Rattle.ha_value.specs.declared.value.EntityId.{EntityId as Entity};
ghost use Rattle.tpl_reads.specs.Finds.{Finds, Found};
ghost use Rattle.tpl_reads.specs.Reads as lem;
ghost use Rattle.tpl_reads.specs.Reads.{Written, all_of, both, expr_named, known_of};

use crate::found::add_value;
use ha_config::Expr;
use ha_value::{EntityId, Many};
use std::alloc::{AllocError, Global};

/// Whether the filter, by its number, gives an item of a list.
fn takes_item(name: u8) -> bool
    ensures { result ≡ lem.takes_item name }
{
    name == 10 || name == 11
}

/// Adds the entities whose ids the value of an expression may be. False where not all of them are written.
#[cycle(named)]
#[inline(never)]
pub fn add_named(expr: &Expr, alloc: Global, found: &mut Many<EntityId>) -> Result<bool, AllocError>
    ensures { Finds found.old found.new (expr_named expr.now) result }
{
    match expr {
        Expr::Plain(value) => add_value(alloc, value, found),
        Expr::Name(_) => Ok(false),
        Expr::List(_) => Ok(true),
        Expr::Field { .. } => Ok(false),
        Expr::At { base, .. } => add_listed(base.get(), alloc, found),
        Expr::Filter { name, base, .. } => {
            if takes_item(*name) {
                add_listed(base.get(), alloc, found)
            } else {
                Ok(false)
            }
        }
        Expr::Function { .. } => Ok(false),
        Expr::Negate(_) => Ok(false),
        Expr::Not(_) => Ok(false),
        Expr::IsNone { .. } => Ok(false),
        Expr::Pair { .. } => Ok(false),
        Expr::Pick { yes, no, .. } => {
            let first = add_named(yes.get(), alloc, found);
            match no {
                Some(no) => add_named_then(no.get(), alloc, found, first),
                None => first,
            }
        }
    }
}

/// Adds those of an expression behind what was found before, if all of that was written.
#[cycle(named)]
fn add_named_then(
    expr: &Expr,
    alloc: Global,
    found: &mut Many<EntityId>,
    before: Result<bool, AllocError>,
) -> Result<bool, AllocError>
    ensures { (start : List Entity) (given : Written) → Found start found.old given before → Found start found.new (both given (expr_named expr.now)) result }
{
    match before {
        Ok(true) => add_named(expr, alloc, found),
        Ok(false) => Ok(false),
        Err(fault) => Err(fault),
    }
}

/// Adds the entities whose ids an item of a list in brackets may be. False where not all of them are written, and where the expression is
/// no such list.
#[cycle(named)]
#[inline(never)]
fn add_listed(expr: &Expr, alloc: Global, found: &mut Many<EntityId>) -> Result<bool, AllocError>
    ensures { Finds found.old found.new (known_of expr.now).listed result }
{
    match expr {
        Expr::List(items) => add_each_named(items.as_slice(), alloc, found),
        Expr::Plain(_) => Ok(false),
        Expr::Name(_) => Ok(false),
        Expr::Field { .. } => Ok(false),
        Expr::At { .. } => Ok(false),
        Expr::Filter { .. } => Ok(false),
        Expr::Function { .. } => Ok(false),
        Expr::Negate(_) => Ok(false),
        Expr::Not(_) => Ok(false),
        Expr::IsNone { .. } => Ok(false),
        Expr::Pair { .. } => Ok(false),
        Expr::Pick { .. } => Ok(false),
    }
}

/// Adds those of several expressions.
#[cycle(named)]
#[inline(never)]
fn add_each_named(
    exprs: &[Expr],
    alloc: Global,
    found: &mut Many<EntityId>,
) -> Result<bool, AllocError>
    ensures { Finds found.old found.new (all_of (map expr_named exprs.now)) result }
{
    for i in 0..exprs.len() {
        match add_named(&exprs[i], alloc, found) {
            Ok(true) => {}
            Ok(false) => return Ok(false),
            Err(fault) => return Err(fault),
        }
    }
    Ok(true)
}
