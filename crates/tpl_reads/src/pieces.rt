//! The entities that a template reads.
ghost use Rattle.std.specs.Prelude.{◌≡◌, List, IfOk};
ghost use Rattle.ha_value.specs.declared.value.EntityId.{EntityId as Entity};
ghost use Rattle.tpl_reads.specs.Finds.{Finds, Found};
ghost use Rattle.tpl_reads.specs.Reads as lem;
ghost use Rattle.tpl_reads.specs.Reads.{Written, all_reads, both, piece_reads};

use crate::exprs::add_expr;
use ha_config::{Piece, Template};
use ha_value::{EntityId, Many};
use std::alloc::{AllocError, Global};

/// Adds the entities that a template reads. False where not all of them are written.
#[cycle(pieces)]
fn add_template(
    template: &Template,
    alloc: Global,
    found: &mut Many<EntityId>,
) -> Result<bool, AllocError>
    ensures { Finds found.old found.new (all_reads template.now) result }
{
    let pieces = template.pieces.as_slice();
    for i in 0..pieces.len() {
        match add_piece(&pieces[i], alloc, found) {
            Ok(true) => {}
            Ok(false) => return Ok(false),
            Err(fault) => return Err(fault),
        }
    }
    Ok(true)
}

/// Adds those of a template behind what was found before, if all of that was written.
#[cycle(pieces)]
fn add_template_then(
    template: &Template,
    alloc: Global,
    found: &mut Many<EntityId>,
    before: Result<bool, AllocError>,
) -> Result<bool, AllocError>
    ensures { (start : List Entity) (given : Written) → Found start found.old given before → Found start found.new (both given (all_reads template.now)) result }
{
    match before {
        Ok(true) => add_template(template, alloc, found),
        Ok(false) => Ok(false),
        Err(fault) => Err(fault),
    }
}

#[cycle(pieces)]
fn add_piece(piece: &Piece, alloc: Global, found: &mut Many<EntityId>) -> Result<bool, AllocError>
    ensures { Finds found.old found.new (piece_reads piece.now) result }
{
    match piece {
        Piece::Text(_) => Ok(true),
        Piece::Show(expr) => add_expr(expr, alloc, found),
        Piece::Assign { value, .. } => add_expr(value, alloc, found),
        Piece::Choice { arms, fallback } => {
            let arms = arms.as_slice();
            for i in 0..arms.len() {
                let arm = &arms[i];
                let first = add_expr(&arm.0, alloc, found);
                match add_template_then(&arm.1, alloc, found, first) {
                    Ok(true) => {}
                    Ok(false) => return Ok(false),
                    Err(fault) => return Err(fault),
                }
            }
            add_template(fallback, alloc, found)
        }
    }
}

/// The entities whose states a template reads, each once, in the order of its text, where all of them are written in it. None where it reads
/// one whose id it computes, be it a variable's value. What stands in an arm, or behind an operator that may not ask for it, counts as read.
pub fn entities_read(
    alloc: Global,
    template: &Template,
) -> Result<Option<Many<EntityId>>, AllocError>
    ensures { IfOk result (λ read. read ≡ lem.entities_read template.now) }
{
    let mut found = Many::make(alloc);
    match add_template(template, alloc, &mut found) {
        Ok(true) => Ok(Some(found)),
        Ok(false) => Ok(None),
        Err(fault) => Err(fault),
    }
}
