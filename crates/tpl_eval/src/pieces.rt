//! The pieces of a template, written one after the other.
ghost use Rattle.std.specs.Prelude.{◌≡◌, ◌<◌, ◌++◌, [], ◌∷◌, length, option_and_then, option_map, position, true, IfSome};
ghost use Rattle.ha_value.specs.declared.value.Value.{Value as Datum};
ghost use Rattle.ha_value.specs.Truth.{truth};
ghost use Rattle.ha_sight.specs.Sight.{Sight};
ghost use Rattle.ha_sight.specs.Values.{printed as printed_lem};
ghost use Rattle.ha_sight.specs.Templates.{pieces_of, value_of as value_lem};
ghost use Rattle.ha_config.specs.Words.{Pairs, same};
ghost use Rattle.ha_config.specs.declared.template.Piece.TheViews.{out-Piece};
ghost use Rattle.tpl_fns.specs.Outcome.{Gives};
ghost use Rattle.tpl_eval.specs.Kinds.{is_choice};
ghost use Rattle.tpl_eval.specs.Pieces.{Alike, Chooses, piece_of, Sets, Writes};
ghost use Rattle.tpl_eval.specs.Seen.{Sees};

use crate::held::truth_of;
use crate::page::{Page, add_shown, append, kept_value};
use crate::scope::Scope;
use crate::value::value_of;
use ha_config::{Expr, Piece, Template, same_text};
use ha_sight::{Env, TplFault};
use ha_value::{Many, Plain, Value, Word};
use state_table::StateTable;
use std::alloc::Global;

/// Writes a template.
#[cycle(pieces)]
pub fn write_template(
    template: &Template,
    alloc: Global,
    states: &StateTable,
    env: &Env,
    page: &mut Page,
) -> Result<(), TplFault>
    ensures { (sight : Sight) → Sees sight states.now → Writes env.now page.old page.new (pieces_of sight template.now) result }
{
    let pieces = template.pieces.as_slice();
    for i in 0..pieces.len() {
        match write_piece(&pieces[i], alloc, states, env, page) {
            Ok(()) => {}
            Err(fault) => return Err(fault),
        }
    }
    Ok(())
}

#[cycle(pieces)]
fn write_piece(
    piece: &Piece,
    alloc: Global,
    states: &StateTable,
    env: &Env,
    page: &mut Page,
) -> Result<(), TplFault>
    ensures { (sight : Sight) → Sees sight states.now → Writes env.now page.old page.new (piece_of sight piece.now) result }
{
    match piece {
        Piece::Text(text) => append(&mut page.text, text.as_str()),
        Piece::Show(expr) => show(alloc, states, env, expr, page),
        Piece::Assign { name, value } => assign(alloc, states, env, name, value, page),
        Piece::Choice { .. } => write_choice(piece, alloc, states, env, page),
    }
}

/// Writes the first arm whose test is true, else the fallback.
#[cycle(pieces)]
fn write_choice(
    piece: &Piece,
    alloc: Global,
    states: &StateTable,
    env: &Env,
    page: &mut Page,
) -> Result<(), TplFault>
    requires { is_choice (out-Piece piece.now) ≡ true }
    ensures { (sight : Sight) → Sees sight states.now → Writes env.now page.old page.new (piece_of sight piece.now) result }
{
    let Piece::Choice { arms, fallback } = piece else {
        unreachable!()
    };
    let arms = arms.as_slice();
    match first_true(alloc, states, env, page.set.as_slice(), arms) {
        Ok(place) => {
            if place < arms.len() {
                write_template(&arms[place].1, alloc, states, env, page)
            } else {
                write_template(fallback, alloc, states, env, page)
            }
        }
        Err(fault) => Err(fault),
    }
}

/// The place of the first arm whose test is true, or how many there are.
fn first_true<'a>(
    alloc: Global,
    states: &'a StateTable,
    env: &'a Env,
    set: &'a [(Word, Value)],
    arms: &'a [(Expr, Template)],
) -> Result<usize, TplFault>
    ensures { (sight : Sight) → Sees sight states.now → (whole : Pairs) → Alike whole (env.now ++ set.now) → Chooses sight arms.now whole result }
{
    for i in 0..arms.len() {
        match holds(alloc, states, env, set, &arms[i].0) {
            Ok(true) => return Ok(i),
            Ok(false) => {}
            Err(fault) => return Err(fault),
        }
    }
    Ok(arms.len())
}

/// Whether an arm's test is true.
fn holds<'a>(
    alloc: Global,
    states: &'a StateTable,
    env: &'a Env,
    set: &'a [(Word, Value)],
    expr: &'a Expr,
) -> Result<bool, TplFault>
    ensures { (sight : Sight) → Sees sight states.now → (whole : Pairs) → Alike whole (env.now ++ set.now) → Gives result (option_map truth (value_lem sight expr.now whole)) }
{
    let scope = Scope {
        alloc,
        states,
        env,
        set,
    };
    truth_of(value_of(&scope, expr))
}

/// Writes the value of an expression.
fn show(
    alloc: Global,
    states: &StateTable,
    env: &Env,
    expr: &Expr,
    page: &mut Page,
) -> Result<(), TplFault>
    ensures { (sight : Sight) → Sees sight states.now
        → Writes env.now page.old page.new (λ whole. option_and_then (λ v. option_map (λ t. (t, whole)) (printed_lem v)) (value_lem sight expr.now whole)) result }
{
    let scope = Scope {
        alloc,
        states,
        env,
        set: page.set.as_slice(),
    };
    add_shown(&scope, &mut page.text, expr)
}

/// Sets a name, for the rest of the whole template.
fn assign(
    alloc: Global,
    states: &StateTable,
    env: &Env,
    name: &Word,
    expr: &Expr,
    page: &mut Page,
) -> Result<(), TplFault>
    ensures { (sight : Sight) → Sees sight states.now
        → Writes env.now page.old page.new (λ whole. option_map (λ v. ([], whole ++ ((name.now, v) ∷ []))) (value_lem sight expr.now whole)) result }
{
    let scope = Scope {
        alloc,
        states,
        env,
        set: page.set.as_slice(),
    };
    match kept_value(&scope, expr) {
        Ok(value) => set_name(alloc, name, value, page),
        Err(fault) => Err(fault),
    }
}

/// The place at which a name was set.
fn place_of(set: &[(Word, Value)], name: &Word) -> Option<usize>
    ensures place { result ≡ position (λ p. same p.0 name.now) set.now }
    ensures bound { IfSome result (λ at. at < length set.now) }
{
    set.iter().position(|pair| same_text(&pair.0, name))
}

/// Takes the pair of a name out, where there is one.
fn take_out(set: &mut Many<(Word, Value)>, name: &Word)
    ensures { (value : Datum) → Alike (set.new ++ ((name.now, value) ∷ [])) (set.old ++ ((name.now, value) ∷ [])) }
{
    if let Some(place) = place_of(set.as_slice(), name) {
        set.remove(place);
    }
}

/// Sets a name. What it had before goes at once, so a page has one value for each name.
fn set_name(alloc: Global, name: &Word, value: Value, page: &mut Page) -> Result<(), TplFault>
    ensures { Sets page.old page.new name.now value result }
{
    take_out(&mut page.set, name);
    match name.copy(alloc) {
        Ok(name) => match page.set.push((name, value)) {
            Ok(()) => Ok(()),
            Err(_) => Err(TplFault::Memory),
        },
        Err(_) => Err(TplFault::Memory),
    }
}
