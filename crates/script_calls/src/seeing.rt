//! A view with the scripts of its configuration, and its helpers.
ghost use Rattle.std.specs.Prelude.{◌+◌, ◌≤◌, length};
ghost use Rattle.std.proofs.Props.{props};
ghost use Rattle.helper_set.specs.Kept.{AreSeen, kept_in};
ghost use Rattle.script_calls.specs.With.{sees_with};

use cond_eval::View;
use helper_set::Helpers;

/// A view, the scripts of its configuration, and its helpers.
#[derive(Drop)]
pub struct Seeing<'a> {
    pub view: View<'a>,
    pub helpers: &'a Helpers,
    pub ghost numbered: { length view.config.now.automations + length view.config.now.scripts ≤ length view.numbers.now },
    pub ghost seen: { AreSeen (kept_in helpers.now) (sees_with view helpers.now) view.at } by { Prim.hlevel props },
}
