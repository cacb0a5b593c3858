//! A template's text.
ghost use Rattle.std.specs.Prelude.{◌≡◌, ◌≤◌, IfSome, Some, length, option_map};
ghost use Rattle.ha_value.specs.declared.value.Value.{Value};
ghost use Rattle.ha_config.specs.declared.template.Piece.{Piece as Part};
ghost use Rattle.ha_sight.specs.Sight.{Sight};
ghost use Rattle.ha_sight.specs.Templates.{rendered};
ghost use Rattle.ha_config.specs.Words.{Pairs, without_breaks as trimmed_lem};
ghost use Rattle.tpl_fns.specs.Outcome.{Gives};
ghost use Rattle.tpl_eval.specs.Seen.{Sees};

use crate::page::Page;
use crate::pieces::write_template;
use ha_config::{Piece, Template};
use ha_sight::{Env, TplFault};
use ha_value::{Many, Value, Word};
use state_table::StateTable;
use std::alloc::Global;
use tpl_fns::{TEXT_LIMIT, without_breaks, word};

/// The rendered text, without the blanks and breaks at its ends, as a `Value::Text`. Fault exactly where the template's meaning is one.
pub fn render(
    alloc: Global,
    template: &Template,
    states: &StateTable,
    env: &Env,
) -> Result<Value, TplFault>
    ensures seen { (sight : Sight) → Sees sight states.now → Gives result (option_map Value.Text (rendered sight template.now env.now)) }
{
    match text_of(alloc, template, states, env) {
        Ok(text) => Ok(Value::Text(text)),
        Err(fault) => Err(fault),
    }
}

/// The text that a piece is, where it is not too long.
fn text_in(piece: &Piece) -> Option<&Word>
    ensures piece { IfSome result (λ text. piece.now ≡ Part.Text text.now) }
    ensures short { IfSome result (λ text. length text.now ≤ 65_536) }
{
    match piece {
        Piece::Text(text) => {
            if text.len() <= TEXT_LIMIT {
                Some(text)
            } else {
                None
            }
        }
        _ => None,
    }
}

/// The text of a template that has no tag: it needs no page.
fn plain_text(template: &Template) -> Option<&Word>
    ensures { IfSome result (λ text. (sight : Sight) (env : Pairs) → rendered sight template.now env ≡ Some (trimmed_lem text.now)) }
{
    let pieces = template.pieces.as_slice();
    if pieces.len() != 1 {
        return None;
    }
    match text_in(&pieces[0]) {
        Some(text) => Some(text),
        None => None,
    }
}

fn text_of(
    alloc: Global,
    template: &Template,
    states: &StateTable,
    env: &Env,
) -> Result<Word, TplFault>
    ensures { (sight : Sight) → Sees sight states.now → Gives result (rendered sight template.now env.now) }
{
    match plain_text(template) {
        Some(text) => trimmed(alloc, text),
        None => page_text(alloc, template, states, env),
    }
}

/// The text of any template, written on a page.
fn page_text(
    alloc: Global,
    template: &Template,
    states: &StateTable,
    env: &Env,
) -> Result<Word, TplFault>
    ensures { (sight : Sight) → Sees sight states.now → Gives result (rendered sight template.now env.now) }
{
    let mut page = Page {
        text: Word::new(alloc),
        set: Many::make(alloc),
    };
    match write_template(template, alloc, states, env, &mut page) {
        Ok(()) => trimmed(alloc, &page.text),
        Err(fault) => Err(fault),
    }
}

fn trimmed(alloc: Global, text: &Word) -> Result<Word, TplFault>
    ensures { Gives result (Some (trimmed_lem text.now)) }
{
    word(alloc, without_breaks(text.as_str()))
}
