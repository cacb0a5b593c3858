//! What is kept of one helper.
ghost use Rattle.std.specs.Prelude.{◌≡◌, ◌+◌, ◌≤◌, None, Some, IfOk, OnOk, option_map, if◌then◌else◌, codes};
ghost use Rattle.ha_clock.specs.Local.{last_moment};
ghost use Rattle.ha_sight.specs.Known.{due_of};
ghost use Rattle.ha_config.specs.Helpers.{first_text};
ghost use Rattle.ha_config.specs.Words.{same};
ghost use Rattle.helper_set.specs.Changes.{kept_with};
ghost use Rattle.helper_set.specs.Kept.{changed};
ghost use Rattle.helper_set.specs.Passes.{idled};

use ha_model::{Helper, HelperChange, HelperKind, Moment, Num, Plain, Word};
use std::alloc::{AllocError, Global};

/// A change, and Now after it.
#[derive(Drop)]
pub struct Last {
    pub change: HelperChange,
    pub at: Moment,
}

/// A helper, with its present text and its last change.
#[derive(Drop)]
pub struct Kept {
    pub helper: Helper,
    pub text: Word,
    pub last: Option<Last>,
}

/// The text of a helper at the Boot.
pub fn first_text(alloc: Global, kind: &HelperKind) -> Result<Word, AllocError>
    ensures { IfOk result (λ text. text ≡ first_text kind.now) }
{
    match kind {
        HelperKind::Flag { initial } => Ok(Word::short(alloc, if *initial { "on" } else { "off" })),
        HelperKind::Counter { initial, .. } => Num::Whole(*initial).print(alloc),
        HelperKind::Timer { .. } => Ok(Word::short(alloc, "idle")),
    }
}

/// A helper as it is at the Boot.
pub fn begun(alloc: Global, helper: &Helper) -> Result<Kept, AllocError>
    ensures { IfOk result (λ k. k ≡ record { helper = helper.now; text = first_text helper.now.kind; last = None }) }
{
    let made = helper.copy(alloc)?;
    let text = first_text(alloc, &helper.kind)?;
    Ok(Kept {
        helper: made,
        text,
        last: None,
    })
}

/// When a timer that is changed so is over: only an active one ever is.
pub fn due(change: &HelperChange, at: Moment) -> Option<Moment>
    requires { at ≤ last_moment }
    ensures { result ≡ due_of (record { change = change.now; at = at }) }
{
    if change.text.bytes() == b"active".as_slice() {
        match change.span {
            Some(span) => Some(at.plus(span)),
            None => None,
        }
    } else {
        None
    }
}

/// The helper is as the change says.
pub fn change(
    alloc: Global,
    kept: &mut Kept,
    made: &HelperChange,
    at: Moment,
) -> Result<(), AllocError>
    ensures kept { OnOk result (kept.new ≡ kept_with at (Some made.now) kept.old) }
    ensures helper { kept.new.helper ≡ kept.old.helper }
{
    let text = made.text.copy(alloc)?;
    let copied = made.copy(alloc)?;
    kept.text = text;
    kept.last = Some(Last { change: copied, at });
    Ok(())
}

/// The timer finishes.
pub fn finish(kept: &mut Kept)
    ensures { kept.new ≡ idled kept.old }
{
    kept.text.set_short("idle");
}
