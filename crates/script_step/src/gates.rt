//! Whether a branch of a strand may step, the due of its delay, and whether it waits for a run that it called.
ghost use Rattle.std.specs.Prelude.{◌≡◌, Option, false, is_some};
ghost use Rattle.std.specs.Option.{option_map_or};
ghost use Rattle.ha_sight.specs.declared.waiting.WaitEnd.{WaitEnd};
ghost use Rattle.script_step.specs.Continuation.{asks, may_step};
ghost use Rattle.script_step.specs.Gates.{dues};

use crate::step::{is_call, side_list};
use crate::strand::{Stage, Strand};
use ha_clock::Moment;
use ha_config::Action;

/// Whether a branch of a strand may step, where its wait ended or did not.
pub fn may_step(strand: &Strand, list: &[Action], path: &[u32], now: Moment, over: bool) -> bool
    ensures { (end : Option WaitEnd) → is_some end ≡ over → result ≡ may_step strand.now list.now path.now now end }
{
    match &strand.stage {
        Stage::Ready => path.is_empty() && strand.thread.has_next(list),
        Stage::Delay(due) => path.is_empty() && *due <= now,
        Stage::Wait(_) => path.is_empty() && over,
        Stage::Sides(strands) => match path.split_first() {
            Some((first, rest)) => match strands.get(*first as usize) {
                Some(side) => may_step(
                    side,
                    side_list(&strand.thread, list, *first as usize),
                    rest,
                    now,
                    over,
                ),
                None => false,
            },
            None => false,
        },
        Stage::Ended(_) => false,
    }
}

/// The due of the delay of a branch of a strand.
pub fn due_at(strand: &Strand, path: &[u32]) -> Option<Moment>
    ensures { result ≡ dues strand.now path.now }
{
    match &strand.stage {
        Stage::Delay(due) => { if path.is_empty() { Some(*due) } else { None } }
        Stage::Sides(strands) => match path.split_first() {
            Some((first, rest)) => match strands.get(*first as usize) {
                Some(side) => due_at(side, rest),
                None => None,
            },
            None => None,
        },
        Stage::Ready => None,
        Stage::Wait(_) => None,
        Stage::Ended(_) => None,
    }
}

/// Whether a branch of a strand waits for the end of a run that it called.
pub fn calls_at(strand: &Strand, list: &[Action], path: &[u32]) -> bool
    ensures { result ≡ option_map_or (λ ask. ask.called) (asks strand.now list.now path.now) false }
{
    match &strand.stage {
        Stage::Wait(_) => {
            if path.is_empty() {
                is_call(&strand.thread, list)
            } else {
                false
            }
        }
        Stage::Sides(strands) => match path.split_first() {
            Some((first, rest)) => match strands.get(*first as usize) {
                Some(side) => calls_at(
                    side,
                    side_list(&strand.thread, list, *first as usize),
                    rest,
                ),
                None => false,
            },
            None => false,
        },
        Stage::Ready => false,
        Stage::Delay(_) => false,
        Stage::Ended(_) => false,
    }
}
