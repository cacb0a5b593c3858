//! The lists that stand in an action, and the way to them.
ghost use Rattle.std.specs.Prelude.{◌≡◌, []};
ghost use Rattle.std.specs.Option.{option_copied};
ghost use Rattle.script_step.specs.Parts.{before, inner_list, inner_tests, kind_of, list_in, lists_in, part_in, tests_at, tests_in};

use crate::thread::Frame;
use ha_config::{Action, ActionKind, Condition, RepeatKind};
use ha_value::Many;

/// List `k` of an action that goes into a list.
pub fn part_in(action: &Action, k: usize) -> &[Action]
    ensures { result.now ≡ part_in (kind_of action.now) k }
{
    match &action.kind {
        ActionKind::Choose { options, fallback } => match options.get(k) {
            Some(option) => option.1.as_slice(),
            None => fallback.as_slice(),
        },
        ActionKind::If { yes, no, .. } => {
            if k == 0 {
                yes.as_slice()
            } else {
                no.as_slice()
            }
        }
        ActionKind::Repeat { body, .. } => body.as_slice(),
        ActionKind::Block(body) => body.as_slice(),
        _ => &[],
    }
}

/// The conditions of a loop.
pub fn tests_in(action: &Action) -> &[Condition]
    ensures { result.now ≡ tests_in (kind_of action.now) }
{
    match &action.kind {
        ActionKind::Repeat { kind, .. } => match kind {
            RepeatKind::While(tests) => tests.as_slice(),
            RepeatKind::Until(tests) => tests.as_slice(),
            RepeatKind::Count(_) => &[],
            RepeatKind::Each(_) => &[],
        },
        _ => &[],
    }
}

/// The lists of a parallel block.
pub fn lists_in(action: &Action) -> &[Many<Action>]
    ensures { result.now ≡ lists_in (kind_of action.now) }
{
    match &action.kind {
        ActionKind::Parallel(lists) => lists.as_slice(),
        _ => &[],
    }
}

/// The action before a place of a list.
pub fn before(list: &[Action], at: usize) -> Option<&Action>
    ensures { option_copied result ≡ before list.now at }
{
    if at == 0 { None } else { list.get(at - 1) }
}

/// The list that a frame's action before its place has entered.
pub fn inner_list<'a>(list: &'a [Action], frame: &Frame) -> &'a [Action]
    ensures { result.now ≡ inner_list list.now frame.now }
{
    match before(list, frame.at) {
        Some(action) => part_in(action, frame.inside),
        None => &[],
    }
}

/// The conditions of the loop that this is.
pub fn inner_tests<'a>(list: &'a [Action], frame: &Frame) -> &'a [Condition]
    ensures { result.now ≡ inner_tests list.now frame.now }
{
    match before(list, frame.at) {
        Some(action) => tests_in(action),
        None => &[],
    }
}

/// The list that some frames, the outermost first, lead to.
pub fn list_in<'a>(list: &'a [Action], frames: &[Frame]) -> &'a [Action]
    ensures { result.now ≡ list_in list.now frames.now }
{
    let mut inner = list;
    for frame in frames {
        inner = inner_list(inner, frame);
    }
    inner
}

/// The conditions of the loop that the last of the frames leads to.
pub fn tests_at<'a>(list: &'a [Action], frames: &[Frame]) -> &'a [Condition]
    ensures { result.now ≡ tests_at list.now [] frames.now }
{
    match frames.split_last() {
        Some((last, outer)) => inner_tests(list_in(list, outer), last),
        None => &[],
    }
}
