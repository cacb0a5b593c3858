//! Copies and comparisons of actions, which hold lists of actions.
ghost use Rattle.std.specs.Prelude.{◌≡◌, ◌↔◌, IsTrue, IfOk};

use crate::config::{Action, ActionKind, RepeatKind};
use ha_value::{Many, Plain};
use std::alloc::{AllocError, Global};

impl Plain for RepeatKind {
    fn copy(&self, alloc: Global) -> Result<RepeatKind, AllocError> {
        match self {
            RepeatKind::Count(template) => Ok(RepeatKind::Count(template.copy(alloc)?)),
            RepeatKind::While(tests) => Ok(RepeatKind::While(tests.copy(alloc)?)),
            RepeatKind::Until(tests) => Ok(RepeatKind::Until(tests.copy(alloc)?)),
            RepeatKind::Each(forms) => Ok(RepeatKind::Each(forms.copy(alloc)?)),
        }
    }

    fn same(&self, other: &RepeatKind) -> bool {
        match self {
            RepeatKind::Count(a) => match other {
                RepeatKind::Count(b) => a.same(b),
                _ => false,
            },
            RepeatKind::While(a) => match other {
                RepeatKind::While(b) => a.same(b),
                _ => false,
            },
            RepeatKind::Until(a) => match other {
                RepeatKind::Until(b) => a.same(b),
                _ => false,
            },
            RepeatKind::Each(a) => match other {
                RepeatKind::Each(b) => a.same(b),
                _ => false,
            },
        }
    }
}

#[cycle(copy_action)]
fn copy_action(alloc: Global, action: &Action) -> Result<Action, AllocError>
    ensures { IfOk result (λ made. made ≡ action.now) }
{
    Ok(Action {
        kind: copy_kind(alloc, &action.kind)?,
    })
}

#[cycle(copy_action)]
fn copy_kind(alloc: Global, kind: &ActionKind) -> Result<ActionKind, AllocError>
    ensures { IfOk result (λ made. made ≡ kind.now) }
{
    match kind {
        ActionKind::Call {
            service,
            target,
            fields,
        } => Ok(ActionKind::Call {
            service: service.copy(alloc)?,
            target: target.copy(alloc)?,
            fields: fields.copy(alloc)?,
        }),
        ActionKind::Delay(span) => Ok(ActionKind::Delay(span.copy(alloc)?)),
        ActionKind::WaitUntil {
            test,
            timeout,
            go_on,
        } => Ok(ActionKind::WaitUntil {
            test: test.copy(alloc)?,
            timeout: timeout.copy(alloc)?,
            go_on: *go_on,
        }),
        ActionKind::WaitFor {
            triggers,
            timeout,
            go_on,
        } => Ok(ActionKind::WaitFor {
            triggers: triggers.copy(alloc)?,
            timeout: timeout.copy(alloc)?,
            go_on: *go_on,
        }),
        ActionKind::Choose { options, fallback } => {
            let items = options.as_slice();
            let mut all = Many::make(alloc);
            for i in 0..items.len() {
                let option = &items[i];
                let tests = option.0.copy(alloc)?;
                let list = option.1.as_slice();
                let mut one = Many::make(alloc);
                for j in 0..list.len() {
                    one.push(copy_action(alloc, &list[j])?)?;
                }
                all.push((tests, one))?;
            }
            Ok(ActionKind::Choose {
                options: all,
                fallback: copy_actions(alloc, fallback.as_slice())?,
            })
        }
        ActionKind::If { tests, yes, no } => Ok(ActionKind::If {
            tests: tests.copy(alloc)?,
            yes: copy_actions(alloc, yes.as_slice())?,
            no: copy_actions(alloc, no.as_slice())?,
        }),
        ActionKind::Repeat { kind, body } => Ok(ActionKind::Repeat {
            kind: kind.copy(alloc)?,
            body: copy_actions(alloc, body.as_slice())?,
        }),
        ActionKind::Parallel(lists) => Ok(ActionKind::Parallel(copy_lists(
            alloc,
            lists.as_slice(),
        )?)),
        ActionKind::Block(body) => Ok(ActionKind::Block(copy_actions(alloc, body.as_slice())?)),
        ActionKind::Set(fields) => Ok(ActionKind::Set(fields.copy(alloc)?)),
        ActionKind::Fire { event, fields } => Ok(ActionKind::Fire {
            event: event.copy(alloc)?,
            fields: fields.copy(alloc)?,
        }),
        ActionKind::Stop => Ok(ActionKind::Stop),
        ActionKind::Test(condition) => Ok(ActionKind::Test(condition.copy(alloc)?)),
    }
}

#[cycle(copy_action)]
fn copy_actions(alloc: Global, actions: &[Action]) -> Result<Many<Action>, AllocError>
    ensures { IfOk result (λ made. made ≡ actions.now) }
{
    let mut all = Many::make(alloc);
    for i in 0..actions.len() {
        all.push(copy_action(alloc, &actions[i])?)?;
    }
    Ok(all)
}

// A list in a list: the inner loop stands here, and the recursion is on an action alone.
#[cycle(copy_action)]
fn copy_lists(alloc: Global, lists: &[Many<Action>]) -> Result<Many<Many<Action>>, AllocError>
    ensures { IfOk result (λ made. made ≡ lists.now) }
{
    let mut all = Many::make(alloc);
    for i in 0..lists.len() {
        let list = lists[i].as_slice();
        let mut one = Many::make(alloc);
        for j in 0..list.len() {
            one.push(copy_action(alloc, &list[j])?)?;
        }
        all.push(one)?;
    }
    Ok(all)
}

#[cycle(same_action)]
fn same_action(left: &Action, right: &Action) -> bool
    ensures { IsTrue result ↔ (left.now ≡ right.now) }
{
    same_kind(&left.kind, &right.kind)
}

#[cycle(same_action)]
fn same_kind(left: &ActionKind, right: &ActionKind) -> bool
    ensures { IsTrue result ↔ (left.now ≡ right.now) }
{
    match left {
        ActionKind::Call {
            service,
            target,
            fields,
        } => match right {
            ActionKind::Call {
                service: other_service,
                target: other_target,
                fields: other_fields,
            } => {
                service.same(other_service)
                    && target.same(other_target)
                    && fields.same(other_fields)
            }
            _ => false,
        },
        ActionKind::Delay(a) => match right {
            ActionKind::Delay(b) => a.same(b),
            _ => false,
        },
        ActionKind::WaitUntil {
            test,
            timeout,
            go_on,
        } => match right {
            ActionKind::WaitUntil {
                test: other_test,
                timeout: other_timeout,
                go_on: other_go_on,
            } => test.same(other_test) && timeout.same(other_timeout) && *go_on == *other_go_on,
            _ => false,
        },
        ActionKind::WaitFor {
            triggers,
            timeout,
            go_on,
        } => match right {
            ActionKind::WaitFor {
                triggers: other_triggers,
                timeout: other_timeout,
                go_on: other_go_on,
            } => {
                triggers.same(other_triggers)
                    && timeout.same(other_timeout)
                    && *go_on == *other_go_on
            }
            _ => false,
        },
        ActionKind::Choose { options, fallback } => match right {
            ActionKind::Choose {
                options: other_options,
                fallback: other_fallback,
            } => {
                let left_items = options.as_slice();
                let right_items = other_options.as_slice();
                if left_items.len() != right_items.len() {
                    return false;
                }
                for i in 0..left_items.len() {
                    let x = &left_items[i];
                    let y = &right_items[i];
                    if !x.0.same(&y.0) {
                        return false;
                    }
                    let a = x.1.as_slice();
                    let b = y.1.as_slice();
                    if a.len() != b.len() {
                        return false;
                    }
                    for j in 0..a.len() {
                        if !same_action(&a[j], &b[j]) {
                            return false;
                        }
                    }
                }
                same_actions(fallback.as_slice(), other_fallback.as_slice())
            }
            _ => false,
        },
        ActionKind::If { tests, yes, no } => match right {
            ActionKind::If {
                tests: other_tests,
                yes: other_yes,
                no: other_no,
            } => {
                tests.same(other_tests)
                    && same_actions(yes.as_slice(), other_yes.as_slice())
                    && same_actions(no.as_slice(), other_no.as_slice())
            }
            _ => false,
        },
        ActionKind::Repeat { kind, body } => match right {
            ActionKind::Repeat {
                kind: other_kind,
                body: other_body,
            } => kind.same(other_kind) && same_actions(body.as_slice(), other_body.as_slice()),
            _ => false,
        },
        ActionKind::Parallel(a) => match right {
            ActionKind::Parallel(b) => same_lists(a.as_slice(), b.as_slice()),
            _ => false,
        },
        ActionKind::Block(a) => match right {
            ActionKind::Block(b) => same_actions(a.as_slice(), b.as_slice()),
            _ => false,
        },
        ActionKind::Set(a) => match right {
            ActionKind::Set(b) => a.same(b),
            _ => false,
        },
        ActionKind::Fire { event, fields } => match right {
            ActionKind::Fire {
                event: other_event,
                fields: other_fields,
            } => event.same(other_event) && fields.same(other_fields),
            _ => false,
        },
        ActionKind::Stop => matches!(right, ActionKind::Stop),
        ActionKind::Test(a) => match right {
            ActionKind::Test(b) => a.same(b),
            _ => false,
        },
    }
}

#[cycle(same_action)]
fn same_actions(left: &[Action], right: &[Action]) -> bool
    ensures { IsTrue result ↔ (left.now ≡ right.now) }
{
    if left.len() != right.len() {
        return false;
    }
    for i in 0..left.len() {
        if !same_action(&left[i], &right[i]) {
            return false;
        }
    }
    true
}

#[cycle(same_action)]
fn same_lists(left: &[Many<Action>], right: &[Many<Action>]) -> bool
    ensures { IsTrue result ↔ (left.now ≡ right.now) }
{
    if left.len() != right.len() {
        return false;
    }
    for i in 0..left.len() {
        let a = left[i].as_slice();
        let b = right[i].as_slice();
        if a.len() != b.len() {
            return false;
        }
        for j in 0..a.len() {
            if !same_action(&a[j], &b[j]) {
                return false;
            }
        }
    }
    true
}

impl Plain for Action {
    fn copy(&self, alloc: Global) -> Result<Action, AllocError> {
        copy_action(alloc, self)
    }

    fn same(&self, other: &Action) -> bool {
        same_action(self, other)
    }
}

impl Plain for ActionKind {
    fn copy(&self, alloc: Global) -> Result<ActionKind, AllocError> {
        copy_kind(alloc, self)
    }

    fn same(&self, other: &ActionKind) -> bool {
        same_kind(self, other)
    }
}
