//! Actions of texts.
use conf_script::read_actions;
use ha_config::{Action, ActionKind, RepeatKind, SpanForm};
use ha_value::Many;
use std::alloc::Global;
use yaml_scan::YamlFault;
use yaml_tree::read_tree;

/// The actions of a text. A text of these tests is short.
fn actions(alloc: Global, text: &str) -> Result<Many<Action>, YamlFault> {
    let bytes = text.as_bytes();
    if 8_192 < bytes.len() {
        return Err(YamlFault::Memory);
    }
    let node = read_tree(alloc, bytes)?;
    read_actions(alloc, &node)
}

/// Whether the text is refused at this line with the code of this number.
fn is_refused(alloc: Global, text: &str, line: u32, code: u8) -> bool {
    match actions(alloc, text) {
        Err(YamlFault::Bad { line: at, code: by }) => at == line && by.number() == code,
        _ => false,
    }
}

/// Whether each text is refused so.
fn are_refused(alloc: Global, rows: &[(&str, u32, u8)]) -> bool {
    for row in rows {
        if !is_refused(alloc, row.0, row.1, row.2) {
            return false;
        }
    }
    true
}

/// The kind of a repeat: 71 for a count, 72 for `while`, 73 for `until`, 74 for a list; and how many conditions or items it has.
fn turns(kind: &RepeatKind) -> (u8, usize) {
    match kind {
        RepeatKind::Count(_) => (71, 0),
        RepeatKind::While(tests) => (72, tests.len()),
        RepeatKind::Until(tests) => (73, tests.len()),
        RepeatKind::Each(items) => (74, items.len()),
    }
}

/// The kind of an action, as its place in the format's table (a condition is 13, a repeat is told by its own kind), and how many parts it
/// has.
fn kind(action: &Action) -> (u8, usize) {
    match &action.kind {
        ActionKind::Call { target, .. } => (1, target.len()),
        ActionKind::Delay(_) => (2, 0),
        ActionKind::WaitUntil { .. } => (3, 0),
        ActionKind::WaitFor { triggers, .. } => (4, triggers.len()),
        ActionKind::Choose { options, .. } => (5, options.len()),
        ActionKind::If { yes, .. } => (6, yes.len()),
        ActionKind::Repeat { kind, .. } => turns(kind),
        ActionKind::Parallel(lists) => (8, lists.len()),
        ActionKind::Block(body) => (9, body.len()),
        ActionKind::Set(pairs) => (10, pairs.len()),
        ActionKind::Fire { fields, .. } => (11, fields.len()),
        ActionKind::Stop => (12, 0),
        ActionKind::Test(_) => (13, 0),
    }
}

fn are(all: &[Action], wanted: &[(u8, usize)]) -> bool {
    if all.len() != wanted.len() {
        return false;
    }
    for i in 0..all.len() {
        if kind(&all[i]) != wanted[i] {
            return false;
        }
    }
    true
}

/// Whether the actions of the text are of these kinds.
fn are_kinds(alloc: Global, text: &str, wanted: &[(u8, usize)]) -> bool {
    match actions(alloc, text) {
        Ok(all) => are(all.as_slice(), wanted),
        Err(_) => false,
    }
}

#[test]
fn each_kind_by_its_key(rt: HostRuntime) {
    let alloc = rt.alloc();
    let steps =
        "- action: light.turn_on\n- delay: 5\n- wait_template: \"{{ true }}\"\n- wait_for_trigger: {trigger: event, event_type: a}\n- choose: {conditions: [], sequence: []}\n- if: []\n  then: [{stop: x}]\n- repeat: {count: 3, sequence: []}\n";
    let others =
        "- parallel:\n- sequence:\n- variables:\n- event: ping\n- stop:\n- condition: trigger\n  id: x\n- \"{{ true }}\"\n- not: []\n  continue_on_error: yes\n- service: a.b\n";
    let kinds = [
        (8, 0),
        (9, 0),
        (10, 0),
        (11, 0),
        (12, 0),
        (13, 0),
        (13, 0),
        (13, 0),
        (1, 0),
    ];
    assert!(rt;
        are_kinds(
            alloc,
            steps,
            &[(1, 0), (2, 0), (3, 0), (4, 1), (5, 1), (6, 1), (71, 0)]
        ) && are_kinds(alloc, others, &kinds)
    );
}

#[test]
fn both_places_of_targets_are_joined(rt: HostRuntime) {
    let text =
        "action: light.turn_on\nentity_id: 'light.b, light.c'\ntarget: {entity_id: [light.a, \"{{ x }}\"]}\ndata: {brightness: 10, way: [1, two]}\nmetadata: {any: thing}\n";
    assert!(rt; are_kinds(rt.alloc(), text, &[(1, 4)]));
}

#[test]
fn the_four_kinds_of_repeats(rt: HostRuntime) {
    let text =
        "- repeat: {count: 3, sequence: []}\n- repeat: {while: [], sequence: []}\n- repeat: {until: \"{{ x }}\", sequence: []}\n- repeat: {for_each: [1, a], sequence: {stop: x}}\n";
    assert!(rt; are_kinds(rt.alloc(), text, &[(71, 0), (72, 0), (73, 1), (74, 2)]));
}

/// Whether the action is a wait that goes on after a timeout or does not, with a timeout of so many parts, 0 where it has none.
fn is_wait(action: Option<&Action>, goes_on: bool, parts: usize) -> bool {
    match action {
        Some(action) => match &action.kind {
            ActionKind::WaitUntil { timeout, go_on, .. } => {
                *go_on == goes_on && counted(timeout) == parts
            }
            ActionKind::WaitFor { timeout, go_on, .. } => {
                *go_on == goes_on && counted(timeout) == parts
            }
            _ => false,
        },
        None => false,
    }
}

fn counted(timeout: &Option<SpanForm>) -> usize {
    match timeout {
        Some(SpanForm::Known(_)) => 1,
        Some(SpanForm::Text(_)) => 2,
        Some(SpanForm::Parts(parts)) => parts.len(),
        None => 0,
    }
}

fn are_waits(alloc: Global, text: &str) -> bool {
    match actions(alloc, text) {
        Ok(all) => {
            is_wait(all.get(0), true, 0)
                && is_wait(all.get(1), false, 5)
                && is_wait(all.get(2), true, 1)
        }
        Err(_) => false,
    }
}

#[test]
fn a_wait_goes_on_unless_it_says_otherwise(rt: HostRuntime) {
    let text =
        "- wait_template: \"{{ true }}\"\n- wait_for_trigger: []\n  timeout: {minutes: \"{{ 2 }}\"}\n  continue_on_timeout: false\n- wait_for_trigger: []\n  timeout: '00:01:30'\n  continue_on_timeout: true\n";
    assert!(rt; are_waits(rt.alloc(), text));
}

/// Whether the first action is a block of three lists, of no action, of one and of two.
fn has_lists(all: &Many<Action>) -> bool {
    match all.get(0) {
        Some(action) => match &action.kind {
            ActionKind::Parallel(lists) => {
                lists.len() == 3
                    && is_long(lists.get(0), 0)
                    && is_long(lists.get(1), 1)
                    && is_long(lists.get(2), 2)
            }
            _ => false,
        },
        None => false,
    }
}

fn is_long(list: Option<&Many<Action>>, many: usize) -> bool {
    match list {
        Some(list) => list.len() == many,
        None => false,
    }
}

fn are_lists(alloc: Global, text: &str) -> bool {
    match actions(alloc, text) {
        Ok(all) => has_lists(&all),
        Err(_) => false,
    }
}

#[test]
fn a_disabled_branch_is_left_out_and_an_empty_list_is_one(rt: HostRuntime) {
    let text =
        "parallel:\n- [{stop: x, enabled: no}]\n- {stop: x, enabled: no}\n- {stop: x}\n- [{stop: x}, {stop: y}]\n";
    assert!(rt; are_lists(rt.alloc(), text));
}

#[test]
fn null_is_no_action_but_no_item(rt: HostRuntime) {
    let alloc = rt.alloc();
    let rows = [
        ("- stop:\n-\n", 2, 7),
        ("- delay: x\n  enabled: no\n", 1, 9),
    ];
    assert!(rt;
        are_kinds(alloc, "null\n", &[])
            && are_kinds(alloc, "- delay: 5\n  enabled: no\n- stop:\n", &[(12, 0)])
            && are_refused(alloc, &rows)
    );
}

#[test]
fn faults_of_kind_keys(rt: HostRuntime) {
    let rows = [
        ("- delay: 5\n  stop:\n", 2, 5),
        ("- action: a.b\n  service: c.d\n", 2, 4),
        ("- x: 1\n", 1, 14),
        ("- and: []\n  delay: 5\n", 2, 5),
        ("- condition: sun\n  after: x\n", 1, 14),
        ("- scene: scene.evening\n", 1, 14),
        ("- action: a.b\n  response_variable: x\n", 2, 5),
    ];
    assert!(rt; are_refused(rt.alloc(), &rows));
}

#[test]
fn faults_of_calls(rt: HostRuntime) {
    let alloc = rt.alloc();
    let rows = [
        ("- action: light\n", 1, 8),
        ("- action: [a.b]\n", 1, 7),
        ("- action: a.b\n  target:\n", 2, 7),
        ("- action: a.b\n  entity_id: 'c.d,'\n", 2, 8),
        ("- action: a.b\n  target:\n    area_id: hall\n", 3, 5),
        ("- action: a.b\n  target: {entity_id: [c.d, {}]}\n", 2, 7),
        ("- action: a.b\n  data: [x]\n", 2, 7),
        ("- action: a.b\n  data: {x: 1000000000001}\n", 2, 10),
        ("- action: a.b\n  data: {x: \"{{ a.upper() }}\"}\n", 2, 11),
    ];
    assert!(rt;
        are_refused(alloc, &rows)
            && are_kinds(
                alloc,
                "- action: a.b\n  target: {}\n  entity_id: []\n",
                &[(1, 0)]
            )
    );
}

#[test]
fn faults_of_delays(rt: HostRuntime) {
    let rows = [
        ("- delay: {}\n", 1, 9),
        ("- delay: {years: 1}\n", 1, 5),
        ("- delay: {hours: x}\n", 1, 10),
        ("- delay: {minutes: '{{ 1 }}', seconds: x}\n", 1, 10),
        ("- delay:\n", 1, 9),
        ("- delay: 31622401\n", 1, 9),
    ];
    assert!(rt; are_refused(rt.alloc(), &rows));
}

#[test]
fn faults_of_choices_and_repeats(rt: HostRuntime) {
    let rows = [
        ("- choose:\n", 1, 7),
        ("- choose: {conditions: []}\n", 1, 6),
        ("- if: []\n", 1, 6),
        ("- repeat: {sequence: []}\n", 1, 6),
        ("- repeat: {count: 1, while: [], sequence: []}\n", 1, 5),
        ("- repeat: {count: x, sequence: []}\n", 1, 10),
        ("- repeat:\n    count: 2\n", 2, 6),
        ("- repeat: {for_each: \"{{ x }}\", sequence: []}\n", 1, 7),
    ];
    assert!(rt; are_refused(rt.alloc(), &rows));
}

#[test]
fn the_least_line_and_then_the_least_code(rt: HostRuntime) {
    let rows = [
        ("- stop:\n  bogus: 1\n- delay: x\n", 2, 5),
        ("- if: []\n  then: [{delay: x}]\n  else: {bogus: 1}\n", 2, 9),
        ("- {delay: x, enabled: maybe}\n", 1, 7),
        ("- '{{ now() }}'\n", 1, 11),
        ("- delay: 5\n  enabled: maybe\n- bogus: 1\n", 2, 7),
    ];
    assert!(rt; are_refused(rt.alloc(), &rows));
}
