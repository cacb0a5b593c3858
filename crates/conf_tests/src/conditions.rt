//! Conditions of texts.
use conf_cond::read_conditions;
use ha_config::Condition;
use ha_value::{Many, Num};
use std::alloc::Global;
use yaml_scan::YamlFault;
use yaml_tree::read_tree;

/// The conditions of a text. A text of these tests is short.
fn conditions(alloc: Global, text: &str) -> Result<Many<Condition>, YamlFault> {
    let bytes = text.as_bytes();
    if 8_192 < bytes.len() {
        return Err(YamlFault::Memory);
    }
    let node = read_tree(alloc, bytes)?;
    read_conditions(alloc, &node)
}

/// Whether the text is refused at this line with the code of this number.
fn is_refused(alloc: Global, text: &str, line: u32, code: u8) -> bool {
    match conditions(alloc, text) {
        Err(YamlFault::Bad { line: at, code: by }) => at == line && by.number() == code,
        _ => false,
    }
}

/// Whether each text is refused so.
fn are_refused(alloc: Global, rows: &[(&str, u32, u8)]) -> bool {
    for row in rows {
        if !is_refused(alloc, row.0, row.1, row.2) {
            return false;
        }
    }
    true
}

/// The kind of a condition, as its place in the format's table, and of one that holds others how many.
fn kind(condition: &Condition) -> (u8, usize) {
    match condition {
        Condition::And(inside) => (1, inside.len()),
        Condition::Or(inside) => (2, inside.len()),
        Condition::Not(inside) => (3, inside.len()),
        Condition::State { texts, .. } => (4, texts.len()),
        Condition::Numeric { entities, .. } => (5, entities.len()),
        Condition::Template(_) => (6, 0),
        Condition::Time { .. } => (7, 0),
        Condition::Trigger(ids) => (8, ids.len()),
    }
}

fn are(all: &[Condition], wanted: &[(u8, usize)]) -> bool {
    if all.len() != wanted.len() {
        return false;
    }
    for i in 0..all.len() {
        if kind(&all[i]) != wanted[i] {
            return false;
        }
    }
    true
}

/// Whether the conditions of the text are of these kinds.
fn are_kinds(alloc: Global, text: &str, wanted: &[(u8, usize)]) -> bool {
    match conditions(alloc, text) {
        Ok(all) => are(all.as_slice(), wanted),
        Err(_) => false,
    }
}

#[test]
fn each_kind_by_its_name(rt: HostRuntime) {
    let text =
        "- {condition: and, conditions: []}\n- condition: or\n  conditions: \"{{ true }}\"\n- {condition: not, conditions: [\"{{ true }}\", \"{{ x }}\"]}\n- condition: state\n  entity_id: light.hall\n  state: [on, off]\n  for: 5\n- condition: numeric_state\n  entity_id: sensor.a, sensor.b\n  above: 1\n- condition: template\n  value_template: \"{{ true }}\"\n- condition: time\n  after: '22:00'\n- condition: trigger\n  id: [a, b]\n";
    let kinds = [
        (1, 0),
        (2, 1),
        (3, 2),
        (4, 2),
        (5, 2),
        (6, 0),
        (7, 0),
        (8, 2),
    ];
    assert!(rt; are_kinds(rt.alloc(), text, &kinds));
}

#[test]
fn short_forms_and_what_is_left_out(rt: HostRuntime) {
    let alloc = rt.alloc();
    let short =
        "- and: []\n- or:\n    - \"{{ true }}\"\n    - \"{{ x }}\"\n- not: \"{{ x }}\"\n  alias: None of it\n- \"{{ x }}\"\n";
    let left =
        "- condition: trigger\n  id: a\n  enabled: off\n- and:\n    - condition: trigger\n      id: a\n      enabled: 'False'\n";
    assert!(rt;
        are_kinds(alloc, short, &[(1, 0), (2, 2), (3, 1), (6, 0)])
            && are_kinds(alloc, left, &[(1, 0)])
            && are_kinds(alloc, "~\n", &[])
            && are_kinds(alloc, "\"{{ x }}\"\n", &[(6, 0)])
    );
}

/// Whether the first condition is a window of these seconds on so many days, 0 where none are given.
fn is_window(all: &Many<Condition>, from: Option<u32>, till: Option<u32>, days: usize) -> bool {
    match all.get(0) {
        Some(
            Condition::Time {
                after,
                before,
                weekdays,
            },
        ) => {
            *after == from
                && *before == till
                && match weekdays {
                    Some(found) => found.len() == days,
                    None => days == 0,
                }
        }
        _ => false,
    }
}

fn is_one_window(
    alloc: Global,
    text: &str,
    from: Option<u32>,
    till: Option<u32>,
    days: usize,
) -> bool {
    match conditions(alloc, text) {
        Ok(all) => is_window(&all, from, till, days),
        Err(_) => false,
    }
}

#[test]
fn times_of_a_window(rt: HostRuntime) {
    let alloc = rt.alloc();
    let text = "condition: time\nafter: '7:05'\nbefore: '22:00:01'\nweekday: [mon, sun]\n";
    assert!(rt;
        is_one_window(alloc, text, Some(25_500), Some(79_201), 2)
            && is_one_window(alloc, "condition: time\nweekday: tue\n", None, None, 1)
    );
}

/// Whether the first condition has this upper bound, and no lower one.
fn is_below(all: &Many<Condition>, bound: Num) -> bool {
    match all.get(0) {
        Some(Condition::Numeric { above, below, .. }) => above.is_none() && *below == Some(bound),
        _ => false,
    }
}

fn has_upper(alloc: Global, text: &str, bound: Num) -> bool {
    match conditions(alloc, text) {
        Ok(all) => is_below(&all, bound),
        Err(_) => false,
    }
}

#[test]
fn a_bound_is_a_number_in_quotes_or_not(rt: HostRuntime) {
    let alloc = rt.alloc();
    let quoted = "condition: numeric_state\nentity_id: sensor.t\nbelow: '-1.5'\n";
    let plain = "condition: numeric_state\nentity_id: sensor.t\nbelow: 20\n";
    assert!(rt;
        has_upper(alloc, quoted, Num::Fixed(-1_500_000)) && has_upper(alloc, plain, Num::Whole(20))
    );
}

#[test]
fn faults_of_conditions(rt: HostRuntime) {
    let rows = [
        ("- condition: sun\n  after: sunset\n", 1, 14),
        ("- alias: x\n", 1, 14),
        ("- condition: and\n  conditions: []\n  or: []\n", 3, 5),
        ("- condition: and\n", 1, 6),
        ("- condition: state\n  entity_id: light.hall\n", 1, 6),
        (
            "- condition: state\n  entity_id: light.hall\n  state: on\n  match: any\n",
            4,
            5,
        ),
        ("- condition: numeric_state\n  entity_id: sensor.t\n", 1, 6),
        ("- condition: time\n", 1, 6),
        ("- condition: time\n  weekday: [mon, monday]\n", 2, 14),
        ("- condition: time\n  after: '24:00'\n", 2, 9),
        ("- condition: state\n  entity_id: Hall\n  state:\n", 2, 8),
        (
            "- condition: state\n  entity_id: light.hall\n  state:\n",
            3,
            7,
        ),
        ("- - condition: and\n", 1, 7),
        ("- \n", 1, 7),
        ("- \"{{ now() }}\"\n", 1, 11),
        (
            "- condition: template\n  value_template: \"{{ x }}\"\n  continue_on_error: true\n",
            3,
            5,
        ),
    ];
    assert!(rt; are_refused(rt.alloc(), &rows));
}
