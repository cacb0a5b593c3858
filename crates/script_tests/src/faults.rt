//! Fields that fail, each with its code, and what calls and the engine's own services give.
use crate::play::goes;
use ha_sight::Progress;
use std::alloc::Global;

/// Whether the first step of each of these scripts fails so, and the run with it.
fn fail(alloc: Global, scripts: &[&str], said: &str) -> bool {
    for actions in scripts {
        if !goes(alloc, actions, &[said], Progress::Faulted) {
            return false;
        }
    }
    true
}

#[test]
fn a_template_without_a_value_is_the_first_code(rt: HostRuntime) {
    let scripts = [
        "[{action: notify.x, data: {v: \"{{ states('sensor.no')|int }}\"}, continue_on_error: true}, {action: notify.y}]",
        "[{action: \"{{ 1 // 0 }}\"}]",
        "[{action: notify.x, target: {entity_id: \"{{ 1 // 0 }}\"}}]",
        "[{variables: {v: \"{{ 1 // 0 }}\"}}]",
        "[{event: told, event_data: {v: \"{{ 1 // 0 }}\"}}]",
        "[{delay: \"{{ 1 // 0 }}\"}]",
        "[{wait_template: \"{{ false }}\", timeout: {seconds: \"{{ 1 // 0 }}\"}}]",
        "[{repeat: {count: \"{{ 1 // 0 }}\", sequence: []}}]",
        "[{repeat: {for_each: [a, \"{{ 1 // 0 }}\"], sequence: []}}]",
    ];
    assert!(rt; fail(rt.alloc(), &scripts, "[] F1"));
}

#[test]
fn no_name_of_a_service_is_the_second_code(rt: HostRuntime) {
    let scripts = [
        "[{action: \"{{ 'notify' }}\"}]",
        "[{action: \"{{ 'turn on' }}.x\"}]",
        "[{action: \"{{ 'notify' }}\", target: {entity_id: \"{{ 1 // 0 }}\"}}]",
    ];
    assert!(rt; fail(rt.alloc(), &scripts, "[] F2"));
}

#[test]
fn no_entity_id_in_a_target_is_the_third_code_before_the_data(rt: HostRuntime) {
    let scripts = [
        "[{action: notify.x, target: {entity_id: \"{{ 'Hall' }}\"}, data: {v: \"{{ 1 // 0 }}\"}}]",
        "[{action: notify.x, target: {entity_id: \"{{ 'a.b,' }}\"}}]",
    ];
    assert!(rt; fail(rt.alloc(), &scripts, "[] F3"));
}

#[test]
fn no_duration_is_the_fourth_code(rt: HostRuntime) {
    let scripts = [
        "[{delay: \"{{ 'soon' }}\"}]",
        "[{delay: \"{{ 2.5 }}\"}]",
        "[{delay: \"{{ 31622401 }}\"}]",
        "[{delay: {seconds: \"{{ 0 - 1 }}\"}}]",
        "[{delay: {minutes: \"{{ 1.0 }}\"}}]",
        "[{delay: {days: \"{{ 300 + 67 }}\"}}]",
        "[{wait_template: \"{{ true }}\", timeout: \"{{ 'soon' }}\"}]",
        "[{wait_for_trigger: [], timeout: \"{{ 'soon' }}\"}]",
    ];
    assert!(rt; fail(rt.alloc(), &scripts, "[] F4"));
}

#[test]
fn no_whole_count_is_the_fifth_code(rt: HostRuntime) {
    let scripts = [
        "[{repeat: {count: \"{{ 3.0 }}\", sequence: []}}]",
        "[{repeat: {count: \"{{ 'x' }}\", sequence: []}}]",
    ];
    assert!(rt; fail(rt.alloc(), &scripts, "[] F5"));
}

#[test]
fn a_call_has_its_targets_and_its_data(rt: HostRuntime) {
    let both =
        "[{action: light.turn_on, entity_id: light.a, target: {entity_id: [\"{{ 'light.x ,light.y' }}\", light.a]}, data: {level: 7, way: [1, \"{{ 'on' }}\"]}}]";
    let said =
        "[] \"service\":\"light.turn_on\",\"target\":[\"light.x\",\"light.y\",\"light.a\",\"light.a\"],\"data\":{\"level\":7,\"way\":[1,\"on\"]}";
    let empty = "[{action: notify.x, target: {entity_id: \"{{ '' }}\"}}]";
    assert!(rt;
        goes(rt.alloc(), both, &[said], Progress::Done)
            && goes(rt.alloc(), empty, &["[] notify.x"], Progress::Done)
    );
}

#[test]
fn a_switch_that_is_off_is_toggled_on(rt: HostRuntime) {
    let actions =
        "[{action: automation.toggle, target: {entity_id: [automation.a, automation.none, automation.a]}}]";
    let said = "[] switches on";
    assert!(rt; goes(rt.alloc(), actions, &[said], Progress::Done));
}

#[test]
fn what_is_turned_off_is_stopped_unless_the_data_says_otherwise(rt: HostRuntime) {
    let stops =
        "[{action: automation.turn_off, target: {entity_id: automation.a}, data: {stop_actions: 5}}]";
    let spares =
        "[{action: automation.turn_off, target: {entity_id: automation.a}, data: {stop_actions: false}}]";
    assert!(rt;
        goes(
            rt.alloc(),
            stops,
            &["[] switches off and stops"],
            Progress::Done
        ) && goes(rt.alloc(), spares, &["[] switches off"], Progress::Done)
    );
}

#[test]
fn the_own_services_pass_over_other_targets(rt: HostRuntime) {
    let none = "[{action: automation.turn_on, target: {entity_id: automation.none}}]";
    let asks =
        "[{action: automation.trigger, target: {entity_id: automation.a}, data: {skip_condition: false}}]";
    let said = "[] tests and asks";
    assert!(rt;
        goes(rt.alloc(), none, &["[] switches none"], Progress::Done)
            && goes(rt.alloc(), asks, &[said], Progress::Done)
    );
}
