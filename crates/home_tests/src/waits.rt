//! Waits for a template: an entry tests those alone whose templates may have become true.
use crate::day::calls;

/// It waits till both are on.
const BOTH: &str =
    "automation: [{alias: a, triggers: [{trigger: event, event_type: go}], actions: [{wait_template: \"{{ is_state('light.x', 'on') and is_state('light.y', 'on') }}\"}, {action: notify.a}]}]";

#[test]
fn either_of_two_entities_may_end_a_wait(rt: HostRuntime) {
    let second = ["e go", "r light.x on", "r light.z on", "r light.y on"];
    let first = ["e go", "r light.y on", "r light.z on", "r light.x on"];
    let want = ["a 1/1 notify.a"];
    assert!(rt;
        calls(&rt, BOTH, &second[..3], &[])
            && calls(&rt, BOTH, &second, &want)
            && calls(&rt, BOTH, &first, &want)
    );
}

#[test]
fn a_wait_that_is_true_ends_at_its_own_step(rt: HostRuntime) {
    let lines = ["r light.x on", "r light.y on", "r light.z on", "e go"];
    assert!(rt; calls(&rt, BOTH, &lines, &["a 1/1 notify.a"]));
}

/// The trigger's data name the entity, so each entry tests the wait.
#[test]
fn an_entity_that_an_event_names_ends_a_wait(rt: HostRuntime) {
    let home =
        "automation: [{alias: a, triggers: [{trigger: event, event_type: go}], actions: [{wait_template: \"{{ is_state(trigger.event.data.who, 'on') }}\"}, {action: notify.a}]}]";
    let lines = [
        "{\"event\":\"go\",\"data\":{\"who\":\"light.x\"}}",
        "r light.y on",
        "r light.x on",
    ];
    assert!(rt;
        calls(&rt, home, &lines[..2], &[]) && calls(&rt, home, &lines, &["a 1/1 notify.a"])
    );
}

/// An attribute, and an entity that goes.
#[test]
fn runs_wait_for_entities_of_their_own(rt: HostRuntime) {
    let home =
        "automation: [{alias: a, triggers: [{trigger: event, event_type: go}], actions: [{wait_template: \"{{ state_attr('light.x', 'level') == 5 }}\"}, {action: notify.a}]}, {alias: b, triggers: [{trigger: event, event_type: go}], actions: [{wait_template: \"{{ not has_value('light.y') }}\"}, {action: notify.b}]}]";
    let lines = [
        "r light.x on",
        "r light.y on",
        "e go",
        "r light.y off",
        "{\"gone\":\"light.y\"}",
        "r light.y on",
        "{\"report\":\"light.x\",\"state\":\"on\",\"attributes\":{\"level\":5}}",
    ];
    let want = ["b 1/1 notify.b", "a 1/1 notify.a"];
    assert!(rt; calls(&rt, home, &lines[..4], &[]) && calls(&rt, home, &lines, &want));
}
