//! What moves a trigger, and what fires.
use crate::day::calls;

#[test]
fn an_attribute_moves_no_trigger_that_looks_at_the_text(rt: HostRuntime) {
    let home =
        "automation: [{alias: a, triggers: [{trigger: state, entity_id: sensor.t, to: null}], actions: [{action: notify.x}]}]";
    let lines = [
        "r sensor.t 5",
        "m 20:00:10",
        "r sensor.t 5",
        "m 20:00:20",
        "{\"report\":\"sensor.t\",\"state\":\"5\",\"attributes\":{\"u\":1}}",
    ];
    assert!(rt; calls(&rt, home, &lines, &["a 1/1 notify.x"]));
}

#[test]
fn an_attribute_moves_a_bare_state_trigger(rt: HostRuntime) {
    let home =
        "automation: [{alias: a, triggers: [{trigger: state, entity_id: light.x}], actions: [{action: notify.a}]}, {alias: b, triggers: [{trigger: state, entity_id: light.x, to: null}], actions: [{action: notify.b}]}]";
    let lines = [
        "r light.x on",
        "{\"report\":\"light.x\",\"state\":\"on\",\"attributes\":{\"b\":1}}",
    ];
    let want = ["a 1/1 notify.a", "b 1/1 notify.b", "a 2/1 notify.a"];
    assert!(rt; calls(&rt, home, &lines, &want));
}

#[test]
fn a_hold_is_cut_by_a_change_and_begins_anew(rt: HostRuntime) {
    let home =
        "automation: [{alias: a, triggers: [{trigger: state, entity_id: binary_sensor.d, to: 'on', for: 5}], actions: [{action: notify.x}]}]";
    let cut = [
        "r binary_sensor.d on",
        "m 20:00:03",
        "r binary_sensor.d off",
        "r binary_sensor.d on",
        "m 20:00:05",
        "m 20:00:07",
    ];
    let held = [
        "r binary_sensor.d on",
        "m 20:00:03",
        "r binary_sensor.d off",
        "r binary_sensor.d on",
        "m 20:00:05",
        "m 20:00:08",
        "m 20:00:20",
    ];
    assert!(rt; calls(&rt, home, &cut, &[]) && calls(&rt, home, &held, &["a 1/1 notify.x"]));
}

#[test]
fn a_number_fires_where_it_comes_into_its_bounds(rt: HostRuntime) {
    let home =
        "automation: [{alias: a, triggers: [{trigger: numeric_state, entity_id: sensor.t, above: 20}], actions: [{action: notify.x}]}]";
    let lines = [
        "r sensor.t 20",
        "r sensor.t 20.000001",
        "r sensor.t 21",
        "r sensor.t unavailable",
        "r sensor.t 22",
    ];
    assert!(rt;
        calls(&rt, home, &lines[..1], &[]) && calls(&rt, home, &lines, &["a 1/1 notify.x"])
    );
}

#[test]
fn a_held_template_fires_while_it_stays_true(rt: HostRuntime) {
    let home =
        "automation: [{alias: a, triggers: [{trigger: template, value_template: \"{{ states('sensor.t')|int > 20 }}\", for: 5}], actions: [{action: notify.x}]}]";
    let lines = [
        "r sensor.t 21",
        "r sensor.t 20",
        "r sensor.t 22",
        "m 20:00:05",
        "r sensor.t 23",
        "m 20:00:10",
    ];
    assert!(rt;
        calls(&rt, home, &lines[..3], &[])
            && calls(&rt, home, &lines[..4], &["a 1/1 notify.x"])
            && calls(&rt, home, &lines, &["a 1/1 notify.x"])
    );
}

#[test]
fn a_command_asks_without_the_conditions_unless_it_says_so(rt: HostRuntime) {
    let home =
        "automation: [{alias: b, triggers: [], conditions: [\"{{ false }}\"], actions: [{action: notify.b}]}]";
    let lines = [
        "{\"trigger\":\"automation.b\"}",
        "{\"trigger\":\"automation.b\",\"skip_condition\":false}",
    ];
    assert!(rt; calls(&rt, home, &lines, &["b 1/1 notify.b"]));
}
