//! Scripts: waits, repeats, choices, parallel blocks and faults.
use crate::day::Fact::{Called, Cause, Entries, Errors, Well};
use crate::day::{calls, ends, evening, gives};
use crate::files::PLAIN;
use ha_model::EndCause;

pub const WAIT: &str =
    "automation: [{alias: z, triggers: [], actions: []}, {alias: a, triggers: [{trigger: event, event_type: go}], actions: [{delay: 5}, {action: automation.turn_off, target: {entity_id: automation.z}}, {action: automation.turn_on, target: {entity_id: automation.z}}]}, {alias: b, triggers: [{trigger: event, event_type: go}], actions: [{wait_template: \"{{ is_state('automation.z', 'off') }}\", timeout: 10}, {action: notify.b, data: {done: \"{{ wait.completed }}\", left: \"{{ wait.remaining }}\"}}]}]";

pub const WAIT_LINES: [&str; 2] = ["e go", "m 20:00:05"];

pub const WAIT_CALLS: [&str; 1] = [
    "{\"run\":\"b\",\"number\":1,\"call\":1,\"service\":\"notify.b\",\"target\":[],\"data\":{\"done\":true,\"left\":5.0}}",
];

#[test]
fn a_wait_keeps_the_end_that_it_had(rt: HostRuntime) {
    assert!(rt; calls(&rt, WAIT, &WAIT_LINES, &WAIT_CALLS));
}

#[test]
fn a_timeout_that_stops_ends_the_whole_script(rt: HostRuntime) {
    let home =
        "automation: [{alias: a, triggers: [{trigger: event, event_type: go}], actions: [{repeat: {count: 3, sequence: [{wait_template: \"{{ false }}\", timeout: 5, continue_on_timeout: false}, {action: notify.in}]}}, {action: notify.after}]}]";
    assert!(rt;
        ends(
            &rt,
            &evening(home, &["e go", "m 20:00:05"]),
            &PLAIN,
            &[Well, Called(&[]), Errors(""), Cause(EndCause::Stopped)]
        )
    );
}

#[test]
fn a_parallel_block_ends_with_its_last_list(rt: HostRuntime) {
    let home =
        "automation: [{alias: a, triggers: [{trigger: event, event_type: go}], actions: [{parallel: [{sequence: [{delay: 5}, {action: notify.x}]}, {sequence: [\"{{ false }}\", {action: notify.y}]}]}, {action: notify.z}]}]";
    let want = ["a 1/1 notify.x", "a 1/2 notify.z"];
    assert!(rt;
        calls(&rt, home, &["e go"], &[]) && calls(&rt, home, &["e go", "m 20:00:05"], &want)
    );
}

#[test]
fn variables_choices_and_lists_are_seen_where_they_stand(rt: HostRuntime) {
    let home =
        "automation: [{alias: a, triggers: [{trigger: event, event_type: go}], actions: [{variables: {v: \"{{ trigger.event.data.n + 1 }}\"}}, {choose: [{conditions: \"{{ v > 5 }}\", sequence: [{action: notify.big}]}], default: [{action: notify.small}]}, {repeat: {for_each: [red, green], sequence: [{action: notify.c, data: {c: \"{{ repeat.item }}\", last: \"{{ repeat.last }}\"}}]}}]}]";
    let want = [
        "a 1/1 notify.big",
        "{\"run\":\"a\",\"number\":1,\"call\":2,\"service\":\"notify.c\",\"target\":[],\"data\":{\"c\":\"red\",\"last\":false}}",
        "{\"run\":\"a\",\"number\":1,\"call\":3,\"service\":\"notify.c\",\"target\":[],\"data\":{\"c\":\"green\",\"last\":true}}",
    ];
    assert!(rt; calls(&rt, home, &["{\"event\":\"go\",\"data\":{\"n\":5}}"], &want));
}

#[test]
fn a_fault_in_a_call_ends_the_run(rt: HostRuntime) {
    let home =
        "automation: [{alias: a, triggers: [{trigger: event, event_type: go}], actions: [{action: notify.x, data: {v: \"{{ states('sensor.no')|int }}\"}, continue_on_error: true}, {action: notify.y}]}]";
    let day = evening(home, &["e go"]);
    assert!(rt; gives(&rt, &day, &[], "run 1 failed F1\n"));
}

#[test]
fn a_repeat_without_end_is_a_fault(rt: HostRuntime) {
    let home =
        "automation: [{alias: a, triggers: [{trigger: event, event_type: go}], actions: [{repeat: {while: \"{{ true }}\", sequence: []}}]}]";
    assert!(rt;
        ends(
            &rt,
            &evening(home, &["e go"]),
            &PLAIN,
            &[Entries(10_003), Errors("run 1 failed F6\n")]
        )
    );
}

#[test]
fn an_event_of_a_run_fires_at_its_own_entry(rt: HostRuntime) {
    let home =
        "automation: [{alias: a, triggers: [{trigger: event, event_type: go}], actions: [{event: done, event_data: {who: me}}, {action: notify.a}]}, {alias: b, triggers: [{trigger: event, event_type: done, event_data: {who: me}}], actions: [{action: notify.b}]}]";
    let want = ["a 1/1 notify.a", "b 1/1 notify.b"];
    assert!(rt; calls(&rt, home, &["e go"], &want));
}
