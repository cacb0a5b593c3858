//! Homes with flags, counters and timers.
use crate::day::Fact::{Called, Entries, Errors, Well};
use crate::day::{RESTART, calls, ends, evening, gives};
use crate::files::PLAIN;
use crate::sources::are_replayed;

const TIMED: &str =
    "timer: {t: {duration: 5}}\nautomation: [{alias: a, triggers: [{trigger: event, event_type: go}], actions: [{action: timer.start, target: {entity_id: timer.t}}]}, {alias: b, triggers: [{trigger: event, event_type: timer.finished}], actions: [{action: notify.b, data: {id: \"{{ trigger.event.data.entity_id }}\"}}]}]";

const TIMED_LINES: [&str; 2] = ["e go", "m 20:00:05"];

const TIMED_CALLS: [&str; 1] = [
    "{\"run\":\"b\",\"number\":1,\"call\":1,\"service\":\"notify.b\",\"target\":[],\"data\":{\"id\":\"timer.t\"}}",
];

/// The boot, the event, the start of the timer, the moment at which it finishes, and the call.
#[test]
fn a_timer_finishes(rt: HostRuntime) {
    assert!(rt;
        ends(
            &rt,
            &evening(TIMED, &TIMED_LINES),
            &PLAIN,
            &[Well, Called(&TIMED_CALLS), Errors(""), Entries(5)]
        )
    );
}

#[test]
fn a_timer_finishes_once(rt: HostRuntime) {
    let lines = ["e go", "m 20:00:04", "m 20:00:07", "m 20:00:20"];
    assert!(rt; calls(&rt, TIMED, &lines[..2], &[]) && calls(&rt, TIMED, &lines, &TIMED_CALLS));
}

#[test]
fn a_timer_is_idle_after_a_restart(rt: HostRuntime) {
    assert!(rt; calls(&rt, TIMED, &["e go", RESTART, "m 20:00:10"], &[]));
}

/// One moment, one event a timer, in the order of the configuration.
#[test]
fn two_timers_finish_at_one_moment(rt: HostRuntime) {
    let home =
        "timer: {t: {duration: 5}, u: {duration: 3}}\nautomation: [{alias: a, triggers: [{trigger: event, event_type: go}], actions: [{action: timer.start, target: {entity_id: [timer.u, timer.t]}}]}, {alias: b, mode: parallel, triggers: [{trigger: event, event_type: timer.finished}], actions: [{action: notify.b, data: {id: \"{{ trigger.event.data.entity_id }}\"}}]}]";
    let want = [
        "{\"run\":\"b\",\"number\":1,\"call\":1,\"service\":\"notify.b\",\"target\":[],\"data\":{\"id\":\"timer.t\"}}",
        "{\"run\":\"b\",\"number\":2,\"call\":1,\"service\":\"notify.b\",\"target\":[],\"data\":{\"id\":\"timer.u\"}}",
    ];
    assert!(rt; calls(&rt, home, &["e go", "m 20:00:10"], &want));
}

const COUNTED: &str =
    "counter: {c: {maximum: 2}}\nautomation: [{alias: a, triggers: [{trigger: event, event_type: go}], actions: [{repeat: {count: 3, sequence: [{action: counter.increment, target: {entity_id: counter.c}}]}}, {action: notify.x, data: {v: \"{{ states('counter.c') }}\"}}]}, {alias: b, triggers: [{trigger: state, entity_id: counter.c}], actions: [{action: notify.b}]}]";

const COUNTED_CALLS: [&str; 2] = [
    "{\"run\":\"a\",\"number\":1,\"call\":1,\"service\":\"notify.x\",\"target\":[],\"data\":{\"v\":2}}",
    "b 1/1 notify.b",
];

/// The text goes to 1, 2 and 2. At the second change the first run is live, so there is no other.
#[test]
fn a_counter_stays_within_its_bounds(rt: HostRuntime) {
    assert!(rt; calls(&rt, COUNTED, &["e go"], &COUNTED_CALLS));
}

#[test]
fn lines_report_no_helper(rt: HostRuntime) {
    let reported = ["{\"report\":\"counter.c\",\"state\":\"7\"}"];
    let gone = ["{\"gone\":\"counter.c\"}"];
    let none = "source 0 line 0: L14\n";
    assert!(rt;
        gives(&rt, &evening(COUNTED, &reported), &[], none)
            && gives(&rt, &evening(COUNTED, &gone), &[], none)
    );
}

#[test]
fn a_counter_is_set_to_no_value_outside_its_bounds(rt: HostRuntime) {
    let home =
        "counter: {c: {maximum: 2}}\nautomation: [{alias: a, triggers: [{trigger: event, event_type: go}], actions: [{repeat: {count: 3, sequence: [{action: counter.set_value, target: {entity_id: counter.c}, data: {value: 3}}]}}, {action: notify.x}]}]";
    assert!(rt; gives(&rt, &evening(home, &["e go"]), &[], "run 1 failed F7\n"));
}

/// A number that a change brings moves a trigger as a reported one does.
#[test]
fn a_changed_number_comes_into_its_bounds(rt: HostRuntime) {
    let home =
        "counter: {c: {}}\nautomation: [{alias: a, triggers: [{trigger: event, event_type: go}], actions: [{action: counter.increment, target: {entity_id: counter.c}}]}, {alias: b, triggers: [{trigger: numeric_state, entity_id: counter.c, above: 1}], actions: [{action: notify.b}]}]";
    let lines = ["e go", "e go", "e go"];
    assert!(rt;
        calls(&rt, home, &lines[..1], &[]) && calls(&rt, home, &lines, &["b 1/1 notify.b"])
    );
}

/// Each segment begins with the first texts.
#[test]
fn a_restart_resets_helpers(rt: HostRuntime) {
    let home =
        "counter: {c: {initial: 3}}\ninput_boolean: {f: {initial: true}}\nautomation: [{alias: a, triggers: [{trigger: event, event_type: go}], actions: [{action: counter.increment, target: {entity_id: counter.c}}, {action: input_boolean.toggle, target: {entity_id: input_boolean.f}}, {action: notify.x, data: {v: \"{{ states('counter.c') }}\", f: \"{{ states('input_boolean.f') }}\"}}]}]";
    let want = [
        "{\"run\":\"a\",\"number\":1,\"call\":1,\"service\":\"notify.x\",\"target\":[],\"data\":{\"v\":4,\"f\":\"off\"}}",
        "{\"run\":\"a\",\"number\":2,\"call\":1,\"service\":\"notify.x\",\"target\":[],\"data\":{\"v\":5,\"f\":\"on\"}}",
        "{\"run\":\"a\",\"number\":3,\"call\":1,\"service\":\"notify.x\",\"target\":[],\"data\":{\"v\":4,\"f\":\"off\"}}",
    ];
    assert!(rt; calls(&rt, home, &["e go", "e go", RESTART, "e go"], &want));
}

/// Where no helper of the kind is configured the call is written.
#[test]
fn a_call_without_helpers_is_written(rt: HostRuntime) {
    let home =
        "timer: {t: {}}\nautomation: [{alias: a, triggers: [{trigger: event, event_type: go}], actions: [{action: counter.increment}, {action: timer.start}]}]";
    assert!(rt; calls(&rt, home, &["e go"], &["a 1/1 counter.increment"]));
}

/// The trace of a run has the changes, and is taken again.
#[test]
fn changes_of_helpers_are_replayed(rt: HostRuntime) {
    assert!(rt;
        are_replayed(
            &rt,
            &[
                (TIMED, &TIMED_LINES, &TIMED_CALLS),
                (COUNTED, &["e go"], &COUNTED_CALLS),
            ]
        )
    );
}
