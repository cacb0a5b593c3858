//! Reloads of homes with helpers: a reload brings none, and those that there are go on.
use crate::day::Fact::{Called, Entries, Errors, Well};
use crate::day::{RESTART, ends, evening, gives};
use crate::files::PLAIN;
use crate::sources::{are_replayed, are_traced};

/// At an event it starts the timer and counts.
const KEPT: &str =
    "timer: {t: {duration: 5}}\ncounter: {c: {}}\nautomation: [{alias: a, triggers: [{trigger: event, event_type: go}], actions: [{action: timer.start, target: {entity_id: timer.t}}, {action: counter.increment, target: {entity_id: counter.c}}]}]";

/// The same, and one that tells what it sees, beside other helpers of these names and of others.
const KEPT_AND_SEEN: &str =
    "reload timer: {t: {duration: 1}}\\ncounter: {c: {initial: 7, step: 3}, d: {initial: 7}}\\nautomation: [{alias: a, triggers: [{trigger: event, event_type: go}], actions: [{action: timer.start, target: {entity_id: timer.t}}, {action: counter.increment, target: {entity_id: counter.c}}]}, {alias: s, triggers: [{trigger: event, event_type: look}], actions: [{action: notify.s, data: {c: '{{ states(''counter.c'') }}', t: '{{ states(''timer.t'') }}'}}]}]";

/// The boot, a line and two steps twice, the reload, and a line and a step twice.
#[test]
fn helpers_are_kept(rt: HostRuntime) {
    let lines = ["e go", KEPT_AND_SEEN, "e look", "e go", "e look"];
    let want = [
        "{\"run\":\"s\",\"number\":1,\"call\":1,\"service\":\"notify.s\",\"target\":[],\"data\":{\"c\":1,\"t\":\"active\"}}",
        "{\"run\":\"s\",\"number\":2,\"call\":1,\"service\":\"notify.s\",\"target\":[],\"data\":{\"c\":2,\"t\":\"active\"}}",
    ];
    assert!(rt;
        are_replayed(&rt, &[(KEPT, &lines, &want)])
            && ends(
                &rt,
                &evening(KEPT, &lines),
                &PLAIN,
                &[Well, Called(&want), Errors(""), Entries(12)]
            )
    );
}

/// One starts the timer, one tells which timer has finished.
const TIMED: &str =
    "timer: {t: {duration: 5}}\nautomation: [{alias: a, triggers: [{trigger: event, event_type: go}], actions: [{action: timer.start, target: {entity_id: timer.t}}]}, {alias: b, triggers: [{trigger: event, event_type: timer.finished}], actions: [{action: notify.b, data: {id: '{{ trigger.event.data.entity_id }}'}}]}]";

/// The timer has another time, which is not read.
const TIMED_BRIEFLY: &str =
    "reload timer: {t: {duration: 1}}\\nautomation: [{alias: a, triggers: [{trigger: event, event_type: go}], actions: [{action: timer.start, target: {entity_id: timer.t}}]}, {alias: b, triggers: [{trigger: event, event_type: timer.finished}], actions: [{action: notify.b, data: {id: '{{ trigger.event.data.entity_id }}'}}]}]";

/// There is no timer, and it is told otherwise.
const TOLD_OTHERWISE: &str =
    "reload automation: [{alias: b, triggers: [{trigger: event, event_type: timer.finished}], actions: [{action: notify.b2, data: {id: '{{ trigger.event.data.entity_id }}'}}]}, {alias: w, triggers: [{trigger: state, entity_id: timer.t, to: idle}], actions: [{action: notify.w}]}]";

const TIMED_CALL: &str =
    "{\"run\":\"b\",\"number\":1,\"call\":1,\"service\":\"notify.b\",\"target\":[],\"data\":{\"id\":\"timer.t\"}}";

const TOLD_CALL: &str =
    "{\"run\":\"b\",\"number\":1,\"call\":1,\"service\":\"notify.b2\",\"target\":[],\"data\":{\"id\":\"timer.t\"}}";

/// Whoever is in force when it finishes is told.
#[test]
fn a_timer_that_runs_over_a_reload_finishes(rt: HostRuntime) {
    let early = ["e go", TIMED_BRIEFLY, "m 20:00:04"];
    let late = ["e go", "m 20:00:03", TIMED_BRIEFLY, "m 20:00:05"];
    let behind = [TIMED_BRIEFLY, "e go", "m 20:00:04", "m 20:00:05"];
    let told = ["e go", TOLD_OTHERWISE, "m 20:00:05"];
    assert!(rt;
        are_replayed(&rt, &[(TIMED, &early, &[])])
            && are_replayed(&rt, &[(TIMED, &late, &[TIMED_CALL])])
            && are_replayed(&rt, &[(TIMED, &behind, &[TIMED_CALL])])
            && are_replayed(&rt, &[(TIMED, &told, &[TOLD_CALL, "w 1/1 notify.w"])])
    );
}

#[test]
fn a_timer_of_a_closed_segment_never_finishes(rt: HostRuntime) {
    let lines = ["e go", TIMED_BRIEFLY, RESTART, "m 20:00:09"];
    assert!(rt; are_replayed(&rt, &[(TIMED, &lines, &[])]));
}

/// One counts at an event, one tells what it sees at another.
const COUNTED: &str =
    "counter: {c: {}}\nautomation: [{alias: a, triggers: [{trigger: event, event_type: go}], actions: [{action: counter.increment, target: {entity_id: counter.c}}]}, {alias: s, triggers: [{trigger: event, event_type: look}], actions: [{action: notify.s, data: {c: '{{ states(''counter.c'') }}', d: '{{ states(''counter.d'') }}'}}]}]";

/// Another counter stands there, and one counts with both.
const COUNTED_OTHERWISE: &str =
    "reload counter: {d: {initial: 7}}\\nautomation: [{alias: a, triggers: [{trigger: event, event_type: go}], actions: [{action: counter.increment, target: {entity_id: [counter.d, counter.c]}}]}, {alias: s, triggers: [{trigger: event, event_type: look}], actions: [{action: notify.s, data: {c: '{{ states(''counter.c'') }}', d: '{{ states(''counter.d'') }}'}}]}]";

/// A counter that is not in force may be reported, is no target of its services, and has no text before.
#[test]
fn a_helper_of_a_reload_is_none(rt: HostRuntime) {
    let lines = [
        COUNTED_OTHERWISE,
        "e look",
        "r counter.d 4",
        "e go",
        "e look",
    ];
    let want = [
        "{\"run\":\"s\",\"number\":1,\"call\":1,\"service\":\"notify.s\",\"target\":[],\"data\":{\"c\":0,\"d\":\"unknown\"}}",
        "{\"run\":\"s\",\"number\":2,\"call\":1,\"service\":\"notify.s\",\"target\":[],\"data\":{\"c\":1,\"d\":4}}",
    ];
    assert!(rt; are_replayed(&rt, &[(COUNTED, &lines, &want)]));
}

/// No helper is in force, so the call is written.
#[test]
fn a_call_of_a_helper_of_a_reload_is_written(rt: HostRuntime) {
    let lines = [COUNTED_OTHERWISE, "e go"];
    let restarted = [COUNTED_OTHERWISE, RESTART, "e go"];
    let want = [
        "{\"run\":\"a\",\"number\":1,\"call\":1,\"service\":\"counter.increment\",\"target\":[\"counter.d\",\"counter.c\"],\"data\":{}}",
    ];
    assert!(rt;
        are_replayed(&rt, &[("[]", &lines, &want)])
            && are_replayed(&rt, &[("[]", &restarted, &want)])
    );
}

/// What is in force is asked, and not the text that was brought last.
#[test]
fn lines_report_no_helper_that_is_in_force(rt: HostRuntime) {
    let lines = [
        COUNTED_OTHERWISE,
        "r counter.c 9",
        "r counter.d 4",
        "{\"gone\":\"counter.c\"}",
        "{\"gone\":\"counter.d\"}",
        RESTART,
        "r counter.c 9",
        "r counter.d 4",
    ];
    assert!(rt;
        gives(
            &rt,
            &evening(COUNTED, &lines),
            &[],
            "source 0 line 1: L14\nsource 0 line 3: L14\nsource 0 line 6: L14\n",
        )
    );
}

/// Its first text is that of the start.
#[test]
fn helpers_of_the_start_stand_behind_a_restart(rt: HostRuntime) {
    let lines = ["e go", COUNTED_OTHERWISE, RESTART, "e look"];
    let want = [
        "{\"run\":\"s\",\"number\":1,\"call\":1,\"service\":\"notify.s\",\"target\":[],\"data\":{\"c\":0,\"d\":\"unknown\"}}",
    ];
    assert!(rt; are_replayed(&rt, &[(COUNTED, &lines, &want)]));
}

/// A step of nothing; a counter that is no map; a name that is none; a first text that is outside; a root that is a list.
const NO_STEP: &str = "reload automation: []\\ncounter: {c: {step: 0}}";

const NO_MAP: &str = "reload automation: []\\ncounter: {c: 5}";

const NO_NAME: &str = "reload automation: []\\ntimer: {T: {}}";

const OUTSIDE: &str = "reload automation: []\\ncounter: {c: {minimum: 1}}";

const NO_KIND: &str = "reload automation: []\\ninput_boolean: [f]";

/// What was in force stays so.
#[test]
fn a_fault_in_helpers_that_are_not_read_refuses_the_text(rt: HostRuntime) {
    let lines = [NO_STEP, NO_MAP, NO_NAME, OUTSIDE, NO_KIND, "e go", "e look"];
    let want = [
        "{\"run\":\"s\",\"number\":1,\"call\":1,\"service\":\"notify.s\",\"target\":[],\"data\":{\"c\":1,\"d\":\"unknown\"}}",
    ];
    let errors =
        "source 0 line 0: L12\nsource 0 line 1: L12\nsource 0 line 2: L12\nsource 0 line 3: L12\nsource 0 line 4: L12\n";
    assert!(rt;
        gives(&rt, &evening(COUNTED, &lines), &want, errors)
            && gives(
                &rt,
                &evening("[]", &[NO_STEP]),
                &[],
                "source 0 line 0: L12\n"
            )
    );
}

/// It sees the number that a change gave before the reload.
const OVER_NONE: &str =
    "reload automation: [{alias: a, triggers: [{trigger: event, event_type: go}], actions: [{action: counter.increment, target: {entity_id: counter.c}}]}, {alias: n, triggers: [{trigger: numeric_state, entity_id: counter.c, above: 0}], actions: [{action: notify.n}]}]";

const OVER_ONE: &str =
    "reload automation: [{alias: a, triggers: [{trigger: event, event_type: go}], actions: [{action: counter.increment, target: {entity_id: counter.c}}]}, {alias: n, triggers: [{trigger: numeric_state, entity_id: counter.c, above: 1}], actions: [{action: notify.n}]}]";

/// The number before was over none, and not over one.
#[test]
fn what_is_new_sees_the_changes_before_it(rt: HostRuntime) {
    let none = ["e go", OVER_NONE, "e go"];
    let one = ["e go", OVER_ONE, "e go"];
    assert!(rt;
        are_replayed(&rt, &[(COUNTED, &none, &[])])
            && are_replayed(&rt, &[(COUNTED, &one, &["n 1/1 notify.n"])])
    );
}

/// It counts at an event.
const TRACED: &str =
    "counter: {c: {}}\nautomation: [{alias: a, triggers: [{trigger: event, event_type: go}], actions: [{action: counter.increment, target: {entity_id: counter.c}}]}]";

const TRACED_AGAIN: &str =
    "reload counter: {c: {initial: 7}}\\nautomation: [{alias: a, triggers: [{trigger: event, event_type: go}], actions: [{action: counter.increment, target: {entity_id: counter.c}}]}]";

const TRACE: &str =
    "{\"boot\":{\"config\":\"counter: {c: {}}\\nautomation: [{alias: a, triggers: [{trigger: event, event_type: go}], actions: [{action: counter.increment, target: {entity_id: counter.c}}]}]\",\"stored\":null,\"start\":\"2024-05-01T20:00:00.000Z\",\"zone\":\"UTC\"}}\n{\"source\":0,\"number\":0,\"cmd\":{\"event\":\"go\",\"data\":{}}}\n{\"worker\":0,\"run\":1,\"branch\":[],\"item\":{\"helped\":[{\"entity\":\"counter.c\",\"text\":\"1\",\"span\":null,\"event\":null}]}}\n{\"source\":0,\"number\":1,\"cmd\":{\"reload\":\"counter: {c: {initial: 7}}\\nautomation: [{alias: a, triggers: [{trigger: event, event_type: go}], actions: [{action: counter.increment, target: {entity_id: counter.c}}]}]\"}}\n{\"source\":0,\"number\":2,\"cmd\":{\"event\":\"go\",\"data\":{}}}\n{\"worker\":0,\"run\":2,\"branch\":[],\"item\":{\"helped\":[{\"entity\":\"counter.c\",\"text\":\"2\",\"span\":null,\"event\":null}]}}\n{\"source\":0,\"number\":3,\"cmd\":{\"refused\":\"L14\"}}\n{\"source\":0,\"number\":4,\"cmd\":{\"restart\":true}}\n{\"again\":1}\n{\"source\":0,\"number\":5,\"cmd\":{\"event\":\"go\",\"data\":{}}}\n{\"worker\":0,\"run\":3,\"branch\":[],\"item\":{\"helped\":[{\"entity\":\"counter.c\",\"text\":\"1\",\"span\":null,\"event\":null}]}}\n{\"end\":11}\n";

#[test]
fn a_trace_has_changes_before_and_behind_a_reload(rt: HostRuntime) {
    let lines = [
        "e go",
        TRACED_AGAIN,
        "e go",
        "r counter.c 9",
        RESTART,
        "e go",
    ];
    assert!(rt; are_traced(&rt, &[(TRACED, &lines, TRACE)]));
}
