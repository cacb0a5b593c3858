//! Traces of homes with scripts: calls that wait, those that nobody waits for, and runs that are ended by name.
use crate::judged::{are_fronts_refused, is_each_byte_told, is_given};

const GREET: &str =
    "{\"boot\":{\"config\":\"automation: [{alias: a, triggers: [{trigger: event, event_type: go}], actions: [{action: script.greet, data: {who: Ann}}, {action: notify.a}]}]\\nscript: {greet: {sequence: [{delay: 5}, {action: notify.s, data: {who: '{{ who }}'}}]}}\\n\",\"stored\":null,\"start\":\"2024-05-01T20:00:00.000Z\",\"zone\":\"UTC\"}}\n";

const GO: &str = "{\"source\":0,\"number\":0,\"cmd\":{\"event\":\"go\",\"data\":{}}}\n";

const STARTED: &str =
    "{\"worker\":0,\"run\":1,\"branch\":[],\"item\":{\"started\":{\"scripts\":[\"greet\"],\"data\":{\"who\":\"Ann\"},\"waits\":true}}}\n";

/// The begin or the end of the script's delay.
const DELAYS: &str = "{\"worker\":0,\"run\":2,\"branch\":[],\"item\":{\"nothing\":true}}\n";

const LATER: &str =
    "{\"source\":0,\"number\":1,\"cmd\":{\"moment\":\"2024-05-01T20:00:05.000Z\"}}\n";

const SAID: &str =
    "{\"worker\":0,\"run\":2,\"branch\":[],\"item\":{\"call\":{\"service\":\"notify.s\",\"target\":[],\"data\":{\"who\":\"Ann\"}}}}\n";

/// The second place of the call, at which its run goes on.
const GOES_ON: &str = "{\"worker\":0,\"run\":1,\"branch\":[],\"item\":{\"nothing\":true}}\n";

const LAST: &str =
    "{\"worker\":0,\"run\":1,\"branch\":[],\"item\":{\"call\":{\"service\":\"notify.a\",\"target\":[],\"data\":{}}}}\n";

const SAID_CALL: &str =
    "{\"run\":\"script.greet\",\"number\":1,\"call\":1,\"service\":\"notify.s\",\"target\":[],\"data\":{\"who\":\"Ann\"}}\n";

const BOTH_CALLS: &str =
    "{\"run\":\"script.greet\",\"number\":1,\"call\":1,\"service\":\"notify.s\",\"target\":[],\"data\":{\"who\":\"Ann\"}}\n{\"run\":\"a\",\"number\":1,\"call\":1,\"service\":\"notify.a\",\"target\":[],\"data\":{}}\n";

#[test]
fn a_call_that_waits_is_replayed(rt: HostRuntime) {
    let parts = [
        GREET,
        GO,
        STARTED,
        DELAYS,
        LATER,
        DELAYS,
        SAID,
        GOES_ON,
        LAST,
        "{\"end\":9}\n",
    ];
    assert!(rt;
        is_given(rt.alloc(), &parts, (0, BOTH_CALLS, ""))
            && are_fronts_refused(rt.alloc(), &parts).unwrap_or(false)
    );
}

#[test]
fn each_changed_byte_of_a_call_that_waits_is_refused(rt: HostRuntime) {
    let behind = [DELAYS, LATER, DELAYS, SAID, GOES_ON, LAST, "{\"end\":9}\n"];
    assert!(rt; is_each_byte_told(rt.alloc(), &[GREET, GO], STARTED, &behind).unwrap_or(false));
}

/// The caller goes on at once, before the called run's last step, or not at all.
#[test]
fn a_caller_that_goes_on_too_soon_or_without_its_place(rt: HostRuntime) {
    let alloc = rt.alloc();
    assert!(rt;
        is_given(
            alloc,
            &[GREET, GO, STARTED, GOES_ON],
            (11, "", "hearth: trace line 4: T\n")
        ) && is_given(
            alloc,
            &[GREET, GO, STARTED, DELAYS, GOES_ON],
            (11, "", "hearth: trace line 5: T\n")
        ) && is_given(
            alloc,
            &[GREET, GO, STARTED, DELAYS, LATER, DELAYS, GOES_ON],
            (11, "", "hearth: trace line 7: T\n")
        ) && is_given(
            alloc,
            &[GREET, GO, STARTED, DELAYS, LATER, DELAYS, SAID, LAST],
            (11, SAID_CALL, "hearth: trace line 8: T\n")
        )
    );
}

/// The same home without its script: the call is written, and nothing is started.
const PLAIN: &str =
    "{\"boot\":{\"config\":\"automation: [{alias: a, triggers: [{trigger: event, event_type: go}], actions: [{action: script.greet, data: {who: Ann}}]}]\\n\",\"stored\":null,\"start\":\"2024-05-01T20:00:00.000Z\",\"zone\":\"UTC\"}}\n";

#[test]
fn nothing_is_started_where_no_script_is_configured(rt: HostRuntime) {
    let call =
        "{\"run\":\"a\",\"number\":1,\"call\":1,\"service\":\"script.greet\",\"target\":[],\"data\":{\"who\":\"Ann\"}}\n";
    let written =
        "{\"worker\":0,\"run\":1,\"branch\":[],\"item\":{\"call\":{\"service\":\"script.greet\",\"target\":[],\"data\":{\"who\":\"Ann\"}}}}\n";
    assert!(rt;
        is_given(
            rt.alloc(),
            &[PLAIN, GO, written, "{\"end\":3}\n"],
            (0, call, "")
        ) && is_given(
            rt.alloc(),
            &[PLAIN, GO, STARTED],
            (11, "", "hearth: trace line 3: T\n")
        )
    );
}

/// A second automation ends the runs of the script.
const HALTS: &str =
    "{\"boot\":{\"config\":\"automation: [{alias: a, triggers: [{trigger: event, event_type: go}], actions: [{action: script.turn_on, target: {entity_id: [script.s, script.t]}, data: {variables: {n: 1}}}]}, {alias: b, triggers: [{trigger: event, event_type: halt}], actions: [{action: script.turn_off, target: {entity_id: script.s}}]}]\\nscript: {s: {sequence: [{delay: 5}, {action: notify.s}]}, t: {sequence: [{action: script.s}, {action: notify.t}]}}\\n\",\"stored\":null,\"start\":\"2024-05-01T20:00:00.000Z\",\"zone\":\"UTC\"}}\n";

const BOTH: &str =
    "{\"worker\":0,\"run\":1,\"branch\":[],\"item\":{\"started\":{\"scripts\":[\"s\",\"t\"],\"data\":{\"n\":1},\"waits\":false}}}\n";

/// The first script's delay, and the call of the second one, whose run has not ended: so none is started, and the caller goes on.
const REFUSED: &str =
    "{\"worker\":0,\"run\":2,\"branch\":[],\"item\":{\"nothing\":true}}\n{\"worker\":0,\"run\":3,\"branch\":[],\"item\":{\"started\":{\"scripts\":[\"s\"],\"data\":{},\"waits\":true}}}\n{\"worker\":0,\"run\":3,\"branch\":[],\"item\":{\"nothing\":true}}\n{\"worker\":0,\"run\":3,\"branch\":[],\"item\":{\"call\":{\"service\":\"notify.t\",\"target\":[],\"data\":{}}}}\n";

const HALT: &str = "{\"source\":0,\"number\":1,\"cmd\":{\"event\":\"halt\",\"data\":{}}}\n";

const HALTED: &str = "{\"worker\":0,\"run\":4,\"branch\":[],\"item\":{\"halted\":[\"s\"]}}\n";

const OVER: &str =
    "{\"source\":0,\"number\":2,\"cmd\":{\"moment\":\"2024-05-01T20:00:05.000Z\"}}\n";

const T_CALL: &str =
    "{\"run\":\"script.t\",\"number\":1,\"call\":1,\"service\":\"notify.t\",\"target\":[],\"data\":{}}\n";

#[test]
fn runs_that_are_ended_by_name_are_replayed(rt: HostRuntime) {
    let parts = [
        HALTS,
        GO,
        BOTH,
        REFUSED,
        HALT,
        HALTED,
        OVER,
        "{\"end\":10}\n",
    ];
    assert!(rt;
        is_given(rt.alloc(), &parts, (0, T_CALL, ""))
            && are_fronts_refused(rt.alloc(), &parts).unwrap_or(false)
            && is_each_byte_told(
                rt.alloc(),
                &[HALTS, GO],
                BOTH,
                &[REFUSED, HALT, HALTED, OVER, "{\"end\":10}\n"]
            )
            .unwrap_or(false)
            && is_each_byte_told(
                rt.alloc(),
                &[HALTS, GO, BOTH, REFUSED, HALT],
                HALTED,
                &[OVER, "{\"end\":10}\n"]
            )
            .unwrap_or(false)
    );
}

/// Its delay would be over.
#[test]
fn a_run_that_was_ended_by_name_has_no_step(rt: HostRuntime) {
    assert!(rt;
        is_given(
            rt.alloc(),
            &[HALTS, GO, BOTH, REFUSED, HALT, HALTED, OVER, DELAYS],
            (11, T_CALL, "hearth: trace line 11: T\n")
        )
    );
}

/// A queued script that calls itself: the run that it waits for waits behind it, and the journal is quiet.
#[test]
fn a_wait_for_ever_is_a_finished_trace(rt: HostRuntime) {
    let boot =
        "{\"boot\":{\"config\":\"automation: [{alias: a, triggers: [{trigger: event, event_type: go}], actions: [{action: script.s}]}]\\nscript: {s: {mode: queued, sequence: [{action: script.s}]}}\\n\",\"stored\":null,\"start\":\"2024-05-01T20:00:00.000Z\",\"zone\":\"UTC\"}}\n";
    let first =
        "{\"worker\":0,\"run\":1,\"branch\":[],\"item\":{\"started\":{\"scripts\":[\"s\"],\"data\":{},\"waits\":true}}}\n";
    let second =
        "{\"worker\":0,\"run\":2,\"branch\":[],\"item\":{\"started\":{\"scripts\":[\"s\"],\"data\":{},\"waits\":true}}}\n";
    let goes_on = "{\"worker\":0,\"run\":2,\"branch\":[],\"item\":{\"nothing\":true}}\n";
    assert!(rt;
        is_given(
            rt.alloc(),
            &[boot, GO, first, second, "{\"end\":4}\n"],
            (0, "", "")
        ) && is_given(
            rt.alloc(),
            &[boot, GO, first, second, goes_on],
            (11, "", "hearth: trace line 5: T\n")
        )
    );
}
