//! Restarts: what ends there, what goes on, and what begins anew.
use crate::day::Fact::{Called, End, Entries, Errors, Runs, Stored, Well};
use crate::day::{RESTART, ends, evening};
use crate::files::PLAIN;
use crate::sources::are_replayed;
use ha_model::EndCause;

/// It calls five seconds after an event.
const LATER: &str =
    "automation: [{alias: a, triggers: [{trigger: event, event_type: go}], actions: [{delay: 5}, {action: notify.x}]}]";

/// It calls where a sensor is on for five seconds.
const HELD: &str =
    "automation: [{alias: a, triggers: [{trigger: state, entity_id: binary_sensor.d, to: 'on', for: 5}], actions: [{action: notify.x}]}]";

/// It waits for a second event, for five seconds.
const WAITS: &str =
    "automation: [{alias: a, triggers: [{trigger: event, event_type: go}], actions: [{wait_for_trigger: [{trigger: event, event_type: now}], timeout: 5}, {action: notify.x}]}]";

/// The second of two runs waits for the first.
const QUEUED: &str =
    "automation: [{alias: a, mode: queued, max: 2, triggers: [{trigger: event, event_type: go}], actions: [{delay: 5}, {action: notify.x}]}]";

#[test]
fn the_numbers_of_runs_go_on_over_two_restarts(rt: HostRuntime) {
    let lines = ["e go", RESTART, "e go", RESTART, "e go", "m 20:00:05"];
    let want = ["a 3/1 notify.x"];
    assert!(rt;
        are_replayed(&rt, &[(LATER, &lines, &want)])
            && ends(
                &rt,
                &evening(LATER, &lines),
                &PLAIN,
                &[
                    Well,
                    Called(&want),
                    Errors(""),
                    Entries(14),
                    Runs(3),
                    End(3, EndCause::Restarted),
                ]
            )
    );
}

#[test]
fn a_delay_ends_at_a_restart(rt: HostRuntime) {
    let lines = ["e go", "m 20:00:02", RESTART, "m 20:00:05", "m 20:00:20"];
    assert!(rt; are_replayed(&rt, &[(LATER, &lines, &[])]));
}

#[test]
fn a_hold_ends_at_a_restart(rt: HostRuntime) {
    let lines = [
        "r binary_sensor.d on",
        "m 20:00:03",
        RESTART,
        "m 20:00:05",
        "m 20:00:20",
    ];
    assert!(rt; are_replayed(&rt, &[(HELD, &lines, &[])]));
}

#[test]
fn a_wait_ends_at_a_restart(rt: HostRuntime) {
    let lines = ["e go", RESTART, "e now", "m 20:00:05"];
    assert!(rt; are_replayed(&rt, &[(WAITS, &lines, &[])]));
}

#[test]
fn a_queue_ends_at_a_restart(rt: HostRuntime) {
    let lines = ["e go", "e go", RESTART, "m 20:00:05", "m 20:00:10"];
    assert!(rt;
        are_replayed(&rt, &[(QUEUED, &lines, &[])])
            && ends(
                &rt,
                &evening(QUEUED, &lines),
                &PLAIN,
                &[Well, Entries(8), Runs(2), End(4, EndCause::Restarted)]
            )
    );
}

/// What is reported behind it is new, so a hold begins there.
#[test]
fn a_hold_begins_anew_behind_a_restart(rt: HostRuntime) {
    let lines = [
        "r binary_sensor.d on",
        "m 20:00:03",
        RESTART,
        "r binary_sensor.d on",
        "m 20:00:05",
        "m 20:00:08",
    ];
    assert!(rt;
        are_replayed(
            &rt,
            &[
                (HELD, &lines[..5], &[]),
                (HELD, &lines, &["a 1/1 notify.x"]),
            ]
        )
    );
}

/// It delays from each start on, one run at a time.
const STARTS: &str =
    "automation: [{alias: a, triggers: [{trigger: homeassistant, event: start}], actions: [{delay: 5}, {action: notify.x}]}]";

/// It calls at each start where it is on itself.
const STARTS_ON: &str =
    "automation: [{alias: a, triggers: [{trigger: homeassistant, event: start}], conditions: [{condition: state, entity_id: automation.a, state: 'on'}], actions: [{action: notify.x}]}]";

/// The run of the first start is in its delay at the restart, and stands in nobody's way.
#[test]
fn start_triggers_fire_behind_a_restart(rt: HostRuntime) {
    let lines = ["e x", RESTART, "e x", "m 20:00:05"];
    assert!(rt;
        are_replayed(
            &rt,
            &[
                (STARTS, &lines, &["a 2/1 notify.x"]),
                (
                    STARTS_ON,
                    &lines[..3],
                    &["a 1/1 notify.x", "a 2/1 notify.x"]
                ),
            ]
        )
    );
}

/// It calls at an event.
const CALLS: &str =
    "automation: [{alias: a, triggers: [{trigger: event, event_type: go}], actions: [{action: notify.x}]}]";

/// The same, and it is on at each start.
const CALLS_ON: &str =
    "automation: [{alias: a, initial_state: true, triggers: [{trigger: event, event_type: go}], actions: [{action: notify.x}]}]";

/// It calls at an event where a light is on.
const CALLS_LIT: &str =
    "automation: [{alias: a, triggers: [{trigger: event, event_type: go}], conditions: [{condition: state, entity_id: light.x, state: 'on'}], actions: [{action: notify.x}]}]";

const OFF: &str = "{\"switch\":\"automation.a\",\"to\":\"off\"}";

#[test]
fn a_switch_stays_as_it_is_at_a_restart(rt: HostRuntime) {
    let lines = ["e go", OFF, RESTART, "e go"];
    assert!(rt;
        are_replayed(&rt, &[(CALLS, &lines, &["a 1/1 notify.x"])])
            && ends(
                &rt,
                &evening(CALLS, &lines),
                &PLAIN,
                &[
                    Well,
                    Stored(
                        "{\"last\":{\"a\":\"2024-05-01T20:00:00.000Z\"},\"switches\":{\"a\":false},\"version\":2}"
                    )
                ]
            )
    );
}

#[test]
fn a_switch_with_an_initial_state_has_it_behind_a_restart(rt: HostRuntime) {
    let lines = [OFF, "e go", RESTART, "e go"];
    assert!(rt;
        are_replayed(&rt, &[(CALLS_ON, &lines, &["a 1/1 notify.x"])])
            && ends(
                &rt,
                &evening(CALLS_ON, &lines),
                &PLAIN,
                &[
                    Well,
                    Stored(
                        "{\"last\":{\"a\":\"2024-05-01T20:00:00.000Z\"},\"switches\":{\"a\":true},\"version\":2}"
                    )
                ]
            )
    );
}

#[test]
fn reported_states_go_at_a_restart(rt: HostRuntime) {
    let lines = [
        "r light.x on",
        "e go",
        RESTART,
        "e go",
        "r light.x on",
        "e go",
    ];
    assert!(rt;
        are_replayed(
            &rt,
            &[(CALLS_LIT, &lines, &["a 1/1 notify.x", "a 2/1 notify.x"])]
        )
    );
}
