//! Modes, queues, replacement and stops.
use crate::day::Fact::{Called, End, Entries, Errors, Output, Runs, Stored, Well};
use crate::day::{calls, ends, evening};
use crate::files::PLAIN;
use ha_model::EndCause;
use std::alloc::Global;
use std::process::Abort;
use std::sync::Wait;
use std::thread::Threads;

pub const HALL: &str =
    "- id: '1700000000001'\n  alias: Hall light\n  description: ''\n  triggers:\n  - trigger: state\n    entity_id:\n    - binary_sensor.hall\n    from:\n    to: 'on'\n  conditions: []\n  actions:\n  - action: light.turn_on\n    metadata: {}\n    data:\n      brightness: 128\n    target:\n      entity_id: light.hall\n  - delay:\n      hours: 0\n      minutes: 2\n      seconds: 0\n      milliseconds: 0\n  - action: light.turn_off\n    target:\n      entity_id: light.hall\n  mode: restart\n";

const HALL_ON: &str =
    "{\"run\":\"hall_light\",\"number\":1,\"call\":1,\"service\":\"light.turn_on\",\"target\":[\"light.hall\"],\"data\":{\"brightness\":128}}";

/// Somebody comes, and two minutes go by.
pub const HALL_LINES: [&str; 3] = [
    "r binary_sensor.hall off",
    "r binary_sensor.hall on",
    "m 20:02:00",
];

pub const HALL_CALLS: [&str; 2] = [
    HALL_ON,
    "{\"run\":\"hall_light\",\"number\":1,\"call\":2,\"service\":\"light.turn_off\",\"target\":[\"light.hall\"],\"data\":{}}",
];

#[test]
fn a_light_goes_out_after_its_delay(rt: HostRuntime) {
    assert!(rt;
        ends(
            &rt,
            &evening(HALL, &HALL_LINES),
            &PLAIN,
            &[
                Well,
                Called(&HALL_CALLS),
                Errors(""),
                Entries(8),
                Stored(
                    "{\"last\":{\"hall_light\":\"2024-05-01T20:00:00.000Z\"},\"switches\":{\"hall_light\":true},\"version\":2}"
                ),
            ]
        )
    );
}

#[test]
fn a_replaced_run_calls_nothing_more(rt: HostRuntime) {
    let lines = [
        "r binary_sensor.hall off",
        "r binary_sensor.hall on",
        "m 20:01:00",
        "r binary_sensor.hall off",
        "r binary_sensor.hall on",
        "m 20:02:00",
        "m 20:03:00",
    ];
    let want = [
        HALL_ON,
        "{\"run\":\"hall_light\",\"number\":2,\"call\":1,\"service\":\"light.turn_on\",\"target\":[\"light.hall\"],\"data\":{\"brightness\":128}}",
        "{\"run\":\"hall_light\",\"number\":2,\"call\":2,\"service\":\"light.turn_off\",\"target\":[\"light.hall\"],\"data\":{}}",
    ];
    assert!(rt;
        calls(&rt, HALL, &lines[..6], &want[..2])
            && ends(
                &rt,
                &evening(HALL, &lines),
                &PLAIN,
                &[Well, Called(&want), Errors(""), End(7, EndCause::Replaced),]
            )
    );
}

pub const QUEUE: &str =
    "automation: [{alias: a, mode: queued, max: 2, triggers: [{trigger: event, event_type: go}], actions: [{delay: 5}, {action: notify.q, data: {n: \"{{ trigger.event.data.n }}\"}}]}]";

pub const QUEUE_LINES: [&str; 6] = [
    "{\"event\":\"go\",\"data\":{\"n\":1}}",
    "{\"event\":\"go\",\"data\":{\"n\":2}}",
    "{\"event\":\"go\",\"data\":{\"n\":3}}",
    "m 20:00:05",
    "m 20:00:10",
    "m 20:00:20",
];

pub const QUEUE_CALLS: [&str; 2] = [
    "{\"run\":\"a\",\"number\":1,\"call\":1,\"service\":\"notify.q\",\"target\":[],\"data\":{\"n\":1}}",
    "{\"run\":\"a\",\"number\":2,\"call\":1,\"service\":\"notify.q\",\"target\":[],\"data\":{\"n\":2}}",
];

#[test]
fn a_queue_takes_two_and_gives_each_its_own_event(rt: HostRuntime) {
    assert!(rt;
        calls(&rt, QUEUE, &QUEUE_LINES[..4], &QUEUE_CALLS[..1])
            && calls(&rt, QUEUE, &QUEUE_LINES, &QUEUE_CALLS)
    );
}

#[test]
fn a_run_that_turns_its_automation_off_ends_there(rt: HostRuntime) {
    let home =
        "automation: [{alias: a, initial_state: true, triggers: [{trigger: event, event_type: go}], actions: [{action: automation.turn_off, target: {entity_id: automation.a}}, {action: notify.x}]}]";
    assert!(rt;
        ends(
            &rt,
            &evening(home, &["e go", "{\"restart\":true}"]),
            &PLAIN,
            &[
                Well,
                Called(&[]),
                Errors(""),
                Runs(1),
                End(2, EndCause::SwitchedOff),
                Stored(
                    "{\"last\":{\"a\":\"2024-05-01T20:00:00.000Z\"},\"switches\":{\"a\":true},\"version\":2}"
                ),
            ]
        ) && ends(
            &rt,
            &evening(home, &["e go"]),
            &PLAIN,
            &[Stored(
                "{\"last\":{\"a\":\"2024-05-01T20:00:00.000Z\"},\"switches\":{\"a\":false},\"version\":2}"
            )]
        )
    );
}

#[test]
fn of_two_attempts_at_one_entry_the_later_replaces_the_earlier(rt: HostRuntime) {
    let home =
        "automation: [{alias: a, mode: restart, triggers: [{trigger: state, entity_id: light.x}, {trigger: state, entity_id: light.x, to: 'on'}], actions: [{action: notify.x}]}]";
    assert!(rt; calls(&rt, home, &["r light.x on"], &["a 2/1 notify.x"]));
}

#[test]
fn waits_count_to_the_limit_of_parallel_runs(rt: HostRuntime) {
    let home =
        "automation: [{alias: a, mode: parallel, max: 2, triggers: [{trigger: event, event_type: go}], actions: [{if: [{condition: state, entity_id: light.x, state: ['on', dim]}], then: [{stop: done}], else: [{wait_for_trigger: [{trigger: state, entity_id: light.x, to: 'on'}]}]}, {action: notify.x}]}]";
    let lines = ["e go", "e go", "e go", "r light.x on", "e go"];
    let want = ["a 1/1 notify.x", "a 2/1 notify.x"];
    assert!(rt; calls(&rt, home, &lines[..3], &[]) && calls(&rt, home, &lines, &want));
}

const NOTIFIES: &str =
    "automation: [{alias: a, triggers: [{trigger: event, event_type: go}], actions: [{action: notify.x}]}]";

/// Whether each stored text is refused with this line, before anything is booted.
fn are_refused<R: Abort + Threads + Wait + Sync + Alloc<A = Global>>(
    rt: &R,
    rows: &[(&'static str, &str)],
) -> bool {
    for row in rows {
        let mut outside = PLAIN;
        outside.stored = Some(row.0);
        let facts = [Errors(row.1), Entries(0)];
        if !ends(rt, &evening(NOTIFIES, &["e go"]), &outside, &facts) {
            return false;
        }
    }
    true
}

#[test]
fn a_stored_switch_holds_and_a_bad_store_is_refused(rt: HostRuntime) {
    let off = "{\"last\":{},\"switches\":{\"a\":false},\"version\":2}";
    let mut outside = PLAIN;
    outside.stored = Some("{\"switches\":{\"a\":false},\"version\":1}");
    let facts = [Well, Output(""), Stored(off)];
    let refused = [
        ("{", "hearth: store refused S1\n"),
        ("{\"version\":2}", "hearth: store refused S2\n"),
        ("{\"version\":3}", "hearth: store refused S3\n"),
    ];
    assert!(rt;
        ends(&rt, &evening(NOTIFIES, &["e go"]), &outside, &facts) && are_refused(&rt, &refused)
    );
}

#[test]
fn when_automations_last_triggered_is_taken_from_the_store_and_kept(rt: HostRuntime) {
    let home =
        "automation: [{alias: a, triggers: [{trigger: event, event_type: go}], actions: []}, {alias: b, triggers: [{trigger: homeassistant, event: start}], actions: []}]";
    let mut outside = PLAIN;
    outside.stored = Some(
        "{\"last\":{\"a\":\"2023-01-02T03:04:05Z\",\"b\":\"2023-01-02T03:04:05Z\",\"z\":\"2023-01-02T03:04:05Z\"},\"switches\":{},\"version\":2}",
    );
    let kept = [
        "{\"last\":{\"a\":\"2023-01-02T03:04:05.000Z\",\"b\":\"2024-05-01T20:00:00.000Z\"},\"switches\":{\"a\":true,\"b\":true},\"version\":2}",
        "{\"last\":{\"a\":\"2023-01-02T03:04:05.000Z\",\"b\":\"2024-05-01T20:00:01.000Z\"},\"switches\":{\"a\":true,\"b\":true},\"version\":2}",
        "{\"last\":{\"a\":\"2024-05-01T20:00:01.000Z\",\"b\":\"2024-05-01T20:00:01.000Z\"},\"switches\":{\"a\":true,\"b\":true},\"version\":2}",
    ];
    let lines = ["m 20:00:01", "{\"restart\":true}", "e go", "m 20:00:02"];
    assert!(rt;
        ends(
            &rt,
            &evening(home, &lines[..1]),
            &outside,
            &[Well, Stored(kept[0])]
        ) && ends(
            &rt,
            &evening(home, &lines[..2]),
            &outside,
            &[Well, Stored(kept[1])]
        ) && ends(
            &rt,
            &evening(home, &lines),
            &outside,
            &[Well, Stored(kept[2])]
        )
    );
}
