//! Times of the day, patterns, and windows of time.
use crate::day::{Day, calls, gives};

const HALF_PAST_TWO: &str =
    "automation: [{alias: a, triggers: [{trigger: time, at: '02:30:00'}], actions: [{action: notify.x}]}]";

const CENTRAL_EUROPE: &str = "CET-1CEST,M3.5.0,M10.5.0/3";

#[test]
fn a_local_time_that_is_skipped_does_not_come(rt: HostRuntime) {
    let day = Day {
        home: HALF_PAST_TWO,
        start: "2024-03-31T00:50:00Z",
        zone: CENTRAL_EUROPE,
        lines: &["{\"moment\":\"2024-03-31T01:10:00Z\"}"],
    };
    assert!(rt; gives(&rt, &day, &[], ""));
}

#[test]
fn a_local_time_that_comes_twice_fires_twice(rt: HostRuntime) {
    let day = Day {
        home: HALF_PAST_TWO,
        start: "2024-10-27T00:00:00Z",
        zone: CENTRAL_EUROPE,
        lines: &[
            "{\"moment\":\"2024-10-27T00:45:00Z\"}",
            "{\"moment\":\"2024-10-27T01:45:00Z\"}",
        ],
    };
    assert!(rt; gives(&rt, &day, &["a 1/1 notify.x", "a 2/1 notify.x"], ""));
}

#[test]
fn a_moment_that_passes_many_times_fires_once(rt: HostRuntime) {
    let home =
        "automation: [{alias: a, triggers: [{trigger: time_pattern, minutes: /5}], actions: [{action: notify.x}]}]";
    let lines = ["{\"moment\":\"2024-05-03T20:00:00Z\"}"];
    assert!(rt; calls(&rt, home, &lines, &["a 1/1 notify.x"]));
}

#[test]
fn a_window_over_midnight_has_its_first_second_and_not_its_last(rt: HostRuntime) {
    let home =
        "automation: [{alias: a, triggers: [{trigger: event, event_type: go}], conditions: [{condition: time, after: '22:00', before: '06:00'}], actions: [{action: notify.x}]}]";
    let lines = [
        "m 21:59:59",
        "e go",
        "m 22:00:00",
        "e go",
        "{\"moment\":\"2024-05-02T06:00:00Z\"}",
        "e go",
    ];
    assert!(rt; calls(&rt, home, &lines, &["a 1/1 notify.x"]));
}
