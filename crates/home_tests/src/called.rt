//! Scripts that are called by name: who waits for them, those that call themselves, and those that are ended.
use crate::day::Fact::{Called, End, Entries, Errors, Runs, Well};
use crate::day::{RESTART, calls, ends, evening, gives};
use crate::files::PLAIN;
use crate::sources::are_replayed;
use ha_model::EndCause;

const GREET: &str =
    "automation: [{alias: a, triggers: [{trigger: event, event_type: go}], actions: [{action: script.greet, data: {who: Ann}}, {action: notify.a}]}]\nscript: {greet: {sequence: [{delay: 5}, {action: notify.s, data: {who: \"{{ who }}\"}}]}}";

const GREET_LINES: [&str; 2] = ["e go", "m 20:00:05"];

const GREET_CALLS: [&str; 2] = [
    "{\"run\":\"script.greet\",\"number\":1,\"call\":1,\"service\":\"notify.s\",\"target\":[],\"data\":{\"who\":\"Ann\"}}",
    "a 1/1 notify.a",
];

/// The boot, the event, the call, the delay's begin, the moment, the delay's end, the script's call, and two places of the caller.
#[test]
fn who_calls_a_greeting_goes_on_behind_it(rt: HostRuntime) {
    assert!(rt;
        ends(
            &rt,
            &evening(GREET, &GREET_LINES),
            &PLAIN,
            &[
                Well,
                Called(&GREET_CALLS),
                Errors(""),
                Entries(9),
                Runs(2),
                End(8, EndCause::Done),
            ]
        )
    );
}

const GREET_ON: &str =
    "automation: [{alias: a, triggers: [{trigger: event, event_type: go}], actions: [{action: script.turn_on, target: {entity_id: script.greet}, data: {variables: {who: Bo}}}, {action: notify.a}]}]\nscript: {greet: {sequence: [{delay: 5}, {action: notify.s, data: {who: \"{{ who }}\"}}]}}";

/// The caller needs no second place.
#[test]
fn who_turns_a_greeting_on_goes_on_at_once(rt: HostRuntime) {
    let want = [
        "a 1/1 notify.a",
        "{\"run\":\"script.greet\",\"number\":1,\"call\":1,\"service\":\"notify.s\",\"target\":[],\"data\":{\"who\":\"Bo\"}}",
    ];
    assert!(rt;
        ends(
            &rt,
            &evening(GREET_ON, &GREET_LINES),
            &PLAIN,
            &[
                Well,
                Called(&want),
                Errors(""),
                Entries(8),
                Runs(2),
                End(3, EndCause::Done),
            ]
        )
    );
}

const SLOW: &str =
    "automation: [{alias: a, triggers: [{trigger: event, event_type: go}], actions: [{action: script.s}, {action: notify.after}]}, {alias: b, triggers: [{trigger: event, event_type: halt}], actions: [{action: script.turn_off, target: {entity_id: script.s}}]}]\nscript: {s: {sequence: [{delay: 5}, {action: notify.s}]}}";

#[test]
fn who_calls_goes_on_when_the_called_run_has_ended(rt: HostRuntime) {
    let want = ["script.s 1/1 notify.s", "a 1/1 notify.after"];
    assert!(rt;
        calls(&rt, SLOW, &["e go"], &[]) && calls(&rt, SLOW, &["e go", "m 20:00:05"], &want)
    );
}

#[test]
fn who_calls_goes_on_where_the_called_run_is_turned_off(rt: HostRuntime) {
    let want = ["a 1/1 notify.after"];
    assert!(rt; calls(&rt, SLOW, &["e go", "e halt", "m 20:00:05"], &want));
}

#[test]
fn a_restart_ends_who_calls_and_who_was_called(rt: HostRuntime) {
    assert!(rt; calls(&rt, SLOW, &["e go", RESTART, "m 20:00:05"], &[]));
}

#[test]
fn nobody_waits_for_a_script_that_is_turned_on(rt: HostRuntime) {
    let home =
        "automation: [{alias: a, triggers: [{trigger: event, event_type: go}], actions: [{action: script.turn_on, target: {entity_id: [script.s, script.no, script.s]}, data: {variables: {n: 2}}}, {action: notify.after}]}]\nscript: {s: {sequence: [{delay: 5}, {action: notify.s, data: {n: \"{{ n }}\"}}]}}";
    let want = [
        "a 1/1 notify.after",
        "{\"run\":\"script.s\",\"number\":1,\"call\":1,\"service\":\"notify.s\",\"target\":[],\"data\":{\"n\":2}}",
    ];
    assert!(rt; calls(&rt, home, &["e go", "m 20:00:05"], &want));
}

#[test]
fn a_call_of_what_is_no_script_is_written(rt: HostRuntime) {
    let home =
        "automation: [{alias: a, triggers: [{trigger: event, event_type: go}], actions: [{action: script.no}, {action: script.toggle}]}]\nscript: {s: {sequence: [{delay: 5}]}}";
    let want = ["a 1/1 script.no", "a 1/2 script.toggle"];
    assert!(rt; calls(&rt, home, &["e go"], &want));
}

/// A script of mode single that calls itself: its run has not ended, so there is no other, and it goes on at once.
#[test]
fn a_single_script_that_calls_itself_goes_on(rt: HostRuntime) {
    let home =
        "automation: [{alias: a, triggers: [{trigger: event, event_type: go}], actions: [{action: script.s}, {action: notify.after}]}]\nscript: {s: {sequence: [{action: script.s}, {action: notify.s}]}}";
    let want = ["script.s 1/1 notify.s", "a 1/1 notify.after"];
    assert!(rt; calls(&rt, home, &["e go"], &want));
}

/// Of mode queued: the run that it calls waits behind it, and it waits for that run, for ever; the journal is quiet.
#[test]
fn a_queued_script_that_calls_itself_waits_for_ever(rt: HostRuntime) {
    let home =
        "automation: [{alias: a, triggers: [{trigger: event, event_type: go}], actions: [{action: script.s}, {action: notify.after}]}]\nscript: {s: {mode: queued, sequence: [{action: script.s}, {action: notify.s}]}}";
    assert!(rt;
        ends(
            &rt,
            &evening(home, &["e go", "m 20:00:05"]),
            &PLAIN,
            &[Well, Called(&[]), Errors(""), Entries(5)]
        )
    );
}

const TWICE_RESTART: &str =
    "automation: [{alias: a, triggers: [{trigger: event, event_type: go}], actions: [{action: script.s, data: {n: 1}}, {action: notify.after}]}]\nscript: {s: {mode: restart, sequence: [{if: \"{{ n == 1 }}\", then: [{action: script.s, data: {n: 2}}, {action: notify.lost}]}, {action: notify.s}]}}";

/// Of mode restart: the run that it calls replaces it, and who called it goes on there.
#[test]
fn a_script_that_restarts_itself_is_replaced(rt: HostRuntime) {
    let want = ["a 1/1 notify.after", "script.s 2/1 notify.s"];
    assert!(rt; calls(&rt, TWICE_RESTART, &["e go"], &want));
}

const TWICE_PARALLEL: &str =
    "automation: [{alias: a, triggers: [{trigger: event, event_type: go}], actions: [{action: script.s, data: {n: 1}}, {action: notify.after}]}]\nscript: {s: {mode: parallel, sequence: [{if: \"{{ n == 1 }}\", then: [{action: script.s, data: {n: 2}}, {action: notify.back}]}, {action: notify.s}]}}";

#[test]
fn a_parallel_script_that_calls_itself_goes_on_behind_its_second_run(rt: HostRuntime) {
    let want = [
        "script.s 2/1 notify.s",
        "script.s 1/1 notify.back",
        "script.s 1/2 notify.s",
        "a 1/1 notify.after",
    ];
    assert!(rt; calls(&rt, TWICE_PARALLEL, &["e go"], &want));
}

const QUEUE: &str =
    "automation: [{alias: a, mode: parallel, triggers: [{trigger: event, event_type: go}], actions: [{action: script.s}, {action: notify.after}]}, {alias: b, triggers: [{trigger: event, event_type: halt}], actions: [{action: script.turn_off, target: {entity_id: script.s}}]}]\nscript: {s: {mode: queued, sequence: [{delay: 5}, {action: notify.s}]}}";

#[test]
fn who_calls_waits_for_a_run_in_a_queue(rt: HostRuntime) {
    let want = [
        "script.s 1/1 notify.s",
        "a 1/1 notify.after",
        "script.s 2/1 notify.s",
        "a 2/1 notify.after",
    ];
    assert!(rt;
        calls(
            &rt,
            QUEUE,
            &["e go", "e go", "m 20:00:05", "m 20:00:10"],
            &want
        )
    );
}

#[test]
fn a_queue_that_is_turned_off_is_empty(rt: HostRuntime) {
    let want = ["a 1/1 notify.after", "a 2/1 notify.after"];
    assert!(rt; calls(&rt, QUEUE, &["e go", "e go", "e halt", "m 20:00:05"], &want));
}

#[test]
fn lists_of_a_block_wait_for_runs_of_their_own(rt: HostRuntime) {
    let home =
        "automation: [{alias: a, triggers: [{trigger: event, event_type: go}], actions: [{parallel: [{sequence: [{action: script.s}, {action: notify.one}]}, {sequence: [{action: script.t}, {action: notify.two}]}]}, {action: notify.after}]}]\nscript: {s: {sequence: [{delay: 5}, {action: notify.s}]}, t: {sequence: [{action: notify.t}]}}";
    let want = [
        "script.t 1/1 notify.t",
        "a 1/1 notify.two",
        "script.s 1/1 notify.s",
        "a 1/2 notify.one",
        "a 1/3 notify.after",
    ];
    assert!(rt; calls(&rt, home, &["e go", "m 20:00:05"], &want));
}

#[test]
fn of_two_lists_that_call_one_script_the_second_goes_on_at_once(rt: HostRuntime) {
    let home =
        "automation: [{alias: a, triggers: [{trigger: event, event_type: go}], actions: [{parallel: [{sequence: [{action: script.s}, {action: notify.one}]}, {sequence: [{action: script.s}, {action: notify.two}]}]}, {action: notify.after}]}]\nscript: {s: {sequence: [{delay: 5}, {action: notify.s}]}}";
    let want = [
        "a 1/1 notify.two",
        "script.s 1/1 notify.s",
        "a 1/2 notify.one",
        "a 1/3 notify.after",
    ];
    assert!(rt; calls(&rt, home, &["e go", "m 20:00:05"], &want));
}

#[test]
fn scripts_that_call_each_other_end_from_the_last_to_the_first(rt: HostRuntime) {
    let home =
        "automation: [{alias: a, triggers: [{trigger: event, event_type: go}], actions: [{action: script.s}, {action: notify.a}]}]\nscript: {s: {sequence: [{action: script.t}, {action: notify.s}]}, t: {sequence: [{action: script.u}, {action: notify.t}]}, u: {sequence: [{delay: 1}, {action: notify.u}]}}";
    let want = [
        "script.u 1/1 notify.u",
        "script.t 1/1 notify.t",
        "script.s 1/1 notify.s",
        "a 1/1 notify.a",
    ];
    assert!(rt; calls(&rt, home, &["e go", "m 20:00:01"], &want));
}

/// A run that failed, one that stopped and one that had nothing to do.
#[test]
fn what_ends_a_called_run_makes_no_difference(rt: HostRuntime) {
    let home =
        "automation: [{alias: a, triggers: [{trigger: event, event_type: go}], actions: [{action: script.s}, {action: script.t}, {action: script.u}, {action: notify.after}]}]\nscript: {s: {sequence: [{action: notify.s, data: {n: \"{{ states('sensor.no')|int }}\"}}]}, t: {sequence: [{stop: x}, {action: notify.t}]}, u: {sequence: []}}";
    assert!(rt;
        gives(
            &rt,
            &evening(home, &["e go"]),
            &["a 1/1 notify.after"],
            "run 2 failed F1\n"
        )
    );
}

#[test]
fn a_called_run_goes_on_where_its_caller_ends(rt: HostRuntime) {
    let lines = [
        "e go",
        "{\"switch\":\"automation.a\",\"to\":\"off\"}",
        "m 20:00:05",
    ];
    assert!(rt; calls(&rt, SLOW, &lines, &["script.s 1/1 notify.s"]));
}

/// The second run finds one of the script that has not ended, and goes on at once.
#[test]
fn a_called_run_goes_on_where_its_caller_is_replaced(rt: HostRuntime) {
    let home =
        "automation: [{alias: a, mode: restart, triggers: [{trigger: event, event_type: go}], actions: [{action: script.s}, {action: notify.after}]}]\nscript: {s: {sequence: [{delay: 5}, {action: notify.s}]}}";
    let want = ["a 2/1 notify.after", "script.s 1/1 notify.s"];
    assert!(rt; calls(&rt, home, &["e go", "e go", "m 20:00:05"], &want));
}

#[test]
fn a_call_that_finds_the_queue_full_goes_on(rt: HostRuntime) {
    let home =
        "automation: [{alias: a, mode: parallel, triggers: [{trigger: event, event_type: go}], actions: [{action: script.s}, {action: notify.after}]}]\nscript: {s: {mode: queued, max: 1, sequence: [{delay: 5}, {action: notify.s}]}}";
    let want = [
        "a 2/1 notify.after",
        "script.s 1/1 notify.s",
        "a 1/1 notify.after",
    ];
    assert!(rt; calls(&rt, home, &["e go", "e go", "m 20:00:05"], &want));
}

/// The run is done by its last step, which also ends the one behind it before that has begun.
#[test]
fn a_script_that_turns_itself_off_empties_its_queue(rt: HostRuntime) {
    let home =
        "automation: [{alias: a, mode: parallel, triggers: [{trigger: event, event_type: go}], actions: [{action: script.s}, {action: notify.after}]}]\nscript: {s: {mode: queued, sequence: [{delay: 5}, {action: notify.s}, {action: script.turn_off, target: {entity_id: script.s}}]}}";
    let want = [
        "script.s 1/1 notify.s",
        "a 1/1 notify.after",
        "a 2/1 notify.after",
    ];
    assert!(rt;
        calls(
            &rt,
            home,
            &["e go", "e go", "m 20:00:05", "m 20:00:10"],
            &want
        )
    );
}

/// The run that called the other goes with it, and who called it goes on once.
#[test]
fn scripts_that_call_each_other_are_ended_together(rt: HostRuntime) {
    let home =
        "automation: [{alias: a, triggers: [{trigger: event, event_type: go}], actions: [{action: script.s}, {action: notify.after}]}, {alias: b, triggers: [{trigger: event, event_type: halt}], actions: [{action: script.turn_off, target: {entity_id: [script.s, script.t]}}]}]\nscript: {s: {sequence: [{action: script.t}, {action: notify.s}]}, t: {sequence: [{delay: 5}, {action: notify.t}]}}";
    let want = ["a 1/1 notify.after"];
    assert!(rt; calls(&rt, home, &["e go", "e halt", "m 20:00:05"], &want));
}

#[test]
fn the_numbers_of_a_scripts_runs_go_on_over_restarts(rt: HostRuntime) {
    let home =
        "automation: [{alias: a, triggers: [{trigger: event, event_type: go}], actions: [{action: script.s}, {action: notify.after}]}]\nscript: {s: {sequence: [{action: notify.s}]}}";
    let want = [
        "script.s 1/1 notify.s",
        "a 1/1 notify.after",
        "script.s 2/1 notify.s",
        "a 2/1 notify.after",
    ];
    assert!(rt; calls(&rt, home, &["e go", RESTART, "e go"], &want));
}

/// Scripts with the names of services: such a service is never a script of that name.
#[test]
fn a_script_that_is_named_as_a_service_is_reached_by_turn_on_alone(rt: HostRuntime) {
    let home =
        "automation: [{alias: a, triggers: [{trigger: event, event_type: go}], actions: [{action: script.turn_on}, {action: script.turn_off}, {action: script.toggle}, {action: script.turn_on, target: {entity_id: [script.turn_on, script.toggle]}}]}]\nscript: {turn_on: {sequence: [{action: notify.on}]}, toggle: {sequence: [{action: notify.toggle}]}}";
    let want = [
        "a 1/1 script.toggle",
        "script.turn_on 1/1 notify.on",
        "script.toggle 1/1 notify.toggle",
    ];
    assert!(rt; calls(&rt, home, &["e go"], &want));
}

/// A script sees what is handed over, `trigger` too; the trigger condition looks at the run's own trigger, which has no id.
#[test]
fn variables_of_a_script(rt: HostRuntime) {
    let home =
        "automation: [{alias: a, triggers: [{trigger: event, event_type: go}], actions: [{variables: {m: 1}}, {action: script.s, data: {n: \"{{ m + 1 }}\"}}, {action: script.turn_on, target: {entity_id: script.t}, data: {variables: {trigger: {id: k}}}}]}]\nscript: {s: {fields: {m: {default: 5}}, sequence: [{action: notify.s, data: {n: \"{{ n }}\", m: \"{{ m }}\", p: \"{{ trigger.platform }}\"}}]}, t: {sequence: [{action: notify.t, data: {id: \"{{ trigger.id }}\"}}, {condition: trigger, id: k}, {action: notify.never}]}}";
    let want = [
        "{\"run\":\"script.s\",\"number\":1,\"call\":1,\"service\":\"notify.s\",\"target\":[],\"data\":{\"n\":2,\"m\":\"None\",\"p\":\"None\"}}",
        "{\"run\":\"script.t\",\"number\":1,\"call\":1,\"service\":\"notify.t\",\"target\":[],\"data\":{\"id\":\"k\"}}",
    ];
    assert!(rt; calls(&rt, home, &["e go"], &want));
}

/// The trace of a run has the calls and the ends of scripts, and is taken again.
#[test]
fn calls_of_scripts_are_replayed(rt: HostRuntime) {
    assert!(rt;
        are_replayed(
            &rt,
            &[
                (GREET, &GREET_LINES, &GREET_CALLS),
                (
                    SLOW,
                    &["e go", "e halt", "e go", RESTART, "e go", "m 20:00:05"],
                    &[
                        "a 1/1 notify.after",
                        "script.s 3/1 notify.s",
                        "a 3/1 notify.after",
                    ]
                ),
                (
                    QUEUE,
                    &["e go", "e go", "m 20:00:05", "e go", "e halt"],
                    &[
                        "script.s 1/1 notify.s",
                        "a 1/1 notify.after",
                        "a 2/1 notify.after",
                        "a 3/1 notify.after",
                    ]
                ),
            ]
        )
    );
}
