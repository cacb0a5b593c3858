//! Reloads: what is kept goes on, what changed ends, and what is new begins.
use crate::day::Fact::{Called, End, Entries, Errors, NotKept, Runs, SecondEnd, Stored, Well};
use crate::day::{Lines, RESTART, ends, evening, gives, holds, run_sources};
use crate::files::{Outside, PLAIN};
use crate::sources::{are_replayed, are_traced};
use ha_io::OpenGate;
use ha_model::EndCause;
use std::alloc::{AllocError, Global};
use std::process::Abort;
use std::sync::Wait;
use std::thread::Threads;

/// Two automations that call five seconds after an event.
const TWO: &str =
    "automation: [{alias: a, triggers: [{trigger: event, event_type: go}], actions: [{delay: 5}, {action: notify.a}]}, {alias: b, triggers: [{trigger: event, event_type: go}], actions: [{delay: 5}, {action: notify.b}]}]";

/// The second waits for longer.
const TWO_SLOWER: &str =
    "reload automation: [{alias: a, triggers: [{trigger: event, event_type: go}], actions: [{delay: 5}, {action: notify.a}]}, {alias: b, triggers: [{trigger: event, event_type: go}], actions: [{delay: 6}, {action: notify.b}]}]";

/// The boot, the event, two delays, the reload, a moment, the first delay's end, its call, and a moment.
#[test]
fn a_run_of_what_changed_ends_and_another_goes_on(rt: HostRuntime) {
    let lines = ["e go", TWO_SLOWER, "m 20:00:05", "m 20:00:06"];
    let want = ["a 1/1 notify.a"];
    assert!(rt;
        are_replayed(&rt, &[(TWO, &lines, &want)])
            && ends(
                &rt,
                &evening(TWO, &lines),
                &PLAIN,
                &[
                    Well,
                    Called(&want),
                    Errors(""),
                    Entries(9),
                    Runs(2),
                    End(7, EndCause::Done),
                    SecondEnd(4, EndCause::Reloaded),
                    Stored(
                        "{\"last\":{\"a\":\"2024-05-01T20:00:00.000Z\",\"b\":\"2024-05-01T20:00:00.000Z\"},\"switches\":{\"a\":true,\"b\":true},\"version\":2}"
                    ),
                ]
            )
    );
}

/// A tab begins its text.
const NO_TEXT: &str = "{\"reload\":\"\\tx\"}";

#[test]
fn a_text_that_is_no_configuration_is_refused(rt: HostRuntime) {
    assert!(rt;
        ends(
            &rt,
            &evening("[]", &[NO_TEXT]),
            &PLAIN,
            &[
                Well,
                Called(&[]),
                Errors("source 0 line 0: L12\n"),
                Entries(2),
                Stored("{\"last\":{},\"switches\":{},\"version\":2}"),
            ]
        ) && gives(
            &rt,
            &evening(TWO, &["e go", NO_TEXT, "m 20:00:05"]),
            &["a 1/1 notify.a", "b 1/1 notify.b"],
            "source 0 line 1: L12\n",
        )
    );
}

const TRACE: &str =
    "{\"boot\":{\"config\":\"[]\\n\",\"stored\":null,\"start\":\"2024-05-01T20:00:00.000Z\",\"zone\":\"UTC\"}}\n{\"source\":0,\"number\":0,\"cmd\":{\"reload\":\"[]\"}}\n{\"source\":0,\"number\":1,\"cmd\":{\"refused\":\"L12\"}}\n{\"source\":0,\"number\":2,\"cmd\":{\"restart\":true}}\n{\"again\":1}\n{\"source\":0,\"number\":3,\"cmd\":{\"moment\":\"2024-05-01T20:00:01.000Z\"}}\n{\"end\":6}\n";

#[test]
fn a_trace_has_the_text_of_a_reload(rt: HostRuntime) {
    let lines = ["reload []", NO_TEXT, RESTART, "m 20:00:01"];
    assert!(rt; are_traced(&rt, &[("[]\n", &lines, TRACE)]));
}

/// It calls at an event.
const ONE: &str =
    "automation: [{alias: a, triggers: [{trigger: event, event_type: go}], actions: [{action: notify.a}]}]";

const ONE_BACK: &str =
    "reload automation: [{alias: a, triggers: [{trigger: event, event_type: go}], actions: [{action: notify.a}]}]";

const ONE_CHANGED: &str =
    "reload automation: [{alias: a, triggers: [{trigger: event, event_type: go}], actions: [{action: notify.a2}]}]";

/// Each is new, and the runs of the name are counted on.
#[test]
fn what_is_changed_and_changed_back_is_new_each_time(rt: HostRuntime) {
    let lines = ["e go", ONE_CHANGED, "e go", ONE_BACK, "e go"];
    let want = ["a 1/1 notify.a", "a 2/1 notify.a2", "a 3/1 notify.a"];
    assert!(rt; are_replayed(&rt, &[(ONE, &lines, &want)]));
}

const PAIR: &str =
    "automation: [{alias: a, triggers: [{trigger: event, event_type: go}], actions: [{action: notify.a}]}, {alias: b, triggers: [{trigger: event, event_type: go}], actions: [{action: notify.b}]}]";

const PAIR_TURNED: &str =
    "reload automation: [{alias: b, triggers: [{trigger: event, event_type: go}], actions: [{action: notify.b}]}, {alias: a, triggers: [{trigger: event, event_type: go}], actions: [{action: notify.a}]}]";

const THREE: &str =
    "reload automation: [{alias: c, triggers: [{trigger: event, event_type: go}], actions: [{action: notify.c}]}, {alias: a, triggers: [{trigger: event, event_type: go}], actions: [{action: notify.a}]}]";

#[test]
fn automations_are_asked_in_the_order_that_is_in_force(rt: HostRuntime) {
    let turned = ["e go", PAIR_TURNED, "e go"];
    let more = [THREE, "e go"];
    assert!(rt;
        are_replayed(
            &rt,
            &[(
                PAIR,
                &turned,
                &[
                    "a 1/1 notify.a",
                    "b 1/1 notify.b",
                    "b 2/1 notify.b",
                    "a 2/1 notify.a",
                ],
            )]
        ) && are_replayed(&rt, &[(PAIR, &more, &["c 1/1 notify.c", "a 1/1 notify.a"])])
    );
}

/// They name what is in force, and nothing that went.
#[test]
fn lines_name_what_is_in_force(rt: HostRuntime) {
    let lines = [
        THREE,
        "{\"switch\":\"automation.b\",\"to\":\"off\"}",
        "{\"trigger\":\"automation.b\"}",
        "{\"trigger\":\"automation.c\"}",
    ];
    assert!(rt;
        gives(
            &rt,
            &evening(PAIR, &lines),
            &["c 1/1 notify.c"],
            "source 0 line 1: L9\nsource 0 line 2: L9\n",
        )
    );
}

const OFF: &str = "{\"switch\":\"automation.a\",\"to\":\"off\"}";

/// One calls at an event where the other has been off for five seconds.
const SEEN_OFF: &str =
    "automation: [{alias: a, triggers: [{trigger: event, event_type: go}], actions: [{action: notify.a}]}, {alias: s, triggers: [{trigger: event, event_type: see}], conditions: [{condition: state, entity_id: automation.a, state: 'off', for: 5}], actions: [{action: notify.s}]}]";

const SEEN_OFF_CHANGED: &str =
    "reload automation: [{alias: a, triggers: [{trigger: event, event_type: go}], actions: [{action: notify.a2}]}, {alias: s, triggers: [{trigger: event, event_type: see}], conditions: [{condition: state, entity_id: automation.a, state: 'off', for: 5}], actions: [{action: notify.s}]}]";

/// So are the moments of its state.
#[test]
fn a_changed_one_that_was_off_stays_off(rt: HostRuntime) {
    let lines = [
        OFF,
        "m 20:00:04",
        SEEN_OFF_CHANGED,
        "m 20:00:05",
        "e see",
        "e go",
    ];
    assert!(rt; are_replayed(&rt, &[(SEEN_OFF, &lines, &["s 1/1 notify.s"])]));
}

/// One calls at an event where the other has been on for five seconds.
const SEEN_ON: &str =
    "automation: [{alias: a, triggers: [{trigger: event, event_type: go}], actions: [{action: notify.a}]}, {alias: s, triggers: [{trigger: event, event_type: see}], conditions: [{condition: state, entity_id: automation.a, state: 'on', for: 5}], actions: [{action: notify.s}]}]";

const SEEN_ALONE: &str =
    "reload automation: [{alias: s, triggers: [{trigger: event, event_type: see}], conditions: [{condition: state, entity_id: automation.a, state: 'on', for: 5}], actions: [{action: notify.s}]}]";

const SEEN_AGAIN: &str =
    "reload automation: [{alias: a, triggers: [{trigger: event, event_type: go}], actions: [{action: notify.a}]}, {alias: s, triggers: [{trigger: event, event_type: see}], conditions: [{condition: state, entity_id: automation.a, state: 'on', for: 5}], actions: [{action: notify.s}]}]";

/// Its runs are counted on.
#[test]
fn a_name_that_comes_back_is_on_from_then(rt: HostRuntime) {
    let lines = [
        "e go",
        OFF,
        SEEN_ALONE,
        "e go",
        "m 20:00:04",
        SEEN_AGAIN,
        "e go",
        "m 20:00:08",
        "e see",
        "m 20:00:09",
        "e see",
    ];
    let want = ["a 1/1 notify.a", "a 2/1 notify.a", "s 1/1 notify.s"];
    assert!(rt; are_replayed(&rt, &[(SEEN_ON, &lines, &want)]));
}

const STARTED_ON: &str =
    "reload automation: [{alias: a, initial_state: true, triggers: [{trigger: event, event_type: go}], actions: [{action: notify.a}]}, {alias: w, triggers: [{trigger: state, entity_id: automation.a, to: 'on'}], actions: [{action: notify.w}]}]";

const TURNED_ON: &str =
    "automation: [{alias: a, triggers: [{trigger: event, event_type: go}], actions: [{action: notify.a}]}, {alias: w, triggers: [{trigger: state, entity_id: automation.a, to: 'on'}], actions: [{action: notify.w}]}]";

const KEPT_ON: &str =
    "automation: [{alias: a, initial_state: true, triggers: [{trigger: event, event_type: go}], actions: [{action: notify.a}]}]";

const KEPT_ON_AND_MORE: &str =
    "reload automation: [{alias: a, initial_state: true, triggers: [{trigger: event, event_type: go}], actions: [{action: notify.a}]}, {alias: b, triggers: [{trigger: event, event_type: go}], actions: [{action: notify.b}]}]";

/// What is kept has its switch before, whatever its initial state.
#[test]
fn a_changed_one_has_its_initial_state(rt: HostRuntime) {
    let changed = [OFF, STARTED_ON, "e go"];
    let kept = [OFF, KEPT_ON_AND_MORE, "e go"];
    assert!(rt;
        are_replayed(
            &rt,
            &[(TURNED_ON, &changed, &["w 1/1 notify.w", "a 1/1 notify.a"])]
        ) && are_replayed(&rt, &[(KEPT_ON, &kept, &["b 1/1 notify.b"])])
    );
}

/// One calls where a light is on for five seconds, one five seconds after an event.
const HELD: &str =
    "automation: [{alias: h, triggers: [{trigger: state, entity_id: light.x, to: 'on', for: 5}], actions: [{action: notify.h}]}, {alias: a, triggers: [{trigger: event, event_type: go}], actions: [{delay: 5}, {action: notify.a}]}]";

const HELD_AND_MORE: &str =
    "reload automation: [{alias: c, triggers: [{trigger: event, event_type: go}], actions: [{action: notify.c}]}, {alias: a, triggers: [{trigger: event, event_type: go}], actions: [{delay: 5}, {action: notify.a}]}, {alias: h, triggers: [{trigger: state, entity_id: light.x, to: 'on', for: 5}], actions: [{action: notify.h}]}]";

const HELD_CHANGED: &str =
    "reload automation: [{alias: h, triggers: [{trigger: state, entity_id: light.x, to: 'on', for: 5}], actions: [{action: notify.h2}]}, {alias: a, triggers: [{trigger: event, event_type: go}], actions: [{delay: 5}, {action: notify.a}]}]";

/// A hold of what changed is lost, and begins where it is met again.
#[test]
fn a_hold_and_a_delay_of_what_is_kept_go_on(rt: HostRuntime) {
    let kept = [
        "r light.x on",
        "e go",
        "m 20:00:03",
        HELD_AND_MORE,
        "m 20:00:05",
    ];
    let changed = [
        "r light.x on",
        "m 20:00:03",
        HELD_CHANGED,
        "m 20:00:05",
        "m 20:00:20",
        "r light.x off",
        "r light.x on",
        "m 20:00:25",
    ];
    assert!(rt;
        are_replayed(&rt, &[(HELD, &kept, &["a 1/1 notify.a", "h 1/1 notify.h"])])
            && are_replayed(&rt, &[(HELD, &changed, &["h 1/1 notify.h2"])])
    );
}

/// One calls where an automation appears or is another, one where it comes to be on.
const WATCHES: &str =
    "automation: [{alias: w, triggers: [{trigger: state, entity_id: automation.x}], actions: [{action: notify.w}]}, {alias: t, triggers: [{trigger: template, value_template: '{{ is_state(''automation.x'', ''on'') }}'}], actions: [{action: notify.t}]}]";

const WATCHES_MORE: &str =
    "reload automation: [{alias: w, triggers: [{trigger: state, entity_id: automation.x}], actions: [{action: notify.w}]}, {alias: t, triggers: [{trigger: template, value_template: '{{ is_state(''automation.x'', ''on'') }}'}], actions: [{action: notify.t}]}, {alias: x, triggers: [], actions: []}]";

const WATCHES_ALONE: &str =
    "reload automation: [{alias: w, triggers: [{trigger: state, entity_id: automation.x}], actions: [{action: notify.w}]}, {alias: t, triggers: [{trigger: template, value_template: '{{ is_state(''automation.x'', ''on'') }}'}], actions: [{action: notify.t}]}]";

#[test]
fn what_is_kept_sees_what_a_reload_brings(rt: HostRuntime) {
    let lines = [WATCHES_MORE, WATCHES_ALONE, WATCHES_MORE];
    let want = [
        "w 1/1 notify.w",
        "t 1/1 notify.t",
        "w 2/1 notify.w",
        "t 2/1 notify.t",
    ];
    assert!(rt; are_replayed(&rt, &[(WATCHES, &lines, &want)]));
}

/// It begins anew at an event, and where an automation appears.
const REPLACED: &str =
    "automation: [{alias: r, mode: restart, triggers: [{trigger: event, event_type: go}, {trigger: state, entity_id: automation.x}], actions: [{delay: 5}, {action: notify.r}]}]";

const REPLACED_MORE: &str =
    "reload automation: [{alias: r, mode: restart, triggers: [{trigger: event, event_type: go}, {trigger: state, entity_id: automation.x}], actions: [{delay: 5}, {action: notify.r}]}, {alias: x, triggers: [], actions: []}]";

/// The end comes before the attempt.
#[test]
fn a_run_of_what_is_kept_is_replaced_at_a_reload(rt: HostRuntime) {
    let lines = [
        "e go",
        "m 20:00:03",
        REPLACED_MORE,
        "m 20:00:05",
        "m 20:00:08",
    ];
    assert!(rt; are_replayed(&rt, &[(REPLACED, &lines, &["r 2/1 notify.r"])]));
}

/// Its runs wait for one another.
const QUEUED: &str =
    "automation: [{alias: a, mode: queued, triggers: [{trigger: event, event_type: go}], actions: [{delay: 5}, {action: notify.q}]}]";

const QUEUED_SLOWER: &str =
    "reload automation: [{alias: a, mode: queued, triggers: [{trigger: event, event_type: go}], actions: [{delay: 6}, {action: notify.q}]}]";

#[test]
fn a_queued_run_of_what_changed_never_begins(rt: HostRuntime) {
    let lines = [
        "e go",
        "e go",
        QUEUED_SLOWER,
        "m 20:00:05",
        "m 20:00:11",
        "e go",
        "m 20:00:17",
    ];
    assert!(rt; are_replayed(&rt, &[(QUEUED, &lines, &["a 3/1 notify.q"])]));
}

/// It calls a script, and then a service.
const CALLER: &str =
    "automation: [{alias: a, triggers: [{trigger: event, event_type: go}], actions: [{action: script.s}, {action: notify.after}]}]\nscript: {s: {sequence: [{delay: 5}, {action: notify.s}]}}";

/// The script is another one.
const CALLER_SLOWER: &str =
    "reload automation: [{alias: a, triggers: [{trigger: event, event_type: go}], actions: [{action: script.s}, {action: notify.after}]}]\\nscript: {s: {sequence: [{delay: 6}, {action: notify.s}]}}";

/// There is no script.
const CALLER_ALONE: &str =
    "reload automation: [{alias: a, triggers: [{trigger: event, event_type: go}], actions: [{action: script.s}, {action: notify.after}]}]";

#[test]
fn who_calls_goes_on_where_a_reload_ends_the_called_run(rt: HostRuntime) {
    let lines = ["e go", CALLER_SLOWER, "e go", "m 20:00:05", "m 20:00:06"];
    let without = [CALLER_ALONE, "e go"];
    assert!(rt;
        are_replayed(
            &rt,
            &[(
                CALLER,
                &lines,
                &[
                    "a 1/1 notify.after",
                    "script.s 2/1 notify.s",
                    "a 2/1 notify.after",
                ],
            )]
        ) && are_replayed(
            &rt,
            &[(CALLER, &without, &["a 1/1 script.s", "a 1/2 notify.after"])]
        )
    );
}

/// It calls at each start.
const STARTS: &str =
    "automation: [{alias: a, triggers: [{trigger: homeassistant, event: start}], actions: [{action: notify.one}]}]";

const STARTS_CHANGED: &str =
    "reload automation: [{alias: a, triggers: [{trigger: homeassistant, event: start}], actions: [{action: notify.two}]}]";

/// The first run ends before it takes a step.
#[test]
fn a_start_trigger_waits_for_the_next_start(rt: HostRuntime) {
    let lines = [STARTS_CHANGED, "m 20:00:01", RESTART, "m 20:00:02"];
    let want = ["a 2/1 notify.two"];
    assert!(rt;
        are_replayed(&rt, &[(STARTS, &lines, &want)])
            && ends(
                &rt,
                &evening(STARTS, &lines),
                &PLAIN,
                &[Well, Entries(7), Runs(2), End(1, EndCause::Reloaded)]
            )
    );
}

#[test]
fn a_reload_stays_in_force_behind_a_restart(rt: HostRuntime) {
    let lines = [THREE, RESTART, "e go"];
    let gone = ["e go", "reload []", RESTART, ONE_BACK, "e go"];
    assert!(rt;
        are_replayed(
            &rt,
            &[(PAIR, &lines, &["c 1/1 notify.c", "a 1/1 notify.a"])]
        ) && are_replayed(&rt, &[(ONE, &gone, &["a 1/1 notify.a", "a 2/1 notify.a"])])
    );
}

/// Whether of 65 reloads, with a restart among them, the last is refused, and a text that is no configuration by its own code.
fn are_counted<R: Abort + Threads + Wait + Sync + Alloc<A = Global>>(
    rt: &R,
) -> Result<bool, AllocError> {
    let mut lines = Vec::new(rt.alloc());
    for i in 0..66 {
        lines.push(if i == 40 { RESTART } else { "reload []" })?;
    }
    lines.push(NO_TEXT)?;
    let source = Lines {
        name: "a",
        lines: lines.as_slice(),
        failing_reads: &[],
    };
    let outcome = run_sources(rt, "[]", &[], &[source], &OpenGate::make())?;
    let errors = "source 0 line 65: L13\nsource 0 line 66: L12\n";
    Ok(holds(rt.alloc(), &outcome, &[Well, Entries(69), Errors(errors)]))
}

#[test]
fn the_65th_reload_is_refused(rt: HostRuntime) {
    assert!(rt; are_counted(&rt).unwrap_or(false));
}

/// It calls five seconds after an event.
const WRITTEN: &str =
    "automation: [{alias: a, triggers: [{trigger: event, event_type: go}], actions: [{delay: {seconds: 5}}, {action: notify.x, data: {v: '{{ 1+1 }}', n: 3}}]}]";

/// The same, in other words.
const WRITTEN_OTHERWISE: &str =
    "reload automation: [{alias: A, description: two, mode: single, trigger: [{platform: event, event_type: [go], id: 0}], condition: [], action: [{delay: 00:00:05}, {service: notify.x, data: {v: '{{ 1 + 1 }}', n: 3}}]}]";

/// A number is another one as it is written.
const WRITTEN_FIXED: &str =
    "reload automation: [{alias: a, triggers: [{trigger: event, event_type: go}], actions: [{delay: {seconds: 5}}, {action: notify.x, data: {v: '{{ 1+1 }}', n: 3.0}}]}]";

#[test]
fn what_is_read_alike_is_kept(rt: HostRuntime) {
    let kept = ["e go", WRITTEN_OTHERWISE, "m 20:00:05"];
    let changed = ["e go", WRITTEN_FIXED, "m 20:00:05"];
    let want =
        "{\"run\":\"a\",\"number\":1,\"call\":1,\"service\":\"notify.x\",\"target\":[],\"data\":{\"v\":2,\"n\":3}}";
    assert!(rt;
        are_replayed(&rt, &[(WRITTEN, &kept, &[want])])
            && are_replayed(&rt, &[(WRITTEN, &changed, &[])])
    );
}

/// The third of the keeper's loads and saves fails: the store is loaded, and saved at the start.
const NO_SAVE: Outside = Outside {
    stored: None,
    more_words: &[],
    failing_openings: &[],
    failing_config_reads: &[],
    failing_reads: &[],
    failing_writes: &[],
    zero_writes: &[],
    failing_error_writes: &[],
    failing_saves: &[3],
};

/// The same text, and another order.
#[test]
fn the_store_is_saved_where_a_switch_is_another(rt: HostRuntime) {
    assert!(rt;
        ends(
            &rt,
            &evening(ONE, &[ONE_BACK, ONE_CHANGED]),
            &NO_SAVE,
            &[Well, Entries(3)]
        ) && ends(
            &rt,
            &evening(PAIR, &[PAIR_TURNED]),
            &NO_SAVE,
            &[Well, Entries(2)]
        ) && ends(&rt, &evening(PAIR, &[ONE_BACK]), &NO_SAVE, &[NotKept])
    );
}
