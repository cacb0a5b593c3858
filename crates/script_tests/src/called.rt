//! Calls of scripts that are configured: who waits, and what comes behind the end of a run that was called.
use crate::play::{called_goes, goes, goes_with};
use ha_sight::Progress;
use std::alloc::Global;

const SCRIPTS: &str =
    "{wash: {sequence: [{action: light.x}]}, dry: {sequence: [], mode: restart}, turn_off: {sequence: []}}";

#[test]
fn a_call_of_a_script_waits_for_the_end_of_its_run(rt: HostRuntime) {
    let actions = "[{action: script.wash}, {action: notify.x}]";
    let begun = ["[] starts and waits", "m 20:00:05"];
    let ended = [
        "[] starts and waits",
        "m 20:00:05",
        "ended",
        "[] nothing",
        "[] notify.x",
    ];
    assert!(rt;
        goes_with(rt.alloc(), SCRIPTS, actions, &begun, Progress::Going)
            && goes_with(rt.alloc(), SCRIPTS, actions, &ended, Progress::Done)
    );
}

#[test]
fn the_last_action_waits_too(rt: HostRuntime) {
    let actions = "[{action: script.dry, data: {n: 1}}]";
    let begun = ["[] starts and waits"];
    let ended = ["[] starts and waits", "ended", "[] nothing"];
    assert!(rt;
        goes_with(rt.alloc(), SCRIPTS, actions, &begun, Progress::Going)
            && goes_with(rt.alloc(), SCRIPTS, actions, &ended, Progress::Done)
    );
}

#[test]
fn the_end_of_a_called_run_sets_no_variable(rt: HostRuntime) {
    let actions =
        "[{variables: {wait: 1}}, {action: script.wash}, {action: notify.x, data: {v: \"{{ wait }}\"}}]";
    let said = [
        "[] nothing",
        "[] starts and waits",
        "ended",
        "[] nothing",
        "[] notify.x {\"v\":1}",
    ];
    assert!(rt; goes_with(rt.alloc(), SCRIPTS, actions, &said, Progress::Done));
}

#[test]
fn turning_scripts_on_or_off_waits_for_nothing(rt: HostRuntime) {
    let on = "[{action: script.turn_on, target: {entity_id: script.wash}}, {action: notify.x}]";
    let off = "[{action: script.turn_off, target: {entity_id: script.wash}}, {action: notify.x}]";
    let twice =
        "[{action: script.turn_on, target: {entity_id: [script.dry, light.x, script.dry]}}]";
    assert!(rt;
        goes_with(
            rt.alloc(),
            SCRIPTS,
            on,
            &["[] starts", "[] notify.x"],
            Progress::Done
        ) && goes_with(
            rt.alloc(),
            SCRIPTS,
            off,
            &["[] halts", "[] notify.x"],
            Progress::Done
        ) && goes_with(rt.alloc(), SCRIPTS, twice, &["[] starts"], Progress::Done)
    );
}

#[test]
fn other_services_of_the_domain_are_written(rt: HostRuntime) {
    assert!(rt;
        goes_with(
            rt.alloc(),
            SCRIPTS,
            "[{action: script.toggle}]",
            &["[] script.toggle"],
            Progress::Done
        ) && goes_with(
            rt.alloc(),
            SCRIPTS,
            "[{action: script.iron}]",
            &["[] script.iron"],
            Progress::Done
        ) && goes(
            rt.alloc(),
            "[{action: script.wash}]",
            &["[] script.wash"],
            Progress::Done
        ) && goes(
            rt.alloc(),
            "[{action: script.turn_on}]",
            &["[] script.turn_on"],
            Progress::Done
        )
    );
}

#[test]
fn each_turn_of_a_repeat_waits(rt: HostRuntime) {
    let actions = "[{repeat: {count: 2, sequence: [{action: script.wash}]}}, {action: notify.x}]";
    let said = [
        "[] nothing",
        "[] starts and waits",
        "ended",
        "[] nothing",
        "[] nothing",
        "[] starts and waits",
        "ended",
        "[] nothing",
        "[] nothing",
        "[] notify.x",
    ];
    assert!(rt; goes_with(rt.alloc(), SCRIPTS, actions, &said, Progress::Done));
}

#[test]
fn a_list_beside_one_that_waits_goes_on(rt: HostRuntime) {
    let actions = "[{parallel: [{action: script.wash}, {action: notify.a}]}, {action: notify.b}]";
    let said = [
        "[] nothing",
        "[0] starts and waits",
        "[1] notify.a",
        "ended",
        "[0] nothing",
        "[] notify.b",
    ];
    assert!(rt; goes_with(rt.alloc(), SCRIPTS, actions, &said, Progress::Done));
}

#[test]
fn the_data_of_a_call_is_seen_by_the_called_run_alone(rt: HostRuntime) {
    let actions =
        "[{action: script.wash, data: {who: Ann}}, {action: notify.x, data: {v: \"{{ who|default('nobody') }}\"}}]";
    let said = [
        "[] starts and waits",
        "ended",
        "[] nothing",
        "[] notify.x {\"v\":\"nobody\"}",
    ];
    assert!(rt; goes_with(rt.alloc(), SCRIPTS, actions, &said, Progress::Done));
}

/// Whether a script that calls itself goes so in each mode: whether the call is let in is not told by the script.
fn calls_itself(alloc: Global, said: &[&str], progress: Progress) -> bool {
    let modes = [
        "{loop: {mode: single, sequence: [{action: script.loop}, {action: notify.x}]}}",
        "{loop: {mode: restart, sequence: [{action: script.loop}, {action: notify.x}]}}",
        "{loop: {mode: queued, sequence: [{action: script.loop}, {action: notify.x}]}}",
        "{loop: {mode: parallel, sequence: [{action: script.loop}, {action: notify.x}]}}",
    ];
    for scripts in modes {
        if !called_goes(alloc, scripts, said, progress) {
            return false;
        }
    }
    true
}

#[test]
fn a_script_that_calls_itself_waits_in_each_mode(rt: HostRuntime) {
    let begun = ["[] starts and waits", "m 20:00:05"];
    let ended = ["[] starts and waits", "ended", "[] nothing", "[] notify.x"];
    assert!(rt;
        calls_itself(rt.alloc(), &begun, Progress::Going)
            && calls_itself(rt.alloc(), &ended, Progress::Done)
    );
}
