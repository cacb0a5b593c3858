//! Delays, and waits with their ends and timeouts.
use crate::play::goes;
use ha_sight::{Branch, Ended, Env, Progress, WaitAsk, WaitEnd};
use ha_value::Many;
use std::alloc::{AllocError, Global};
use wait_set::Waits;

#[test]
fn a_delay_counts_from_its_own_step(rt: HostRuntime) {
    let actions = "[{delay: 5}, {action: notify.x}]";
    let early = ["m 20:00:03", "[] nothing", "m 20:00:07.999"];
    let said = [
        "m 20:00:03",
        "[] nothing",
        "m 20:00:08",
        "[] nothing",
        "[] notify.x",
    ];
    assert!(rt;
        goes(rt.alloc(), actions, &early, Progress::Going)
            && goes(rt.alloc(), actions, &said, Progress::Done)
    );
}

#[test]
fn delays_are_given_in_several_ways(rt: HostRuntime) {
    let actions =
        "[{delay: 0}, {delay: '00:00:05'}, {delay: \"{{ '00:01' }}\"}, {delay: {seconds: \"{{ 1 + 1 }}\", milliseconds: 500}}]";
    let said = [
        "[] nothing",
        "[] nothing",
        "[] nothing",
        "m 20:00:05",
        "[] nothing",
        "[] nothing",
        "m 20:01:05",
        "[] nothing",
        "[] nothing",
        "m 20:01:07.500",
        "[] nothing",
    ];
    assert!(rt; goes(rt.alloc(), actions, &said, Progress::Done));
}

#[test]
fn a_timeout_that_may_not_go_on_stops_the_whole_script(rt: HostRuntime) {
    let actions =
        "[{repeat: {count: 3, sequence: [{wait_template: \"{{ false }}\", timeout: 5, continue_on_timeout: false}, {action: notify.in}]}}, {action: notify.after}]";
    let said = ["[] nothing", "[] nothing", "m 20:00:05", "[] nothing"];
    assert!(rt; goes(rt.alloc(), actions, &said, Progress::Stopped));
}

#[test]
fn after_a_timeout_the_script_goes_on_and_is_told_of_it(rt: HostRuntime) {
    let actions =
        "[{wait_template: \"{{ 1 // 0 }}\", timeout: {seconds: \"{{ 2 + 3 }}\"}}, {action: notify.x, data: {done: \"{{ wait.completed }}\", left: \"{{ wait.remaining }}\", by: \"{{ wait.trigger is none }}\"}}]";
    let early = ["[] nothing", "m 20:00:04.999"];
    let said = [
        "[] nothing",
        "m 20:00:05",
        "[] nothing",
        "[] notify.x {\"done\":false,\"left\":0.0,\"by\":true}",
    ];
    assert!(rt;
        goes(rt.alloc(), actions, &early, Progress::Going)
            && goes(rt.alloc(), actions, &said, Progress::Done)
    );
}

#[test]
fn a_wait_keeps_the_end_that_it_had(rt: HostRuntime) {
    let actions =
        "[{wait_template: \"{{ is_state('light.z', 'off') }}\", timeout: 10}, {action: notify.b, data: {done: \"{{ wait.completed }}\", left: \"{{ wait.remaining }}\"}}]";
    let said = [
        "r light.z on",
        "[] nothing",
        "m 20:00:05",
        "r light.z off",
        "r light.z on",
        "m 20:00:20",
        "[] nothing",
        "[] notify.b {\"done\":true,\"left\":5.0}",
    ];
    assert!(rt; goes(rt.alloc(), actions, &said, Progress::Done));
}

#[test]
fn the_entry_of_a_wait_s_own_step_counts_and_those_before_do_not(rt: HostRuntime) {
    let actions =
        "[{delay: 1}, {wait_template: \"{{ is_state('light.z', 'off') }}\"}, {action: notify.b, data: {left: \"{{ wait.remaining is none }}\"}}]";
    let own = [
        "r light.z off",
        "[] nothing",
        "m 20:00:01",
        "[] nothing",
        "[] nothing",
        "[] nothing",
        "[] notify.b {\"left\":true}",
    ];
    let before = [
        "r light.z off",
        "[] nothing",
        "r light.z on",
        "m 20:00:01",
        "[] nothing",
        "[] nothing",
    ];
    assert!(rt;
        goes(rt.alloc(), actions, &own, Progress::Done)
            && goes(rt.alloc(), actions, &before, Progress::Going)
    );
}

#[test]
fn a_trigger_ends_a_wait_and_is_told(rt: HostRuntime) {
    let actions =
        "[{wait_for_trigger: {trigger: event, event_type: go}, timeout: 10}, {action: notify.x, data: {by: \"{{ wait.trigger.platform }}\", left: \"{{ wait.remaining }}\", done: \"{{ wait.completed }}\"}}]";
    let said = [
        "[] nothing",
        "r light.x on",
        "m 20:00:04",
        "fires event r light.x off",
        "[] nothing",
        "[] notify.x {\"by\":\"event\",\"left\":6.0,\"done\":true}",
    ];
    assert!(rt; goes(rt.alloc(), actions, &said, Progress::Done));
}

#[test]
fn on_a_tie_with_its_timeout_a_wait_completes(rt: HostRuntime) {
    let actions =
        "[{wait_for_trigger: {trigger: time, at: '20:00:05'}, timeout: 5, continue_on_timeout: false}, {action: notify.x, data: {left: \"{{ wait.remaining }}\", done: \"{{ wait.completed }}\"}}]";
    let said = [
        "[] nothing",
        "fires time m 20:00:05",
        "[] nothing",
        "[] notify.x {\"left\":0.0,\"done\":true}",
    ];
    assert!(rt; goes(rt.alloc(), actions, &said, Progress::Done));
}

#[test]
fn a_timeout_in_a_list_ends_that_list_alone(rt: HostRuntime) {
    let actions =
        "[{parallel: [[{wait_template: \"{{ false }}\", timeout: 1, continue_on_timeout: false}, {action: notify.in}], [{delay: 2}, {action: notify.y}]]}, {action: notify.z}]";
    let said = [
        "[] nothing",
        "[0] nothing",
        "[1] nothing",
        "m 20:00:01",
        "[0] nothing",
        "m 20:00:02",
        "[1] nothing",
        "[1] notify.y",
    ];
    assert!(rt; goes(rt.alloc(), actions, &said, Progress::Stopped));
}

#[test]
fn the_variables_of_a_wait_end_with_its_block(rt: HostRuntime) {
    let actions =
        "[{sequence: [{wait_template: \"{{ true }}\"}]}, {action: notify.x, data: {none: \"{{ wait is none }}\"}}]";
    let said = [
        "[] nothing",
        "[] nothing",
        "[] nothing",
        "[] notify.x {\"none\":true}",
    ];
    assert!(rt; goes(rt.alloc(), actions, &said, Progress::Done));
}

/// A wait of a run, for triggers alone.
fn asked(alloc: Global, serial: u64) -> WaitAsk {
    WaitAsk {
        serial,
        branch: Many::make(alloc),
        test: None,
        triggers: Many::make(alloc),
        due: None,
        env: Env::none(alloc),
    }
}

/// Whether the wait of run 1, at entry 7, stays where another run goes, and goes with its own.
fn goes_with_its_run(alloc: Global) -> Result<bool, AllocError> {
    let mut waits = Waits::make(alloc);
    waits.add(alloc, asked(alloc, 1), 7, 3)?;
    let root: Branch = Many::make(alloc);
    let is_there = waits.owner_from(1, 0) == Some((7, 1)) && waits.owner_from(1, 1).is_none();
    let waits_still = waits.ended(1, &root).is_none() && waits.ended_now().is_empty();
    waits.drop_run(2);
    let stays = waits.owner_from(1, 0) == Some((7, 1));
    waits.drop_run(1);
    Ok(is_there && waits_still && stays && waits.owner_from(1, 0).is_none())
}

#[test]
fn the_wait_of_a_run_goes_with_it(rt: HostRuntime) {
    assert!(rt; matches!(goes_with_its_run(rt.alloc()), Ok(true)));
}

/// Whether it is the end that was named, at entry 9.
fn is_named(end: Option<&WaitEnd>) -> bool {
    match end {
        Some(end) => {
            end.place == 9 && end.done && end.remaining.is_none() && end.trigger.is_none()
        }
        None => false,
    }
}

/// Whether the wait of run 1 stays where another run's is named an end, and ends by its own.
fn ends_as_named(alloc: Global) -> Result<bool, AllocError> {
    let mut waits = Waits::make(alloc);
    waits.add(alloc, asked(alloc, 1), 7, 3)?;
    let root: Branch = Many::make(alloc);
    let owned = waits.owner_of(1, &root) == Some(7) && waits.owner_of(2, &root).is_none();
    waits.finish(2, &root, 9);
    let waits_still = waits.ended(1, &root).is_none();
    waits.finish(1, &root, 9);
    Ok(owned && waits_still && is_named(waits.ended(1, &root)))
}

#[test]
fn the_wait_of_a_call_ends_where_it_is_named(rt: HostRuntime) {
    assert!(rt; matches!(ends_as_named(rt.alloc()), Ok(true)));
}
