//! Repeats of all kinds, and variables that are raised in them.
use crate::play::{goes, idles};
use ha_sight::Progress;

#[test]
fn a_script_that_counts_chooses_and_goes_over_a_list(rt: HostRuntime) {
    let actions =
        "[{variables: {v: \"{{ trigger.event.data.n + 1 }}\"}}, {choose: [{conditions: \"{{ v > 5 }}\", sequence: [{action: notify.big}]}], default: [{action: notify.small}]}, {repeat: {for_each: [red, green], sequence: [{action: notify.c, data: {c: \"{{ repeat.item }}\", last: \"{{ repeat.last }}\"}}]}}]";
    let said = [
        "[] nothing",
        "[] nothing",
        "[] notify.big",
        "[] nothing",
        "[] notify.c {\"c\":\"red\",\"last\":false}",
        "[] nothing",
        "[] notify.c {\"c\":\"green\",\"last\":true}",
        "[] nothing",
    ];
    assert!(rt; goes(rt.alloc(), actions, &said, Progress::Done));
}

#[test]
fn a_variable_of_the_block_around_is_raised_in_a_repeat(rt: HostRuntime) {
    let actions =
        "[{variables: {n: 0}}, {repeat: {until: \"{{ n == 3 }}\", sequence: [{variables: {n: \"{{ n + 1 }}\"}}]}}, {action: notify.x, data: {n: \"{{ n }}\"}}]";
    let said = [
        "[] nothing",
        "[] nothing",
        "[] nothing",
        "[] nothing",
        "[] nothing",
        "[] nothing",
        "[] nothing",
        "[] nothing",
        "[] notify.x {\"n\":3}",
    ];
    assert!(rt; goes(rt.alloc(), actions, &said, Progress::Done));
}

#[test]
fn a_variable_of_a_turn_ends_with_the_turn(rt: HostRuntime) {
    let actions =
        "[{repeat: {count: 2, sequence: [{action: notify.x, data: {v: \"{{ v is none }}\"}}, {variables: {v: 1}}]}}]";
    let said = [
        "[] nothing",
        "[] notify.x {\"v\":true}",
        "[] nothing",
        "[] nothing",
        "[] notify.x {\"v\":true}",
        "[] nothing",
        "[] nothing",
    ];
    assert!(rt; goes(rt.alloc(), actions, &said, Progress::Done));
}

#[test]
fn while_is_tested_before_a_turn(rt: HostRuntime) {
    let actions =
        "[{repeat: {while: \"{{ repeat.index < 3 }}\", sequence: [{action: notify.x, data: {n: \"{{ repeat.index }}\", first: \"{{ repeat.first }}\"}}]}}]";
    let said = [
        "[] nothing",
        "[] notify.x {\"n\":1,\"first\":true}",
        "[] nothing",
        "[] notify.x {\"n\":2,\"first\":false}",
        "[] nothing",
    ];
    let none = "[{repeat: {while: \"{{ false }}\", sequence: [{action: notify.x}]}}]";
    assert!(rt;
        goes(rt.alloc(), actions, &said, Progress::Done)
            && goes(rt.alloc(), none, &["[] nothing"], Progress::Done)
    );
}

#[test]
fn until_is_tested_behind_a_turn(rt: HostRuntime) {
    let actions =
        "[{repeat: {until: \"{{ repeat.index > 1 }}\", sequence: [{action: notify.x, data: {last: \"{{ repeat.last is none }}\"}}]}}]";
    let said = [
        "[] nothing",
        "[] notify.x {\"last\":true}",
        "[] nothing",
        "[] notify.x {\"last\":true}",
        "[] nothing",
    ];
    assert!(rt; goes(rt.alloc(), actions, &said, Progress::Done));
}

#[test]
fn the_turn_after_the_ten_thousandth_faults(rt: HostRuntime) {
    let before = "[{repeat: {while: \"{{ true }}\", sequence: []}}]";
    let behind = "[{repeat: {until: \"{{ false }}\", sequence: []}}]";
    assert!(rt;
        idles(rt.alloc(), before, 10_000, &["[] F6"], Progress::Faulted)
            && idles(rt.alloc(), behind, 10_000, &["[] F6"], Progress::Faulted)
    );
}

#[test]
fn ten_thousand_turns_end_well(rt: HostRuntime) {
    let before =
        "[{repeat: {while: \"{{ repeat.index <= 10000 }}\", sequence: []}}, {action: notify.x}]";
    let behind =
        "[{repeat: {until: \"{{ repeat.index == 10000 }}\", sequence: []}}, {action: notify.x}]";
    let said = ["[] notify.x"];
    assert!(rt;
        idles(rt.alloc(), before, 10_001, &said, Progress::Done)
            && idles(rt.alloc(), behind, 10_001, &said, Progress::Done)
    );
}

#[test]
fn a_count_has_no_limit_of_turns(rt: HostRuntime) {
    let actions = "[{repeat: {count: 10001, sequence: []}}, {action: notify.x}]";
    assert!(rt;
        idles(
            rt.alloc(),
            actions,
            10_002,
            &["[] notify.x"],
            Progress::Done
        )
    );
}

#[test]
fn no_turn_is_made_of_a_count_below_one_and_of_an_empty_list(rt: HostRuntime) {
    let below = "[{repeat: {count: \"{{ 2 - 3 }}\", sequence: [{action: notify.x}]}}]";
    let zero = "[{repeat: {count: 0, sequence: [{action: notify.x}]}}]";
    let empty = "[{repeat: {for_each: [], sequence: [{action: notify.x}]}}]";
    assert!(rt;
        goes(rt.alloc(), below, &["[] nothing"], Progress::Done)
            && goes(rt.alloc(), zero, &["[] nothing"], Progress::Done)
            && goes(rt.alloc(), empty, &["[] nothing"], Progress::Done)
    );
}

#[test]
fn a_false_condition_ends_the_turn_alone(rt: HostRuntime) {
    let actions =
        "[{repeat: {count: 2, sequence: [\"{{ repeat.last }}\", {action: notify.last}]}}, {action: notify.after}]";
    let said = [
        "[] nothing",
        "[] nothing",
        "[] nothing",
        "[] nothing",
        "[] notify.last",
        "[] nothing",
        "[] notify.after",
    ];
    assert!(rt; goes(rt.alloc(), actions, &said, Progress::Done));
}
