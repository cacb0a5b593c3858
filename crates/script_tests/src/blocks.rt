//! Choices, blocks and parallel lists, with what ends them.
use crate::play::goes;
use ha_sight::Progress;

#[test]
fn the_first_option_that_holds_is_chosen(rt: HostRuntime) {
    let actions =
        "[{choose: [{conditions: \"{{ false }}\", sequence: [{action: notify.one}]}, {conditions: [], sequence: [{action: notify.two}]}, {conditions: [], sequence: [{action: notify.three}]}], default: [{action: notify.no}]}, {action: notify.after}]";
    let said = ["[] nothing", "[] notify.two", "[] notify.after"];
    let none =
        "[{choose: [{conditions: \"{{ false }}\", sequence: [{action: notify.one}]}], default: [{action: notify.no}]}]";
    assert!(rt;
        goes(rt.alloc(), actions, &said, Progress::Done)
            && goes(
                rt.alloc(),
                none,
                &["[] nothing", "[] notify.no"],
                Progress::Done
            )
    );
}

#[test]
fn if_goes_one_way_or_the_other_or_none(rt: HostRuntime) {
    let yes = "[{if: [], then: [{action: notify.yes}], else: [{action: notify.no}]}]";
    let no = "[{if: \"{{ false }}\", then: [{action: notify.yes}], else: [{action: notify.no}]}]";
    let neither = "[{if: \"{{ false }}\", then: [{action: notify.yes}]}]";
    assert!(rt;
        goes(
            rt.alloc(),
            yes,
            &["[] nothing", "[] notify.yes"],
            Progress::Done
        ) && goes(
            rt.alloc(),
            no,
            &["[] nothing", "[] notify.no"],
            Progress::Done
        ) && goes(rt.alloc(), neither, &["[] nothing"], Progress::Done)
    );
}

#[test]
fn a_variable_ends_with_its_block(rt: HostRuntime) {
    let actions =
        "[{sequence: [{variables: {w: 1}}, {action: notify.x, data: {n: \"{{ w }}\"}}]}, {action: notify.x, data: {n: \"{{ w is none }}\"}}]";
    let said = [
        "[] nothing",
        "[] nothing",
        "[] notify.x {\"n\":1}",
        "[] notify.x {\"n\":true}",
    ];
    assert!(rt; goes(rt.alloc(), actions, &said, Progress::Done));
}

#[test]
fn variables_are_set_in_their_order(rt: HostRuntime) {
    let actions =
        "[{variables: {v: 2, w: \"{{ v * 3 }}\"}}, {event: told, event_data: {w: \"{{ w }}\"}}, {action: notify.x, data: {w: \"{{ w }}\", as_text: \"a{{ v }}\"}}]";
    let said = [
        "[] nothing",
        "[] fires told",
        "[] notify.x {\"w\":6,\"as_text\":\"a2\"}",
    ];
    assert!(rt; goes(rt.alloc(), actions, &said, Progress::Done));
}

#[test]
fn a_false_condition_ends_its_block_alone(rt: HostRuntime) {
    let chosen =
        "[{if: [], then: [{condition: template, value_template: \"{{ false }}\"}, {action: notify.in}]}, {action: notify.after}]";
    let top = "[\"{{ false }}\", {action: notify.after}]";
    assert!(rt;
        goes(
            rt.alloc(),
            chosen,
            &["[] nothing", "[] nothing", "[] notify.after"],
            Progress::Done
        ) && goes(rt.alloc(), top, &["[] nothing"], Progress::Done)
    );
}

#[test]
fn a_stop_ends_the_whole_script(rt: HostRuntime) {
    let actions = "[{sequence: [{stop: enough, error: true}]}, {action: notify.after}]";
    assert!(rt;
        goes(
            rt.alloc(),
            actions,
            &["[] nothing", "[] nothing"],
            Progress::Stopped
        )
    );
}

#[test]
fn lists_have_variables_of_their_own(rt: HostRuntime) {
    let actions =
        "[{variables: {n: 1}}, {parallel: [[{variables: {n: 2}}, {action: notify.a, data: {n: \"{{ n }}\"}}], {action: notify.b, data: {n: \"{{ n }}\"}}]}, {action: notify.c, data: {n: \"{{ n }}\"}}]";
    let said = [
        "[] nothing",
        "[] nothing",
        "[0] nothing",
        "[0] notify.a {\"n\":2}",
        "[1] notify.b {\"n\":1}",
        "[] notify.c {\"n\":1}",
    ];
    assert!(rt; goes(rt.alloc(), actions, &said, Progress::Done));
}

#[test]
fn a_block_waits_for_its_last_list(rt: HostRuntime) {
    let actions =
        "[{parallel: [{sequence: [{delay: 5}, {action: notify.x}]}, {sequence: [\"{{ false }}\", {action: notify.y}]}]}, {action: notify.z}]";
    let begun = [
        "[] nothing",
        "[0] nothing",
        "[0] nothing",
        "[1] nothing",
        "[1] nothing",
        "m 20:00:04.999",
    ];
    let said = [
        "[] nothing",
        "[0] nothing",
        "[0] nothing",
        "[1] nothing",
        "[1] nothing",
        "m 20:00:05",
        "[0] nothing",
        "[0] notify.x",
        "[] notify.z",
    ];
    assert!(rt;
        goes(rt.alloc(), actions, &begun, Progress::Going)
            && goes(rt.alloc(), actions, &said, Progress::Done)
    );
}

#[test]
fn a_stop_in_a_list_ends_that_list_and_behind_the_block_the_run(rt: HostRuntime) {
    let actions =
        "[{parallel: [[{stop: x}, {action: notify.x}], [{delay: 1}, {action: notify.y}]]}, {action: notify.z}]";
    let said = [
        "[] nothing",
        "[0] nothing",
        "[1] nothing",
        "m 20:00:01",
        "[1] nothing",
        "[1] notify.y",
    ];
    assert!(rt; goes(rt.alloc(), actions, &said, Progress::Stopped));
}

#[test]
fn the_first_list_in_order_decides_how_a_block_ends(rt: HostRuntime) {
    let stops =
        "[{parallel: [[{delay: 1}, {stop: x}], {action: \"{{ 'nobody' }}\"}, {action: notify.y}]}, {action: notify.z}]";
    let said = [
        "[] nothing",
        "[0] nothing",
        "[1] F2",
        "[2] notify.y",
        "m 20:00:01",
        "[0] nothing",
        "[0] nothing",
    ];
    let faults = "[{parallel: [{action: \"{{ 'nobody' }}\"}, {stop: x}]}, {action: notify.z}]";
    assert!(rt;
        goes(rt.alloc(), stops, &said, Progress::Stopped)
            && goes(
                rt.alloc(),
                faults,
                &["[] nothing", "[0] F2", "[1] nothing"],
                Progress::Faulted
            )
    );
}

#[test]
fn a_block_in_a_list_ends_that_list_alone(rt: HostRuntime) {
    let actions =
        "[{parallel: [[{parallel: [{stop: x}]}, {action: notify.in}], [{delay: 1}, {action: notify.y}]]}, {action: notify.z}]";
    let said = [
        "[] nothing",
        "[0] nothing",
        "[0,0] nothing",
        "[1] nothing",
        "m 20:00:01",
        "[1] nothing",
        "[1] notify.y",
    ];
    assert!(rt; goes(rt.alloc(), actions, &said, Progress::Stopped));
}

#[test]
fn a_block_without_lists_ends_at_its_step(rt: HostRuntime) {
    let actions = "[{parallel: []}, {action: notify.z}]";
    assert!(rt;
        goes(
            rt.alloc(),
            actions,
            &["[] nothing", "[] notify.z"],
            Progress::Done
        )
    );
}
