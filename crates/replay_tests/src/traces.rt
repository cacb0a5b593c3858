//! Traces that are replayed: a finished one, and those that depart from every trace at some line.
use crate::judged::{
    Wanted, are_fronts_refused, are_fronts_told, gives, is_each_byte_told, is_given,
};
use std::alloc::{AllocError, Global};

pub(crate) const BOOT: &str =
    "{\"boot\":{\"config\":\"[]\\n\",\"stored\":null,\"start\":\"2024-05-01T20:00:00.000Z\",\"zone\":\"UTC\"}}\n";

pub(crate) const FIRST: &str =
    "{\"source\":0,\"number\":0,\"cmd\":{\"moment\":\"2024-05-01T20:00:01.000Z\"}}\n";

pub(crate) const SECOND: &str =
    "{\"source\":0,\"number\":1,\"cmd\":{\"moment\":\"2024-05-01T20:00:01.000Z\"}}\n";

/// A home that notifies, waits a second and notifies again, up to its last step.
pub(crate) const HOME: &str =
    "{\"boot\":{\"config\":\"- alias: a\\n  triggers:\\n    - trigger: event\\n      event_type: go\\n  actions:\\n    - action: notify.x\\n    - delay: 1\\n    - action: notify.y\\n\",\"stored\":null,\"start\":\"2024-05-01T20:00:00.000Z\",\"zone\":\"UTC\"}}\n{\"source\":0,\"number\":0,\"cmd\":{\"event\":\"go\",\"data\":{}}}\n";

pub(crate) const STEPS: &str =
    "{\"worker\":0,\"run\":1,\"branch\":[],\"item\":{\"call\":{\"service\":\"notify.x\",\"target\":[],\"data\":{}}}}\n{\"worker\":0,\"run\":1,\"branch\":[],\"item\":{\"nothing\":true}}\n";

const LATER: &str =
    "{\"source\":1,\"number\":0,\"cmd\":{\"moment\":\"2024-05-01T20:00:01.000Z\"}}\n{\"source\":0,\"number\":1,\"cmd\":{\"refused\":\"L2\"}}\n";

const LAST: &str =
    "{\"worker\":0,\"run\":1,\"branch\":[],\"item\":{\"nothing\":true}}\n{\"worker\":0,\"run\":1,\"branch\":[],\"item\":{\"call\":{\"service\":\"notify.y\",\"target\":[],\"data\":{}}}}\n{\"end\":8}\n";

const CALLS: &str =
    "{\"run\":\"a\",\"number\":1,\"call\":1,\"service\":\"notify.x\",\"target\":[],\"data\":{}}\n{\"run\":\"a\",\"number\":1,\"call\":2,\"service\":\"notify.y\",\"target\":[],\"data\":{}}\n";

#[test]
fn a_finished_trace(rt: HostRuntime) {
    assert!(rt; is_given(rt.alloc(), &[BOOT, FIRST, "{\"end\":2}\n"], (0, "", "")));
}

#[test]
fn a_wrong_number(rt: HostRuntime) {
    assert!(rt;
        is_given(
            rt.alloc(),
            &[BOOT, SECOND, "{\"end\":2}\n"],
            (11, "", "hearth: trace line 2: T\n")
        )
    );
}

#[test]
fn no_end_line(rt: HostRuntime) {
    assert!(rt;
        is_given(
            rt.alloc(),
            &[BOOT, FIRST],
            (11, "", "hearth: trace line 3: T\n")
        )
    );
}

#[test]
fn behind_the_end(rt: HostRuntime) {
    let wanted = (11, "", "hearth: trace line 4: T\n");
    assert!(rt;
        is_given(
            rt.alloc(),
            &[BOOT, FIRST, "{\"end\":2}\n", "{\"end\":2}\n"],
            wanted
        ) && is_given(rt.alloc(), &[BOOT, FIRST, "{\"end\":2}\n", "{"], wanted)
    );
}

#[test]
fn a_wrong_count(rt: HostRuntime) {
    assert!(rt;
        is_given(
            rt.alloc(),
            &[BOOT, FIRST, "{\"end\":3}\n"],
            (11, "", "hearth: trace line 3: T\n")
        )
    );
}

#[test]
fn the_read_fails(rt: HostRuntime) {
    assert!(rt;
        gives(
            rt.alloc(),
            &[BOOT, FIRST, "{\"end\":2}\n"],
            &[1],
            (4, "", "hearth: source 0 failed\n")
        )
        .unwrap_or(false)
    );
}

/// Whether a trace that begins with these lines, and goes on with one so long that two reads are taken, of which the second fails, is given
/// this.
fn gives_by_one_read(
    alloc: Global,
    begins: &[&str],
    wanted: Wanted<'_>,
) -> Result<bool, AllocError> {
    let mut parts = Vec::new(alloc);
    for part in begins {
        parts.push(*part)?;
    }
    for _ in 0..7_000u32 {
        parts.push("0123456789")?;
    }
    gives(alloc, parts.as_slice(), &[2], wanted)
}

/// A failed read is told only where the whole lines before it may stand so.
#[test]
fn what_was_read_before_a_failure_is_judged(rt: HostRuntime) {
    let call =
        "{\"run\":\"a\",\"number\":1,\"call\":1,\"service\":\"notify.x\",\"target\":[],\"data\":{}}\n";
    assert!(rt;
        gives_by_one_read(
            rt.alloc(),
            &[HOME, STEPS],
            (4, call, "hearth: source 0 failed\n")
        )
        .unwrap_or(false)
            && gives_by_one_read(
                rt.alloc(),
                &[BOOT, SECOND],
                (11, "", "hearth: trace line 2: T\n")
            )
            .unwrap_or(false)
    );
}

#[test]
fn a_home_is_replayed(rt: HostRuntime) {
    assert!(rt;
        is_given(
            rt.alloc(),
            &[HOME, STEPS, LATER, LAST],
            (0, CALLS, "source 0 line 1: L2\n")
        )
    );
}

#[test]
fn each_front_is_refused_at_its_last_line(rt: HostRuntime) {
    let parts = [BOOT, FIRST, "{\"end\":2}\n"];
    assert!(rt; are_fronts_told(rt.alloc(), &parts).unwrap_or(false));
}

#[test]
fn each_front_is_refused(rt: HostRuntime) {
    assert!(rt; are_fronts_refused(rt.alloc(), &[HOME, STEPS, LATER, LAST]).unwrap_or(false));
}

#[test]
fn each_changed_byte_of_a_step_is_refused(rt: HostRuntime) {
    assert!(rt; is_each_byte_told(rt.alloc(), &[HOME], STEPS, &[LATER, LAST]).unwrap_or(false));
}

#[test]
fn each_changed_byte_of_the_last_lines_is_refused(rt: HostRuntime) {
    assert!(rt; is_each_byte_told(rt.alloc(), &[HOME, STEPS, LATER], LAST, &[]).unwrap_or(false));
}
