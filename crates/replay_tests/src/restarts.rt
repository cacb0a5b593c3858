//! Traces over a restart: its `again`, and what goes on behind it.
use crate::judged::{are_fronts_refused, is_given};
use crate::traces::{BOOT, HOME, SECOND, STEPS};

const RESTART: &str = "{\"source\":0,\"number\":0,\"cmd\":{\"restart\":true}}\n";

const AGAIN: &str = "{\"again\":1}\n";

/// Behind a restart its `again` stands. Each front of the trace is refused, that behind the line of the restart too.
#[test]
fn a_restart_with_its_again(rt: HostRuntime) {
    let parts = [BOOT, RESTART, AGAIN, SECOND, "{\"end\":4}\n"];
    assert!(rt;
        is_given(rt.alloc(), &parts, (0, "", ""))
            && are_fronts_refused(rt.alloc(), &parts).unwrap_or(false)
    );
}

/// It is missing, or of another number.
#[test]
fn a_restart_without_its_again(rt: HostRuntime) {
    let wanted = (11, "", "hearth: trace line 3: T\n");
    assert!(rt;
        is_given(
            rt.alloc(),
            &[BOOT, RESTART, SECOND, "{\"end\":3}\n"],
            wanted
        ) && is_given(rt.alloc(), &[BOOT, RESTART, "{\"end\":2}\n"], wanted)
            && is_given(
                rt.alloc(),
                &[BOOT, RESTART, "{\"again\":2}\n", SECOND, "{\"end\":4}\n"],
                wanted
            )
    );
}

/// It stands twice, or behind no restart.
#[test]
fn an_again_that_is_not_due(rt: HostRuntime) {
    assert!(rt;
        is_given(
            rt.alloc(),
            &[BOOT, RESTART, AGAIN, AGAIN, SECOND, "{\"end\":5}\n"],
            (11, "", "hearth: trace line 4: T\n")
        ) && is_given(
            rt.alloc(),
            &[BOOT, AGAIN, "{\"end\":2}\n"],
            (11, "", "hearth: trace line 2: T\n")
        )
    );
}

/// A source that is over, which has no line in the second segment.
const LOST: &str = "{\"source\":1,\"number\":0,\"cmd\":{\"lost\":true}}\n";

const LOST_AGAIN: &str = "{\"source\":1,\"number\":1,\"cmd\":{\"lost\":true}}\n";

/// It stays over, whatever the number of its line.
#[test]
fn a_source_that_was_lost_before_a_restart(rt: HostRuntime) {
    let lost = "source 1 line 0: lost\n";
    let refused = "source 1 line 0: lost\nhearth: trace line 5: T\n";
    let end = "{\"end\":5}\n";
    assert!(rt;
        is_given(
            rt.alloc(),
            &[BOOT, LOST, RESTART, AGAIN, SECOND, end],
            (0, "", lost)
        ) && is_given(
            rt.alloc(),
            &[BOOT, LOST, RESTART, AGAIN, LOST_AGAIN, end],
            (11, "", refused)
        ) && is_given(
            rt.alloc(),
            &[BOOT, LOST, RESTART, AGAIN, LOST, end],
            (11, "", refused)
        )
    );
}

/// The home is restarted in the delay of its first run, and a second one begins.
const OVER: &str =
    "{\"source\":0,\"number\":1,\"cmd\":{\"restart\":true}}\n{\"again\":1}\n{\"source\":0,\"number\":2,\"cmd\":{\"event\":\"go\",\"data\":{}}}\n";

const SECOND_STEPS: &str =
    "{\"worker\":0,\"run\":2,\"branch\":[],\"item\":{\"call\":{\"service\":\"notify.x\",\"target\":[],\"data\":{}}}}\n{\"worker\":0,\"run\":2,\"branch\":[],\"item\":{\"nothing\":true}}\n";

const SECOND_LAST: &str =
    "{\"source\":1,\"number\":0,\"cmd\":{\"moment\":\"2024-05-01T20:00:01.000Z\"}}\n{\"worker\":1,\"run\":2,\"branch\":[],\"item\":{\"nothing\":true}}\n{\"worker\":1,\"run\":2,\"branch\":[],\"item\":{\"call\":{\"service\":\"notify.y\",\"target\":[],\"data\":{}}}}\n{\"end\":12}\n";

/// Runs are counted over all segments.
#[test]
fn a_run_behind_a_restart(rt: HostRuntime) {
    let first =
        "{\"run\":\"a\",\"number\":1,\"call\":1,\"service\":\"notify.x\",\"target\":[],\"data\":{}}\n";
    let calls =
        "{\"run\":\"a\",\"number\":1,\"call\":1,\"service\":\"notify.x\",\"target\":[],\"data\":{}}\n{\"run\":\"a\",\"number\":2,\"call\":1,\"service\":\"notify.x\",\"target\":[],\"data\":{}}\n{\"run\":\"a\",\"number\":2,\"call\":2,\"service\":\"notify.y\",\"target\":[],\"data\":{}}\n";
    assert!(rt;
        is_given(
            rt.alloc(),
            &[HOME, STEPS, OVER, SECOND_STEPS, SECOND_LAST],
            (0, calls, "")
        ) && is_given(
            rt.alloc(),
            &[HOME, STEPS, OVER, STEPS, SECOND_LAST],
            (11, first, "hearth: trace line 8: T\n")
        )
    );
}
