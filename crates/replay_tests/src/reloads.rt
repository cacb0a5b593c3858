//! Traces over reloads: the text of each is read, and what is in force decides the lines behind it.
use crate::judged::{are_fronts_refused, is_given};
use crate::traces::{BOOT, SECOND};

/// Nothing is in force any more.
const NONE: &str = "{\"source\":0,\"number\":0,\"cmd\":{\"reload\":\"[]\\n\"}}\n";

#[test]
fn a_reload(rt: HostRuntime) {
    let parts = [BOOT, NONE, SECOND, "{\"end\":3}\n"];
    assert!(rt;
        is_given(rt.alloc(), &parts, (0, "", ""))
            && are_fronts_refused(rt.alloc(), &parts).unwrap_or(false)
    );
}

/// A tab begins its text, as that of a line that was refused.
const NO_TEXT: &str = "{\"source\":0,\"number\":0,\"cmd\":{\"reload\":\"\\tx\"}}\n";

const REFUSED: &str = "{\"source\":0,\"number\":0,\"cmd\":{\"refused\":\"L12\"}}\n";

const TOO_MANY: &str = "{\"source\":0,\"number\":0,\"cmd\":{\"refused\":\"L13\"}}\n";

/// A line that was refused may be any, so its code stands at any place.
#[test]
fn a_text_that_is_no_configuration(rt: HostRuntime) {
    assert!(rt;
        is_given(
            rt.alloc(),
            &[BOOT, NO_TEXT, SECOND, "{\"end\":3}\n"],
            (11, "", "hearth: trace line 2: T\n")
        ) && is_given(
            rt.alloc(),
            &[BOOT, REFUSED, SECOND, "{\"end\":3}\n"],
            (0, "", "source 0 line 0: L12\n")
        ) && is_given(
            rt.alloc(),
            &[BOOT, TOO_MANY, SECOND, "{\"end\":3}\n"],
            (0, "", "source 0 line 0: L13\n")
        )
    );
}

/// Two automations that call five seconds after an event, up to the begin of both delays.
const TWO: &str =
    "{\"boot\":{\"config\":\"- alias: a\\n  triggers:\\n    - trigger: event\\n      event_type: go\\n  actions:\\n    - delay: 5\\n    - action: notify.a\\n- alias: b\\n  triggers:\\n    - trigger: event\\n      event_type: go\\n  actions:\\n    - delay: 5\\n    - action: notify.b\\n\",\"stored\":null,\"start\":\"2024-05-01T20:00:00.000Z\",\"zone\":\"UTC\"}}\n{\"source\":0,\"number\":0,\"cmd\":{\"event\":\"go\",\"data\":{}}}\n{\"worker\":0,\"run\":1,\"branch\":[],\"item\":{\"nothing\":true}}\n{\"worker\":0,\"run\":2,\"branch\":[],\"item\":{\"nothing\":true}}\n";

/// The second waits for longer.
const SLOWER: &str =
    "{\"source\":0,\"number\":1,\"cmd\":{\"reload\":\"- alias: a\\n  triggers:\\n    - trigger: event\\n      event_type: go\\n  actions:\\n    - delay: 5\\n    - action: notify.a\\n- alias: b\\n  triggers:\\n    - trigger: event\\n      event_type: go\\n  actions:\\n    - delay: 6\\n    - action: notify.b\\n\"}}\n";

const LATER: &str =
    "{\"source\":0,\"number\":2,\"cmd\":{\"moment\":\"2024-05-01T20:00:05.000Z\"}}\n";

/// The end of the first delay, and its call.
const FIRST_STEPS: &str =
    "{\"worker\":0,\"run\":1,\"branch\":[],\"item\":{\"nothing\":true}}\n{\"worker\":0,\"run\":1,\"branch\":[],\"item\":{\"call\":{\"service\":\"notify.a\",\"target\":[],\"data\":{}}}}\n";

/// The end of the second delay, which never comes.
const SECOND_STEP: &str = "{\"worker\":0,\"run\":2,\"branch\":[],\"item\":{\"nothing\":true}}\n";

const CALL: &str =
    "{\"run\":\"a\",\"number\":1,\"call\":1,\"service\":\"notify.a\",\"target\":[],\"data\":{}}\n";

#[test]
fn a_run_that_a_reload_ended_takes_no_step(rt: HostRuntime) {
    let whole = [TWO, SLOWER, LATER, FIRST_STEPS, "{\"end\":8}\n"];
    assert!(rt;
        is_given(rt.alloc(), &whole, (0, CALL, ""))
            && are_fronts_refused(rt.alloc(), &whole).unwrap_or(false)
            && is_given(
                rt.alloc(),
                &[
                    TWO,
                    SLOWER,
                    LATER,
                    FIRST_STEPS,
                    SECOND_STEP,
                    "{\"end\":9}\n"
                ],
                (11, CALL, "hearth: trace line 9: T\n")
            )
    );
}

/// A counter is in force, and no automation.
const COUNTED: &str =
    "{\"boot\":{\"config\":\"counter:\\n  c:\\nautomation: []\\n\",\"stored\":null,\"start\":\"2024-05-01T20:00:00.000Z\",\"zone\":\"UTC\"}}\n";

/// Another counter stands in the text.
const COUNTED_OTHERWISE: &str =
    "{\"source\":0,\"number\":0,\"cmd\":{\"reload\":\"counter:\\n  d:\\nautomation: []\\n\"}}\n";

/// So does one whose step is nothing.
const NO_STEP: &str =
    "{\"source\":0,\"number\":0,\"cmd\":{\"reload\":\"counter:\\n  d:\\n    step: 0\\nautomation: []\\n\"}}\n";

const OF_HELPER: &str =
    "{\"source\":0,\"number\":1,\"cmd\":{\"report\":\"counter.c\",\"state\":\"4\",\"attributes\":{}}}\n";

const GONE_HELPER: &str = "{\"source\":0,\"number\":1,\"cmd\":{\"gone\":\"counter.c\"}}\n";

const OF_NONE: &str =
    "{\"source\":0,\"number\":1,\"cmd\":{\"report\":\"counter.d\",\"state\":\"4\",\"attributes\":{}}}\n";

/// Helpers are those of the start.
#[test]
fn a_report_behind_a_reload_with_helpers(rt: HostRuntime) {
    let refused = (11, "", "hearth: trace line 3: T\n");
    assert!(rt;
        is_given(
            rt.alloc(),
            &[COUNTED, COUNTED_OTHERWISE, OF_NONE, "{\"end\":3}\n"],
            (0, "", "")
        ) && is_given(
            rt.alloc(),
            &[COUNTED, COUNTED_OTHERWISE, OF_HELPER, "{\"end\":3}\n"],
            refused
        ) && is_given(
            rt.alloc(),
            &[COUNTED, COUNTED_OTHERWISE, GONE_HELPER, "{\"end\":3}\n"],
            refused
        )
    );
}

#[test]
fn a_fault_in_helpers_that_are_not_read(rt: HostRuntime) {
    assert!(rt;
        is_given(
            rt.alloc(),
            &[COUNTED, NO_STEP, "{\"end\":2}\n"],
            (11, "", "hearth: trace line 2: T\n")
        )
    );
}
