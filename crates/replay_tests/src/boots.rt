//! First lines of traces: what they say of the store, in which order and form.
use crate::judged::is_given;
use crate::traces::FIRST;
use std::alloc::Global;

const BLANK: &str =
    "{\"boot\": {\"config\":\"[]\\n\",\"stored\":null,\"start\":\"2024-05-01T20:00:00.000Z\",\"zone\":\"UTC\"}}\n";

const ORDERED: &str =
    "{\"boot\":{\"config\":\"[]\\n\",\"stored\":{\"a\":true,\"b\":true},\"start\":\"2024-05-01T20:00:00.000Z\",\"zone\":\"UTC\"}}\n";

const UNORDERED: &str =
    "{\"boot\":{\"config\":\"[]\\n\",\"stored\":{\"b\":true,\"a\":true},\"start\":\"2024-05-01T20:00:00.000Z\",\"zone\":\"UTC\"}}\n";

/// A boot whose automations are `a` and `b`, up to what the store had of them.
const TWO: &str =
    "{\"boot\":{\"config\":\"- {alias: a, triggers: [], actions: []}\\n- {alias: b, triggers: [], actions: []}\\n\",\"stored\":{},";

const START: &str = "\"start\":\"2024-05-01T20:00:00.000Z\",\"zone\":\"UTC\"}}\n";

#[test]
fn a_boot_with_a_blank(rt: HostRuntime) {
    assert!(rt;
        is_given(
            rt.alloc(),
            &[BLANK, FIRST, "{\"end\":2}\n"],
            (11, "", "hearth: trace line 1: T\n")
        )
    );
}

#[test]
fn stored_switches_in_their_order(rt: HostRuntime) {
    assert!(rt;
        is_given(rt.alloc(), &[ORDERED, "{\"end\":1}\n"], (0, "", ""))
            && is_given(
                rt.alloc(),
                &[UNORDERED, "{\"end\":1}\n"],
                (11, "", "hearth: trace line 1: T\n")
            )
    );
}

/// Whether a trace with this part of its boot is given this, without calls and errors but for the status line.
fn is_taken(alloc: Global, last: &str, status: u8, line: &str) -> bool {
    is_given(
        alloc,
        &[TWO, last, START, "{\"end\":1}\n"],
        (status, "", line),
    )
}

#[test]
fn when_automations_last_triggered_in_their_order(rt: HostRuntime) {
    let alloc = rt.alloc();
    assert!(rt;
        is_taken(alloc, "", 0, "")
            && is_taken(
                alloc,
                "\"last\":{\"b\":\"1970-01-01T00:00:00.000Z\"},",
                0,
                ""
            )
            && is_taken(
                alloc,
                "\"last\":{\"a\":\"2999-12-31T23:59:59.999Z\",\"b\":\"1970-01-01T00:00:00.000Z\"},",
                0,
                ""
            )
    );
}

/// A moment of no automation, none at all, names out of order or twice, and moments in another form.
#[test]
fn a_boot_with_other_moments(rt: HostRuntime) {
    let alloc = rt.alloc();
    let line = "hearth: trace line 1: T\n";
    assert!(rt;
        is_taken(
            alloc,
            "\"last\":{\"c\":\"1970-01-01T00:00:00.000Z\"},",
            11,
            line
        ) && is_taken(alloc, "\"last\":{},", 11, line)
            && is_taken(alloc, "\"last\":null,", 11, line)
            && is_taken(
                alloc,
                "\"last\":{\"b\":\"1970-01-01T00:00:00.000Z\",\"a\":\"1970-01-01T00:00:00.000Z\"},",
                11,
                line
            )
            && is_taken(
                alloc,
                "\"last\":{\"a\":\"1970-01-01T00:00:00.000Z\",\"a\":\"1970-01-01T00:00:00.000Z\"},",
                11,
                line
            )
            && is_taken(
                alloc,
                "\"last\":{\"a\":\"1970-01-01T00:00:00Z\"},",
                11,
                line
            )
            && is_taken(alloc, "\"last\":{\"a\":0},", 11, line)
    );
}
