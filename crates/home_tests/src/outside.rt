//! Openings, sources, sinks and keepers that fail, each at one call.
use crate::day::Fact::{
    ConfigNotRead, Entries, Errors, NotKept, NotOpened, NotRead, NotStored, NotWritten,
    NothingTaken, Output, Stored, Well,
};
use crate::day::{Fact, ends, evening, words_end};
use crate::files::{Outside, PLAIN};
use crate::lines::{WORDS, refused_lines};
use std::alloc::Global;
use std::process::Abort;
use std::sync::Wait;
use std::thread::Threads;

/// A light that is turned on where a door opens.
pub const DOOR: &str =
    "automation:\n  - alias: Door\n    triggers:\n      - trigger: state\n        entity_id: binary_sensor.door\n        to: 'on'\n    actions:\n      - action: light.turn_on\n        target:\n          entity_id: light.porch\n";

/// The call of the door that opens.
pub const PORCH: &str =
    "{\"run\":\"door\",\"number\":1,\"call\":1,\"service\":\"light.turn_on\",\"target\":[\"light.porch\"],\"data\":{}}\n";

const DOOR_IS_ON: &str = "{\"last\":{},\"switches\":{\"door\":true},\"version\":2}";

/// The same behind the run that the door began.
const DOOR_OPENED: &str =
    "{\"last\":{\"door\":\"2024-05-01T20:00:00.000Z\"},\"switches\":{\"door\":true},\"version\":2}";

/// Whether the evening on which the door opens ends so, with each of these outsides.
fn all_end<R: Abort + Threads + Wait + Sync + Alloc<A = Global>>(
    rt: &R,
    rows: &[(&Outside, &[Fact<'_>])],
) -> bool {
    let lines = ["r binary_sensor.door off", "r binary_sensor.door on"];
    for row in rows {
        if !ends(rt, &evening(DOOR, &lines), row.0, row.1) {
            return false;
        }
    }
    true
}

#[test]
fn a_file_that_is_not_opened_ends_the_run_before_the_boot(rt: HostRuntime) {
    let mut config = PLAIN;
    config.failing_openings = &[1];
    let mut source = PLAIN;
    source.failing_openings = &[2];
    let mut trace = PLAIN;
    trace.failing_openings = &[3];
    trace.more_words = &["--trace", "t"];
    let mut none = PLAIN;
    none.failing_openings = &[4];
    none.more_words = &["--trace", "t"];
    assert!(rt;
        all_end(
            &rt,
            &[
                (
                    &config,
                    &[
                        NotOpened,
                        Errors("hearth: cannot open home.yaml\n"),
                        Output(""),
                        Entries(0),
                        NotStored,
                    ]
                ),
                (
                    &source,
                    &[
                        NotOpened,
                        Errors("hearth: cannot open reports.txt\n"),
                        Output(""),
                        Entries(0),
                        NotStored,
                    ]
                ),
                (
                    &trace,
                    &[
                        NotOpened,
                        Errors("hearth: cannot open t\n"),
                        Output(""),
                        Entries(0),
                        NotStored,
                    ]
                ),
                (&none, &[Well, Errors(""), Output(PORCH), Entries(4)]),
            ]
        )
    );
}

#[test]
fn what_is_not_read_or_kept_ends_the_run(rt: HostRuntime) {
    let mut config = PLAIN;
    config.failing_config_reads = &[1];
    let mut source = PLAIN;
    source.failing_reads = &[1];
    let mut load = PLAIN;
    load.failing_saves = &[1];
    let mut save = PLAIN;
    save.failing_saves = &[2];
    assert!(rt;
        all_end(
            &rt,
            &[
                (
                    &config,
                    &[
                        ConfigNotRead,
                        Errors("hearth: config failed\n"),
                        Output(""),
                        Entries(0),
                        NotStored,
                    ]
                ),
                (
                    &source,
                    &[
                        NotRead(0),
                        Errors("source 0 line 0: lost\nhearth: source 0 failed\n"),
                        Output(""),
                        Entries(2),
                        Stored(DOOR_IS_ON),
                    ]
                ),
                (
                    &load,
                    &[
                        NotKept,
                        Errors("hearth: store failed\n"),
                        Output(""),
                        Entries(0),
                        NotStored,
                    ]
                ),
                (
                    &save,
                    &[
                        NotKept,
                        Errors("hearth: store failed\n"),
                        Output(""),
                        Entries(1),
                        NotStored,
                    ]
                ),
            ]
        )
    );
}

#[test]
fn a_call_that_is_not_written_ends_the_run(rt: HostRuntime) {
    let mut fails = PLAIN;
    fails.failing_writes = &[1];
    let mut takes_none = PLAIN;
    takes_none.zero_writes = &[1];
    assert!(rt;
        all_end(
            &rt,
            &[
                (
                    &fails,
                    &[
                        NotWritten,
                        Errors("hearth: write failed\n"),
                        Output(""),
                        Entries(4),
                        Stored(DOOR_OPENED),
                    ]
                ),
                (
                    &takes_none,
                    &[
                        NothingTaken,
                        Errors("hearth: write failed\n"),
                        Output(""),
                        Entries(4),
                        Stored(DOOR_OPENED),
                    ]
                ),
            ]
        )
    );
}

/// Whether a run over lines that are refused ends so, where the first write of an error fails.
fn errors_fail<R: Abort + Threads + Wait + Sync + Alloc<A = Global>>(
    rt: &R,
    facts: &[Fact<'_>],
) -> bool {
    let mut outside = PLAIN;
    outside.failing_error_writes = &[1];
    match refused_lines(rt.alloc()) {
        Ok(lines) => words_end(
            rt,
            &WORDS,
            DOOR.as_bytes(),
            lines.as_slice(),
            &outside,
            facts,
        ),
        Err(_) => false,
    }
}

/// The first refused line is put, and nothing behind it.
#[test]
fn an_error_that_is_not_written_ends_the_run(rt: HostRuntime) {
    assert!(rt;
        errors_fail(
            &rt,
            &[NotWritten, Output(""), Entries(2), Stored(DOOR_IS_ON)]
        )
    );
}

const TWO_CALLS: &str =
    "automation: [{alias: a, triggers: [{trigger: event, event_type: go}], actions: [{action: notify.x}, {action: notify.y}]}]";

const FIRST: &str =
    "{\"run\":\"a\",\"number\":1,\"call\":1,\"service\":\"notify.x\",\"target\":[],\"data\":{}}\n";

#[test]
fn the_second_call_is_not_written(rt: HostRuntime) {
    let mut outside = PLAIN;
    outside.failing_writes = &[2];
    assert!(rt;
        ends(
            &rt,
            &evening(TWO_CALLS, &["e go"]),
            &outside,
            &[NotWritten, Output(FIRST), Errors("hearth: write failed\n")]
        )
    );
}
