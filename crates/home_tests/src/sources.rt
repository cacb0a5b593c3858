//! Several sources at once, and the trace.
use crate::day::Fact::{Called, Entries, Errors, Handed, NotOpened, NotRead, Traced, Well};
use crate::day::{Fact, Lines, RESTART, holds, replays, run_sources, words_end};
use crate::files::PLAIN;
use crate::runs::{HALL, HALL_CALLS, HALL_LINES, QUEUE, QUEUE_CALLS, QUEUE_LINES};
use crate::scripts::{WAIT, WAIT_CALLS, WAIT_LINES};
use ha_io::{Gate, MeetGate, OpenGate};
use std::alloc::{AllocError, Global};
use std::process::Abort;
use std::sync::Wait;
use std::thread::Threads;

/// Whether an evening of a home with these sources, and with these words behind `run`, ends so.
fn sources_end<R: Abort + Threads + Wait + Sync + Alloc<A = Global>, G: Gate>(
    rt: &R,
    home: &str,
    more: &[&str],
    sources: &[Lines<'_>],
    gate: &G,
    facts: &[Fact<'_>],
) -> bool {
    match run_sources(rt, home, more, sources, gate) {
        Ok(outcome) => holds(rt.alloc(), &outcome, facts),
        Err(_) => false,
    }
}

#[test]
fn a_source_that_fails_ends_alone(rt: HostRuntime) {
    let sources = [
        Lines {
            name: "a",
            lines: &["m 20:00:01"],
            failing_reads: &[],
        },
        Lines {
            name: "b",
            lines: &["m 20:00:02"],
            failing_reads: &[1],
        },
    ];
    assert!(rt;
        sources_end(
            &rt,
            "[]",
            &[],
            &sources,
            &OpenGate::make(),
            &[
                NotRead(1),
                Entries(3),
                Errors("source 1 line 0: lost\nhearth: source 1 failed\n"),
            ]
        )
    );
}

/// A line that is not read, and lines that are, each of 32 bytes with its end: more than one read takes.
fn two_pieces(alloc: Global) -> Result<Vec<&'static str>, AllocError> {
    let mut lines = Vec::new(alloc);
    lines.push("xxxxxxxxxxxxxxxxxxxxxxxxxxxxxxx")?;
    for _ in 0..2_100u32 {
        lines.push("{\"event\":\"go\",\"data\":{\"a\":\"b\"}}")?;
    }
    Ok(lines)
}

/// Whether a source whose second read fails ends so.
fn second_read_fails<R: Abort + Threads + Wait + Sync + Alloc<A = Global>>(
    rt: &R,
    facts: &[Fact<'_>],
) -> bool {
    match two_pieces(rt.alloc()) {
        Ok(lines) => {
            let sources = [Lines {
                name: "a",
                lines: lines.as_slice(),
                failing_reads: &[2],
            }];
            sources_end(rt, "[]", &[], &sources, &OpenGate::make(), facts)
        }
        Err(_) => false,
    }
}

/// A piece has 65,536 bytes: 2,048 of these lines.
#[test]
fn the_lines_before_a_failed_read_are_put(rt: HostRuntime) {
    let told = "source 0 line 0: L2\nsource 0 line 2048: lost\nhearth: source 0 failed\n";
    assert!(rt; second_read_fails(&rt, &[NotRead(0), Entries(2_050), Errors(told)]));
}

/// Whether these words, over a home without automations and a source of one line, end so.
fn evening_ends<R: Abort + Threads + Wait + Sync + Alloc<A = Global>>(
    rt: &R,
    home: &str,
    words: &[&str],
    facts: &[Fact<'_>],
) -> bool {
    let alloc = rt.alloc();
    let mut all = Vec::new(alloc);
    for word in [
        "run",
        "--start",
        "2024-05-01T20:00:00Z",
        "--config",
        "home.yaml",
    ] {
        if all.push(word).is_err() {
            return false;
        }
    }
    for word in words {
        if all.push(*word).is_err() {
            return false;
        }
    }
    words_end(
        rt,
        all.as_slice(),
        home.as_bytes(),
        b"{\"event\":\"go\"}\n",
        &PLAIN,
        facts,
    )
}

#[test]
fn sources_that_were_opened_are_handed_back(rt: HostRuntime) {
    let none = "hearth: cannot open none.txt\n";
    let refused = "hearth: config line 1: C6\n";
    assert!(rt;
        evening_ends(
            &rt,
            "[]",
            &["reports.txt", "none.txt", "reports.txt"],
            &[NotOpened, Handed(1), Errors(none)]
        ) && evening_ends(
            &rt,
            "automation: {alias: a}",
            &["reports.txt"],
            &[Handed(0), Errors(refused)]
        ) && evening_ends(&rt, "[]", &["reports.txt"], &[Well, Handed(1)])
    );
}

/// Whether these sources meet, and all ends well after so many entries.
fn meet<R: Abort + Threads + Wait + Sync + Alloc<A = Global>>(
    rt: &R,
    sources: &[Lines<'_>],
    entries: usize,
) -> bool {
    let gate = MeetGate::make(1_000_000_000);
    sources_end(rt, "[]", &[], sources, &gate, &[Well, Entries(entries)]) && gate.met()
}

#[test]
fn two_sources_meet(rt: HostRuntime) {
    let sources = [
        Lines {
            name: "a",
            lines: &["m 20:00:01", "m 20:00:02"],
            failing_reads: &[],
        },
        Lines {
            name: "b",
            lines: &["m 20:00:01", "m 20:00:02"],
            failing_reads: &[],
        },
    ];
    assert!(rt; meet(&rt, &sources, 5));
}

const TRACED: &str =
    "[{alias: a, triggers: [{trigger: event, event_type: go}], actions: [{action: notify.x}]}]";

const TRACE: &str =
    "{\"boot\":{\"config\":\"[{alias: a, triggers: [{trigger: event, event_type: go}], actions: [{action: notify.x}]}]\",\"stored\":null,\"start\":\"2024-05-01T20:00:00.000Z\",\"zone\":\"UTC\"}}\n{\"source\":0,\"number\":0,\"cmd\":{\"event\":\"go\",\"data\":{}}}\n{\"worker\":0,\"run\":1,\"branch\":[],\"item\":{\"call\":{\"service\":\"notify.x\",\"target\":[],\"data\":{}}}}\n{\"source\":0,\"number\":1,\"cmd\":{\"moment\":\"2024-05-01T20:00:01.000Z\"}}\n{\"source\":0,\"number\":2,\"cmd\":{\"refused\":\"L2\"}}\n{\"end\":5}\n";

/// The trace of an empty home at which a second went by.
const SECOND: &str =
    "{\"boot\":{\"config\":\"[]\\n\",\"stored\":null,\"start\":\"2024-05-01T20:00:00.000Z\",\"zone\":\"UTC\"}}\n{\"source\":0,\"number\":0,\"cmd\":{\"moment\":\"2024-05-01T20:00:01.000Z\"}}\n{\"end\":2}\n";

/// Whether the evening of each home, with these lines, is traced so.
pub fn are_traced<R: Abort + Threads + Wait + Sync + Alloc<A = Global>>(
    rt: &R,
    rows: &[(&str, &[&str], &str)],
) -> bool {
    for row in rows {
        let source = Lines {
            name: "a",
            lines: row.1,
            failing_reads: &[],
        };
        let facts = [Well, Traced(row.2)];
        let words = ["--trace", "t"];
        if !sources_end(rt, row.0, &words, &[source], &OpenGate::make(), &facts) {
            return false;
        }
    }
    true
}

#[test]
fn a_trace_has_each_entry_and_the_end(rt: HostRuntime) {
    assert!(rt;
        are_traced(
            &rt,
            &[
                (TRACED, &["e go", "m 20:00:01", "bad"], TRACE),
                ("[]\n", &["m 20:00:01"], SECOND),
            ]
        )
    );
}

/// Whether the home makes these calls, and its trace is that of a lawful journal, which gives the same.
fn is_replayed<R: Abort + Threads + Wait + Sync + Alloc<A = Global>>(
    rt: &R,
    home: &str,
    lines: &[&str],
    calls: &[&str],
) -> Result<bool, AllocError> {
    let source = Lines {
        name: "a",
        lines,
        failing_reads: &[],
    };
    let outcome = run_sources(rt, home, &["--trace", "t"], &[source], &OpenGate::make())?;
    Ok(holds(rt.alloc(), &outcome, &[Well, Called(calls), Errors("")]) && replays(rt, &outcome)?)
}

/// Whether it is so with each of them.
pub fn are_replayed<R: Abort + Threads + Wait + Sync + Alloc<A = Global>>(
    rt: &R,
    rows: &[(&str, &[&str], &[&str])],
) -> bool {
    for row in rows {
        if !is_replayed(rt, row.0, row.1, row.2).unwrap_or(false) {
            return false;
        }
    }
    true
}

#[test]
fn a_delay_a_wait_and_a_queue_are_replayed(rt: HostRuntime) {
    assert!(rt;
        are_replayed(
            &rt,
            &[
                (HALL, &HALL_LINES, &HALL_CALLS),
                (WAIT, &WAIT_LINES, &WAIT_CALLS),
                (QUEUE, &QUEUE_LINES, &QUEUE_CALLS),
            ]
        )
    );
}

const BUSY: &str =
    "[{alias: a, mode: parallel, max: 16, triggers: [{trigger: event, event_type: go}], actions: [{action: notify.x}]}]";

const NAMES: [&str; 16] = [
    "0", "1", "2", "3", "4", "5", "6", "7", "8", "9", "10", "11", "12", "13", "14", "15",
];

/// The sixteen sources, each with these lines.
fn sixteen<'a>(alloc: Global, lines: &'a [&'a str]) -> Result<Vec<Lines<'a>>, AllocError> {
    let mut sources = Vec::new(alloc);
    for name in NAMES {
        sources.push(Lines {
            name,
            lines,
            failing_reads: &[],
        })?;
    }
    Ok(sources)
}

/// Whether the sixteen, with these three lines each, end well, after so many entries, and the trace is that of a lawful journal, which gives
/// the same.
fn come<R: Abort + Threads + Wait + Sync + Alloc<A = Global>>(
    rt: &R,
    lines: &[&str],
    entries: usize,
) -> Result<bool, AllocError> {
    let sources = sixteen(rt.alloc(), lines)?;
    let words = ["--trace", "t"];
    let outcome = run_sources(rt, BUSY, &words, sources.as_slice(), &OpenGate::make())?;
    let facts = [Well, Entries(entries), Fact::Lines(3)];
    Ok(holds(rt.alloc(), &outcome, &facts) && replays(rt, &outcome)?)
}

/// Whether it is so with each of them.
fn all_come<R: Abort + Threads + Wait + Sync + Alloc<A = Global>>(
    rt: &R,
    rows: &[(&[&str], usize)],
) -> bool {
    for row in rows {
        if !come(rt, row.0, row.1).unwrap_or(false) {
            return false;
        }
    }
    true
}

/// Also where each restarts the home.
#[test]
fn sixteen_sources_have_each_their_lines_in_order(rt: HostRuntime) {
    assert!(rt;
        all_come(
            &rt,
            &[
                (&["r light.x on", "m 20:00:01", "e go"], 65),
                (&["r light.x on", RESTART, "e go"], 81),
            ]
        )
    );
}

/// 10,000 lines: reports, and an event and a moment in each twenty.
fn many_lines(alloc: Global) -> Result<Vec<&'static str>, AllocError> {
    let mut lines = Vec::new(alloc);
    for _ in 0..500u32 {
        for _ in 0..9u32 {
            lines.push("r light.x on")?;
            lines.push("r light.x off")?;
        }
        lines.push("e go")?;
        lines.push("m 20:00:01")?;
    }
    Ok(lines)
}

/// Whether the sixteen, with these lines, end well, with so many lines of each, and the trace is that of a lawful journal, which gives the
/// same.
fn are_lawful<R: Abort + Threads + Wait + Sync + Alloc<A = Global>>(
    rt: &R,
    lines: &[&str],
    count: u64,
) -> Result<bool, AllocError> {
    let sources = sixteen(rt.alloc(), lines)?;
    let words = ["--trace", "t"];
    let outcome = run_sources(rt, BUSY, &words, sources.as_slice(), &OpenGate::make())?;
    Ok(holds(rt.alloc(), &outcome, &[Well, Fact::Lines(count)]) && replays(rt, &outcome)?)
}

/// Whether it is so with ten thousand lines.
fn many_are_lawful<R: Abort + Threads + Wait + Sync + Alloc<A = Global>>(rt: &R) -> bool {
    match many_lines(rt.alloc()) {
        Ok(lines) => matches!(are_lawful(rt, lines.as_slice(), 10_000), Ok(true)),
        Err(_) => false,
    }
}

/// The order of the sources is not told, so the run is judged behind it.
#[test]
fn sixteen_sources_of_ten_thousand_lines(rt: HostRuntime) {
    assert!(rt; many_are_lawful(&rt));
}
