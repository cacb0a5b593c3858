//! Lines that are refused, and words.
use crate::day::Fact::{Entries, Errors, NoWords, NotOpened, Output, Stored, Well};
use crate::day::words_end;
use crate::files::PLAIN;
use std::alloc::{AllocError, Global};
use std::process::Abort;
use std::sync::Wait;
use std::thread::Threads;

pub const WORDS: [&str; 6] = [
    "run",
    "--config",
    "home.yaml",
    "--start",
    "2024-05-01T20:00:00Z",
    "reports.txt",
];

/// The lines of a source that are refused, each for a cause of its own.
pub fn refused_lines(alloc: Global) -> Result<Vec<u8>, AllocError> {
    let mut source = Vec::new(alloc);
    for line in [
        "{\"report\":\"light.x\"}\n",
        "{\"dim\":\"light.x\"}\n",
        "{\"report\":\"Light\",\"state\":\"on\"}\n",
        "{\"report\":\"light.x\",\"state\":5}\n",
        "{\"moment\":\"yesterday\"}\n",
        "{\"trigger\":\"automation.none\"}\n",
        "{\"report\":\"light.x\"\n",
    ] {
        source.extend_from_slice(line.as_bytes())?;
    }
    source.extend_from_slice(b"\xff\n{\"report\":\"light.x\",\"state\":\"")?;
    source.extend_from_slice(Vec::from_elem(alloc, b'x', 256)?.as_slice())?;
    source.extend_from_slice(b"\"}\n")?;
    source.extend_from_slice(Vec::from_elem(alloc, b'x', 65_537)?.as_slice())?;
    Ok(source)
}

const REFUSALS: &str =
    "source 0 line 0: L4\nsource 0 line 1: L3\nsource 0 line 2: L6\nsource 0 line 3: L5\nsource 0 line 4: L8\nsource 0 line 5: L9\nsource 0 line 6: L2\nsource 0 line 7: L1\nsource 0 line 8: L7\nsource 0 line 9: L10\n";

/// Whether each of the lines is refused so, and nothing is called.
fn are_refused<R: Abort + Threads + Wait + Sync + Alloc<A = Global>>(rt: &R) -> bool {
    match refused_lines(rt.alloc()) {
        Ok(source) => words_end(
            rt,
            &WORDS,
            b"[]",
            source.as_slice(),
            &PLAIN,
            &[Well, Output(""), Errors(REFUSALS)],
        ),
        Err(_) => false,
    }
}

#[test]
fn bad_lines_are_refused_with_their_codes(rt: HostRuntime) {
    assert!(rt; are_refused(&rt));
}

#[test]
fn a_home_without_automations_stores_none(rt: HostRuntime) {
    assert!(rt;
        words_end(
            &rt,
            &WORDS,
            b"[]",
            b"",
            &PLAIN,
            &[
                Well,
                Entries(1),
                Output(""),
                Errors(""),
                Stored("{\"last\":{},\"switches\":{},\"version\":2}"),
            ]
        )
    );
}

const USAGE: &str =
    "hearth: usage: run --config F --start MOMENT [--zone Z] [--trace F] SOURCE.. | check F | replay F | rehearse N\n";

/// Whether all of these words are none of the program's.
fn are_no_words<R: Abort + Threads + Wait + Sync + Alloc<A = Global>>(
    rt: &R,
    rows: &[&[&str]],
) -> bool {
    for words in rows {
        if !words_end(rt, words, b"[]", b"", &PLAIN, &[NoWords, Errors(USAGE)]) {
            return false;
        }
    }
    true
}

#[test]
fn other_words_are_refused(rt: HostRuntime) {
    assert!(rt;
        are_no_words(
            &rt,
            &[
                &[],
                &["walk"],
                &["run"],
                &["run", "--config", "f", "--start", "yesterday", "s"],
                &[
                    "run",
                    "--config",
                    "f",
                    "--start",
                    "2024-05-01T20:00:00Z",
                    "--zone=-05:00",
                    "s",
                ],
                &["rehearse", "100001"],
            ]
        )
    );
}

const HALL: &[u8] = b"- alias: Hall light\n  triggers: []\n  actions: []\n  mode: restart\n";

/// Whether each configuration is refused with this line, and nothing else is said.
fn are_faults<R: Abort + Threads + Wait + Sync + Alloc<A = Global>>(
    rt: &R,
    rows: &[(&str, &str)],
) -> bool {
    for row in rows {
        let facts = [Errors(row.1), Output("")];
        let words = ["check", "home.yaml"];
        if !words_end(rt, &words, row.0.as_bytes(), b"", &PLAIN, &facts) {
            return false;
        }
    }
    true
}

#[test]
fn check_says_what_was_read(rt: HostRuntime) {
    let said = "automation.hall_light restart 10 triggers 0 conditions 0 actions 1\nok 1\n";
    let none = "hearth: cannot open no.yaml\n";
    let faults = [
        (
            "automation:\n  - alias: A\n    triggers: []\n\tactions: []\n",
            "hearth: config line 4: C1\n",
        ),
        (
            "automation:\n  - alias: A\n    triggers:\n      - trigger: event\n        event_type: go\n    actions: []\n    alias: B\n",
            "hearth: config line 7: C4\n",
        ),
        (
            "# home\nautomation: !include automations.yaml\n",
            "hearth: config line 2: C3\n",
        ),
    ];
    assert!(rt;
        words_end(
            &rt,
            &["check", "home.yaml"],
            HALL,
            b"",
            &PLAIN,
            &[Well, Output(said)]
        ) && words_end(
            &rt,
            &["check", "no.yaml"],
            HALL,
            b"",
            &PLAIN,
            &[NotOpened, Errors(none)]
        ) && are_faults(&rt, &faults)
    );
}
