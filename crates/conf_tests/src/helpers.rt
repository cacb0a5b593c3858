//! The flags, counters and timers of a configuration.
use crate::automations::{are_refused, is_refused};
use conf_auto::read_config;
use ha_config::{Helper, HelperKind};
use std::alloc::{AllocError, Global};

/// What is wanted of a helper.
#[derive(Clone, Copy)]
enum Kind {
    Flag(bool),
    /// Its first value, its step and its bounds.
    Counter(i64, i64, i64, i64),
    /// In milliseconds.
    Timer(u64),
}

/// What is wanted of a helper: its domain, its name, and what it is.
type Row<'a> = (&'a str, &'a str, Kind);

fn is_kind(found: &HelperKind, wanted: Kind) -> bool {
    match found {
        HelperKind::Flag { initial } => match wanted {
            Kind::Flag(flag) => *initial == flag,
            _ => false,
        },
        HelperKind::Counter {
            initial,
            step,
            least,
            greatest,
        } => match wanted {
            Kind::Counter(first, by, low, high) => {
                *initial == first && *step == by && *least == low && *greatest == high
            }
            _ => false,
        },
        HelperKind::Timer { span } => match wanted {
            Kind::Timer(millis) => span.millis() == millis,
            _ => false,
        },
    }
}

fn is_row(found: &Helper, row: &Row<'_>) -> bool {
    found.entity.domain() == row.0 && found.entity.object() == row.1 && is_kind(&found.kind, row.2)
}

fn are_rows(all: &[Helper], rows: &[Row<'_>]) -> bool {
    if all.len() != rows.len() {
        return false;
    }
    for i in 0..all.len() {
        if !is_row(&all[i], &rows[i]) {
            return false;
        }
    }
    true
}

/// Whether the text has these helpers.
fn reads(alloc: Global, text: &str, rows: &[Row<'_>]) -> bool {
    match read_config(alloc, text.as_bytes()) {
        Ok(config) => are_rows(config.helpers.as_slice(), rows),
        Err(_) => false,
    }
}

/// They stand in the order of their kinds, and then as they are written.
#[test]
fn helpers_of_each_kind(rt: HostRuntime) {
    let text =
        "automation: []\ntimer:\n  t: {duration: 5, name: T, icon: mdi:timer, restore: true}\n  u:\ncounter:\n  c:\n  d: {initial: 3, step: 2, minimum: -1, maximum: 7, restore: false}\ninput_boolean:\n  b: {initial: true}\n  a: {name: A, icon: mdi:x}\nscript:\n";
    let rows = [
        ("input_boolean", "b", Kind::Flag(true)),
        ("input_boolean", "a", Kind::Flag(false)),
        (
            "counter",
            "c",
            Kind::Counter(0, 1, -1_000_000_000_000, 1_000_000_000_000),
        ),
        ("counter", "d", Kind::Counter(3, 2, -1, 7)),
        ("timer", "t", Kind::Timer(5_000)),
        ("timer", "u", Kind::Timer(0)),
    ];
    assert!(rt; reads(rt.alloc(), text, &rows));
}

#[test]
fn a_file_without_helpers(rt: HostRuntime) {
    let alloc = rt.alloc();
    assert!(rt;
        reads(alloc, "automation: []\n", &[])
            && reads(
                alloc,
                "automation: []\ntimer:\ncounter: {}\ninput_boolean:\n",
                &[]
            )
            && reads(alloc, "[]\n", &[])
    );
}

#[test]
fn faults_of_helpers(rt: HostRuntime) {
    let rows = [
        ("automation: []\ncounter: 5\n", 2, 7),
        ("automation: []\ncounter: []\n", 2, 7),
        ("automation: []\ncounter:\n  A b:\n", 3, 8),
        ("automation: []\ncounter:\n  a: 5\n", 3, 7),
        ("automation: []\ncounter:\n  a:\n    duration: 5\n", 4, 5),
        (
            "automation: []\ninput_boolean:\n  a:\n    restore: true\n",
            4,
            5,
        ),
        ("automation: []\ncounter:\n  a:\n    step: 0\n", 4, 10),
        ("automation: []\ncounter:\n  a:\n    step: -1\n", 4, 10),
        (
            "automation: []\ncounter:\n  a:\n    maximum: 1000000000001\n",
            4,
            10,
        ),
        (
            "automation: []\ncounter:\n  a:\n    minimum: -1000000000001\n",
            4,
            10,
        ),
        (
            "automation: []\ncounter:\n  a: {initial: 3, maximum: 2}\n",
            3,
            10,
        ),
        ("automation: []\ncounter:\n  a: {minimum: 1}\n", 3, 10),
        (
            "automation: []\ncounter:\n  a: {initial: 3, minimum: 3, maximum: 2}\n",
            3,
            10,
        ),
        ("automation: []\ntimer:\n  a:\n  a:\n", 4, 4),
        ("timer:\n  a:\n", 1, 6),
        ("automation: []\ntimers:\n  a:\n", 2, 5),
    ];
    assert!(rt; are_refused(rt.alloc(), &rows));
}

/// A timer and so many counters, each on a line of its own, with three letters as its name.
fn counters(alloc: Global, many: u32) -> Result<Vec<u8>, AllocError> {
    let mut text = Vec::from_slice(alloc, b"automation: []\ntimer:\n  t:\ncounter:\n")?;
    for at in 0..many {
        text.extend_from_slice(b"  ")?;
        for letter in [at / 676, at / 26, at] {
            text.push(b'a' + (letter % 26) as u8)?;
        }
        text.extend_from_slice(b":\n")?;
    }
    Ok(text)
}

/// Whether a timer and so many counters are read.
fn are_read(alloc: Global, many: u32) -> bool {
    match counters(alloc, many) {
        Ok(text) => match read_config(alloc, text.as_slice()) {
            Ok(config) => config.helpers.len() == (many as usize).saturating_add(1),
            Err(_) => false,
        },
        Err(_) => false,
    }
}

/// Whether a timer and so many counters are refused, at the last line, as one too many.
fn are_too_many(alloc: Global, many: u32) -> bool {
    match counters(alloc, many) {
        Ok(text) => is_refused(alloc, text.as_slice(), many.saturating_add(4), 12),
        Err(_) => false,
    }
}

#[test]
fn a_home_has_1024_helpers_at_most(rt: HostRuntime) {
    let alloc = rt.alloc();
    assert!(rt; are_read(alloc, 1_023) && are_too_many(alloc, 1_024));
}
