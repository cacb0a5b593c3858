//! The scripts of a configuration, by their names.
use crate::automations::{are_refused, is_refused};
use conf_auto::read_config;
use ha_config::{Mode, Script};
use std::alloc::{AllocError, Global};

/// What is wanted of a script: its name, mode and greatest number of runs, and how many actions it has.
type Row<'a> = (&'a str, Mode, u32, usize);

fn is_row(found: &Script, row: &Row<'_>) -> bool {
    found.name.as_str() == row.0
        && found.mode == row.1
        && found.max == row.2
        && found.actions.len() == row.3
}

fn are_rows(all: &[Script], rows: &[Row<'_>]) -> bool {
    if all.len() != rows.len() {
        return false;
    }
    for i in 0..all.len() {
        if !is_row(&all[i], &rows[i]) {
            return false;
        }
    }
    true
}

/// Whether the text has so many automations, and these scripts.
fn reads(alloc: Global, text: &str, automations: usize, rows: &[Row<'_>]) -> bool {
    match read_config(alloc, text.as_bytes()) {
        Ok(config) => {
            config.automations.len() == automations && are_rows(config.scripts.as_slice(), rows)
        }
        Err(_) => false,
    }
}

#[test]
fn scripts_have_their_keys_as_names(rt: HostRuntime) {
    let text =
        "automation:\n  - {alias: A, triggers: [], actions: []}\nscript:\n  greet:\n    alias: Greets!\n    description: x\n    icon: mdi:hand-wave\n    fields:\n      who: {example: Ann}\n    max_exceeded: silent\n    sequence:\n      - delay: 5\n      - {action: notify.s}\n  wave_2: {sequence: [{stop: x}], mode: queued, max: 3}\n  '7': {mode: restart, sequence: {stop: x}}\n";
    let rows = [
        ("greet", Mode::Single, 10, 2),
        ("wave_2", Mode::Queued, 3, 1),
        ("7", Mode::Restart, 10, 1),
    ];
    assert!(rt; reads(rt.alloc(), text, 1, &rows));
}

#[test]
fn a_script_of_nothing_has_one_empty_block(rt: HostRuntime) {
    let text =
        "script: {a: {sequence: []}, b: {sequence: [{stop: x, enabled: false}]}, c: {sequence: }}\nautomation:\n";
    let rows = [
        ("a", Mode::Single, 10, 1),
        ("b", Mode::Single, 10, 1),
        ("c", Mode::Single, 10, 1),
    ];
    assert!(rt; reads(rt.alloc(), text, 0, &rows));
}

#[test]
fn a_file_without_scripts(rt: HostRuntime) {
    let alloc = rt.alloc();
    assert!(rt;
        reads(alloc, "automation: []\n", 0, &[])
            && reads(alloc, "automation: []\nscript:\n", 0, &[])
            && reads(alloc, "automation: []\nscript: {}\n", 0, &[])
    );
}

#[test]
fn faults_of_scripts(rt: HostRuntime) {
    let rows = [
        ("automation: []\nscript: 5\n", 2, 7),
        ("automation: []\nscript: []\n", 2, 7),
        ("automation: []\nscript:\n  a: 5\n", 3, 7),
        ("automation: []\nscript:\n  a:\n", 3, 7),
        ("automation: []\nscript:\n  a:\n    - stop: x\n", 4, 7),
        ("automation: []\nscript:\n  a:\n    mode: single\n", 4, 6),
        ("automation: []\nscript:\n  A b:\n    sequence: []\n", 3, 8),
        ("automation: []\nscript:\n  a.b:\n    sequence: 5\n", 3, 8),
        (
            "automation: []\nscript:\n  a:\n    sequence: []\n    triggers: []\n",
            5,
            5,
        ),
        (
            "automation: []\nscript:\n  a:\n    sequence: []\n    mode: fast\n",
            5,
            14,
        ),
        (
            "automation: []\nscript:\n  a:\n    sequence: []\n    max: 0\n",
            5,
            10,
        ),
        (
            "automation: []\nscript:\n  a: {sequence: []}\n  a: {sequence: []}\n",
            4,
            4,
        ),
        ("script:\n  a:\n    sequence: []\n", 1, 6),
        ("automation: []\nscript: {}\nscene: []\n", 3, 5),
    ];
    assert!(rt; are_refused(rt.alloc(), &rows));
}

/// So many scripts, each on a line of its own, with three letters as its name.
fn scripts(alloc: Global, many: u32) -> Result<Vec<u8>, AllocError> {
    let mut text = Vec::from_slice(alloc, b"automation: []\nscript:\n")?;
    for at in 0..many {
        text.extend_from_slice(b"  ")?;
        for letter in [at / 676, at / 26, at] {
            text.push(b'a' + (letter % 26) as u8)?;
        }
        text.extend_from_slice(b": {sequence: []}\n")?;
    }
    Ok(text)
}

/// Whether so many scripts are read.
fn are_read(alloc: Global, many: u32) -> bool {
    match scripts(alloc, many) {
        Ok(text) => match read_config(alloc, text.as_slice()) {
            Ok(config) => config.scripts.len() == many as usize,
            Err(_) => false,
        },
        Err(_) => false,
    }
}

/// Whether so many scripts are refused, at the last line, as one too many.
fn are_too_many(alloc: Global, many: u32) -> bool {
    match scripts(alloc, many) {
        Ok(text) => is_refused(alloc, text.as_slice(), many.saturating_add(2), 12),
        Err(_) => false,
    }
}

#[test]
fn a_home_has_1024_scripts_at_most(rt: HostRuntime) {
    let alloc = rt.alloc();
    assert!(rt; are_read(alloc, 1_024) && are_too_many(alloc, 1_025));
}
