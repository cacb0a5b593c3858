//! Whole configurations: automations with their names and defaults.
use conf_auto::read_config;
use ha_config::{Automation, Mode};
use std::alloc::{AllocError, Global};
use yaml_scan::YamlFault;

/// What is wanted of an automation: its name, mode and greatest number of runs, and how many triggers, conditions and actions it has.
pub type Row<'a> = (&'a str, Mode, u32, (usize, usize, usize));

fn is_row(found: &Automation, row: &Row<'_>) -> bool {
    found.name.as_str() == row.0
        && found.mode == row.1
        && found.max == row.2
        && found.triggers.len() == row.3.0
        && found.tests.len() == row.3.1
        && found.actions.len() == row.3.2
}

fn are_rows(all: &[Automation], rows: &[Row<'_>]) -> bool {
    if all.len() != rows.len() {
        return false;
    }
    for i in 0..all.len() {
        if !is_row(&all[i], &rows[i]) {
            return false;
        }
    }
    true
}

/// Whether the text is a configuration of these automations.
pub fn reads(alloc: Global, text: &str, rows: &[Row<'_>]) -> bool {
    match read_config(alloc, text.as_bytes()) {
        Ok(config) => are_rows(config.automations.as_slice(), rows),
        Err(_) => false,
    }
}

/// Whether the text is refused at this line with the code of this number.
pub fn is_refused(alloc: Global, text: &[u8], line: u32, code: u8) -> bool {
    match read_config(alloc, text) {
        Err(YamlFault::Bad { line: at, code: by }) => at == line && by.number() == code,
        _ => false,
    }
}

/// Whether each text is refused so.
pub fn are_refused(alloc: Global, rows: &[(&str, u32, u8)]) -> bool {
    for row in rows {
        if !is_refused(alloc, row.0.as_bytes(), row.1, row.2) {
            return false;
        }
    }
    true
}

#[test]
fn what_is_not_said_has_its_default(rt: HostRuntime) {
    let text = "- triggers: []\n  actions: []\n";
    assert!(rt;
        reads(
            rt.alloc(),
            text,
            &[("unnamed", Mode::Single, 10, (0, 0, 1))]
        )
    );
}

#[test]
fn each_mode_by_its_word(rt: HostRuntime) {
    let text =
        "- {id: a, mode: single, trigger: [], action: []}\n- {id: b, mode: restart, max: 1, trigger: [], action: []}\n- {id: c, mode: queued, max: 1000, trigger: [], action: []}\n- {id: d, mode: parallel, max: 2, trigger: [], action: []}\n";
    let rows = [
        ("a", Mode::Single, 10, (0, 0, 1)),
        ("b", Mode::Restart, 1, (0, 0, 1)),
        ("c", Mode::Queued, 1_000, (0, 0, 1)),
        ("d", Mode::Parallel, 2, (0, 0, 1)),
    ];
    assert!(rt; reads(rt.alloc(), text, &rows));
}

#[test]
fn a_name_is_the_slug_of_the_alias_or_of_the_id(rt: HostRuntime) {
    let text =
        "- {alias: 'Hall  light!', id: x, triggers: [], actions: []}\n- {id: '17-B', triggers: [], actions: []}\n- {alias: '??', triggers: [], actions: []}\n";
    let rows = [
        ("hall_light", Mode::Single, 10, (0, 0, 1)),
        ("17_b", Mode::Single, 10, (0, 0, 1)),
        ("unnamed", Mode::Single, 10, (0, 0, 1)),
    ];
    assert!(rt; reads(rt.alloc(), text, &rows));
}

#[test]
fn a_name_that_is_taken_gets_the_least_free_number(rt: HostRuntime) {
    let text =
        "- {alias: A, triggers: [], actions: []}\n- {alias: a 2, triggers: [], actions: []}\n- {alias: a, triggers: [], actions: []}\n- {alias: A, triggers: [], actions: []}\n";
    let rows = [
        ("a", Mode::Single, 10, (0, 0, 1)),
        ("a_2", Mode::Single, 10, (0, 0, 1)),
        ("a_3", Mode::Single, 10, (0, 0, 1)),
        ("a_4", Mode::Single, 10, (0, 0, 1)),
    ];
    assert!(rt; reads(rt.alloc(), text, &rows));
}

#[test]
fn what_is_disabled_is_not_counted(rt: HostRuntime) {
    let text =
        "automation:\n  alias: A\n  triggers:\n    - {trigger: homeassistant, event: start, enabled: false}\n    - {trigger: homeassistant, event: start}\n  conditions:\n    - {condition: trigger, id: a, enabled: false}\n  actions:\n    - {stop: x, enabled: false}\n    - {sequence: [{stop: x}, {stop: y}]}\n";
    assert!(rt; reads(rt.alloc(), text, &[("a", Mode::Single, 10, (1, 0, 1))]));
}

#[test]
fn a_file_without_automations(rt: HostRuntime) {
    let alloc = rt.alloc();
    assert!(rt;
        reads(alloc, "", &[])
            && reads(alloc, "# nothing yet\n", &[])
            && reads(alloc, "[]\n", &[])
            && reads(alloc, "automation:\n", &[])
    );
}

#[test]
fn faults_of_files(rt: HostRuntime) {
    let rows = [
        ("automations\n", 1, 7),
        ("automation: 5\n", 1, 7),
        ("- 5\n", 1, 7),
        ("{}\n", 1, 6),
        ("script: {}\n", 1, 6),
        ("light: {}\n", 1, 5),
        ("automation: []\nlight:\n  - platform: x\n", 2, 5),
        (
            "automation:\n  - alias: A\n    triggers: []\n\tactions: []\n",
            4,
            1,
        ),
        ("# home\nautomation: !include automations.yaml\n", 2, 3),
        (
            "automation:\n  - alias: A\n    triggers: []\n    actions: []\n    alias: B\n",
            5,
            4,
        ),
    ];
    assert!(rt; are_refused(rt.alloc(), &rows));
}

#[test]
fn faults_of_automations(rt: HostRuntime) {
    let rows = [
        ("- alias: A\n  actions: []\n", 1, 6),
        ("- alias: A\n  triggers: []\n", 1, 6),
        ("- triggers: []\n  actions: []\n  trigger: []\n", 3, 4),
        ("- triggers: []\n  actions: []\n  variables: {a: 1}\n", 3, 5),
        ("- triggers: []\n  actions: []\n  mode: parallell\n", 3, 14),
        ("- triggers: []\n  actions: []\n  max: 0\n", 3, 10),
        ("- triggers: []\n  actions: []\n  max: 1001\n", 3, 10),
        ("- triggers: []\n  actions: []\n  max: -1\n", 3, 10),
        (
            "- triggers: []\n  actions: []\n  initial_state: maybe\n",
            3,
            7,
        ),
        ("- triggers: []\n  actions: []\n  alias:\n", 3, 7),
        (
            "- triggers: []\n  conditions: [\"{% for x in y %}\"]\n  actions: [{action: x}]\n",
            2,
            11,
        ),
    ];
    assert!(rt; are_refused(rt.alloc(), &rows));
}

/// A comment of so many bytes.
fn comment(alloc: Global, many: u32) -> Result<Vec<u8>, AllocError> {
    let mut text = Vec::new(alloc);
    for _ in 0..many {
        text.push(b'#')?;
    }
    Ok(text)
}

/// Whether a comment of so many bytes is refused as too long, or is not, as is said.
fn is_too_long(alloc: Global, many: u32, wanted: bool) -> bool {
    match comment(alloc, many) {
        Ok(text) => is_refused(alloc, text.as_slice(), 1, 12) == wanted,
        Err(_) => false,
    }
}

#[test]
fn a_text_has_a_million_bytes_at_most(rt: HostRuntime) {
    let alloc = rt.alloc();
    assert!(rt; is_too_long(alloc, 1_048_577, true) && is_too_long(alloc, 1_048_576, false));
}

/// So many automations, each on a line of its own, with three letters as its id.
fn automations(alloc: Global, many: u32) -> Result<Vec<u8>, AllocError> {
    let mut text = Vec::new(alloc);
    for at in 0..many {
        text.extend_from_slice(b"- {triggers: [], actions: [], id: ")?;
        for letter in [at / 676, at / 26, at] {
            text.push(b'a' + (letter % 26) as u8)?;
        }
        text.extend_from_slice(b"}\n")?;
    }
    Ok(text)
}

/// Whether so many automations are read.
fn are_read(alloc: Global, many: u32) -> bool {
    match automations(alloc, many) {
        Ok(text) => match read_config(alloc, text.as_slice()) {
            Ok(config) => config.automations.len() == many as usize,
            Err(_) => false,
        },
        Err(_) => false,
    }
}

/// Whether so many automations are refused, at the last line, as one too many.
fn are_too_many(alloc: Global, many: u32) -> bool {
    match automations(alloc, many) {
        Ok(text) => is_refused(alloc, text.as_slice(), many, 12),
        Err(_) => false,
    }
}

#[test]
fn a_home_has_1024_automations_at_most(rt: HostRuntime) {
    let alloc = rt.alloc();
    assert!(rt; are_read(alloc, 1_024) && are_too_many(alloc, 1_025));
}

/// An automation with one condition, a template of seven bytes and so many more.
fn conditioned(alloc: Global, more: u32) -> Result<Vec<u8>, AllocError> {
    let mut text = Vec::from_slice(
        alloc,
        b"- triggers: []\n  actions: []\n  conditions: \"{{ 1 }}",
    )?;
    for _ in 0..more {
        text.push(b'x')?;
    }
    text.extend_from_slice(b"\"\n")?;
    Ok(text)
}

/// Whether the template with so many more bytes is read, or refused as too long, as is said.
fn is_template(alloc: Global, more: u32, wanted: bool) -> bool {
    match conditioned(alloc, more) {
        Ok(text) => {
            if wanted {
                read_config(alloc, text.as_slice()).is_ok()
            } else {
                is_refused(alloc, text.as_slice(), 3, 12)
            }
        }
        Err(_) => false,
    }
}

#[test]
fn a_template_has_16384_bytes_at_most(rt: HostRuntime) {
    let alloc = rt.alloc();
    assert!(rt; is_template(alloc, 16_377, true) && is_template(alloc, 16_378, false));
}
