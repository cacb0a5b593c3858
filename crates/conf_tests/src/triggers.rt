//! Triggers of texts.
use conf_trigger::read_triggers;
use ha_clock::Span;
use ha_config::{Match, Trigger, TriggerRule, Unit};
use ha_value::Many;
use std::alloc::{AllocError, Global};
use yaml_scan::YamlFault;
use yaml_tree::read_tree;

/// The triggers of a text. A text of these tests is short.
fn triggers(alloc: Global, text: &str) -> Result<Many<Trigger>, YamlFault> {
    let bytes = text.as_bytes();
    if 8_192 < bytes.len() {
        return Err(YamlFault::Memory);
    }
    let node = read_tree(alloc, bytes)?;
    read_triggers(alloc, &node)
}

/// Whether the text is refused at this line with the code of this number.
fn is_refused(alloc: Global, text: &str, line: u32, code: u8) -> bool {
    match triggers(alloc, text) {
        Err(YamlFault::Bad { line: at, code: by }) => at == line && by.number() == code,
        _ => false,
    }
}

/// Whether each text is refused so.
fn are_refused(alloc: Global, rows: &[(&str, u32, u8)]) -> bool {
    for row in rows {
        if !is_refused(alloc, row.0, row.1, row.2) {
            return false;
        }
    }
    true
}

/// Whether the text has so many triggers.
fn has(alloc: Global, text: &str, many: usize) -> bool {
    match triggers(alloc, text) {
        Ok(all) => all.len() == many,
        Err(_) => false,
    }
}

/// Whether a trigger has this id, this index and a hold of so many milliseconds, 0 where it has none.
fn is_named(trigger: &Trigger, id: &str, idx: u32, millis: u64) -> bool {
    trigger.id.as_str() == id && trigger.idx == idx && held(trigger.hold) == millis
}

fn held(hold: Option<Span>) -> u64 {
    match hold {
        Some(span) => span.millis(),
        None => 0,
    }
}

/// What a side of a state trigger matches: 0 where nothing is given, 1 for null, 2 and how many texts for a list, 3 for one of `not_`.
fn side(side: &Match) -> (u8, usize) {
    match side {
        Match::Absent => (0, 0),
        Match::Any => (1, 0),
        Match::OneOf(texts) => (2, texts.len()),
        Match::NoneOf(texts) => (3, texts.len()),
    }
}

/// Whether it is a state trigger of so many entities, with an attribute or none, and these sides.
fn is_state(
    rule: &TriggerRule,
    many: usize,
    named: bool,
    old: (u8, usize),
    new: (u8, usize),
) -> bool {
    match rule {
        TriggerRule::State {
            entities,
            attribute,
            from,
            to,
        } => {
            entities.len() == many
                && attribute.is_some() == named
                && side(from) == old
                && side(to) == new
        }
        _ => false,
    }
}

/// Whether the text is one state trigger of two entities that has this hold and these sides.
fn is_one_state(
    alloc: Global,
    text: &str,
    named: bool,
    millis: u64,
    old: (u8, usize),
    new: (u8, usize),
) -> bool {
    match triggers(alloc, text) {
        Ok(all) => match all.get(0) {
            Some(trigger) => {
                all.len() == 1
                    && is_named(trigger, "0", 0, millis)
                    && is_state(&trigger.rule, 2, named, old, new)
            }
            None => false,
        },
        Err(_) => false,
    }
}

/// A text, with what is wanted of its trigger: an attribute or none, a hold of so many milliseconds, and the two sides.
type StateRow<'a> = (&'a str, bool, u64, (u8, usize), (u8, usize));

/// Whether each text is one state trigger that is as wanted.
fn are_states(alloc: Global, rows: &[StateRow<'_>]) -> bool {
    for row in rows {
        if !is_one_state(alloc, row.0, row.1, row.2, row.3, row.4) {
            return false;
        }
    }
    true
}

#[test]
fn a_side_that_is_missing_is_not_null(rt: HostRuntime) {
    let rows = [
        (
            "trigger: state\nentity_id: light.hall, light.b\nfor: 5\n",
            false,
            5_000,
            (0, 0),
            (0, 0),
        ),
        (
            "trigger: state\nentity_id: [light.hall, light.b]\nfrom:\nto: ~\n",
            false,
            0,
            (1, 0),
            (1, 0),
        ),
        (
            "platform: state\nentity_id: [light.hall, light.b]\nattribute: k\nto: on\nnot_from: [x, y]\n",
            true,
            0,
            (3, 2),
            (2, 1),
        ),
    ];
    assert!(rt; are_states(rt.alloc(), &rows));
}

#[test]
fn a_hold_is_in_seconds(rt: HostRuntime) {
    let rows = [
        (
            "trigger: state\nentity_id: light.hall, light.b\nfor: '00:01:30'\n",
            false,
            90_000,
            (0, 0),
            (0, 0),
        ),
        (
            "trigger: state\nentity_id: light.hall, light.b\nfor: {minutes: 1, milliseconds: 7}\n",
            false,
            60_007,
            (0, 0),
            (0, 0),
        ),
        (
            "trigger: state\nentity_id: light.hall, light.b\nfor: 0\n",
            false,
            0,
            (0, 0),
            (0, 0),
        ),
    ];
    assert!(rt; are_states(rt.alloc(), &rows));
}

/// Whether the rule is a pattern of these units.
fn is_pattern(rule: &TriggerRule, wanted: (Unit, Unit, Unit)) -> bool {
    match rule {
        TriggerRule::Pattern {
            hours,
            minutes,
            seconds,
        } => (*hours, *minutes, *seconds) == wanted,
        _ => false,
    }
}

/// Whether the text is one pattern of these units.
fn is_one_pattern(alloc: Global, text: &str, wanted: (Unit, Unit, Unit)) -> bool {
    match triggers(alloc, text) {
        Ok(all) => match all.get(0) {
            Some(trigger) => is_pattern(&trigger.rule, wanted),
            None => false,
        },
        Err(_) => false,
    }
}

/// Whether each text is one pattern of its units.
fn are_patterns(alloc: Global, rows: &[(&str, (Unit, Unit, Unit))]) -> bool {
    for row in rows {
        if !is_one_pattern(alloc, row.0, row.1) {
            return false;
        }
    }
    true
}

#[test]
fn a_missing_unit_is_zero_below_a_larger_one(rt: HostRuntime) {
    let rows = [
        (
            "trigger: time_pattern\nminutes: /5\n",
            (Unit::Every, Unit::Each(5), Unit::Exact(0)),
        ),
        (
            "trigger: time_pattern\nhours: 7\n",
            (Unit::Exact(7), Unit::Exact(0), Unit::Exact(0)),
        ),
        (
            "trigger: time_pattern\nseconds: '*'\n",
            (Unit::Every, Unit::Every, Unit::Every),
        ),
    ];
    assert!(rt; are_patterns(rt.alloc(), &rows));
}

/// Whether the triggers are two times, with the index 0, and an event of two types with the index 2.
fn are_times_and_events(all: &Many<Trigger>) -> bool {
    let (Some(times), Some(event)) = (all.get(0), all.get(1)) else {
        return false;
    };
    let are_times = match &times.rule {
        TriggerRule::Time(seconds) => seconds.as_slice() == [25_200, 86_399].as_slice(),
        _ => false,
    };
    let are_events = match &event.rule {
        TriggerRule::Event { kinds, pairs } => kinds.len() == 2 && pairs.len() == 1,
        _ => false,
    };
    all.len() == 2 && are_times && are_events && is_named(event, "2", 2, 0)
}

fn a_disabled_one_keeps_its_index(alloc: Global, text: &str) -> bool {
    match triggers(alloc, text) {
        Ok(all) => are_times_and_events(&all),
        Err(_) => false,
    }
}

#[test]
fn a_disabled_trigger_is_left_out_and_counts(rt: HostRuntime) {
    let text =
        "- trigger: time\n  at: ['07:00', '23:59:59']\n- trigger: homeassistant\n  event: start\n  enabled: no\n- trigger: event\n  event_type: [a, b]\n  event_data: {n: 1}\n";
    assert!(rt; a_disabled_one_keeps_its_index(rt.alloc(), text));
}

/// Whether the text is one numeric trigger with this id and a lower bound alone.
fn is_number(alloc: Global, text: &str, id: &str, millis: u64) -> bool {
    match triggers(alloc, text) {
        Ok(all) => match all.get(0) {
            Some(trigger) => is_named(trigger, id, 0, millis) && is_above(&trigger.rule),
            None => false,
        },
        Err(_) => false,
    }
}

fn is_above(rule: &TriggerRule) -> bool {
    match rule {
        TriggerRule::Numeric { above, below, .. } => above.is_some() && below.is_none(),
        _ => false,
    }
}

#[test]
fn an_id_is_a_text_of_its_own(rt: HostRuntime) {
    let text =
        "trigger: numeric_state\nentity_id: sensor.t\nabove: '20.5'\nfor:\n  minutes: 1\n  seconds: 30\nid: 7\nalias: Warm\n";
    assert!(rt; is_number(rt.alloc(), text, "7", 90_000));
}

#[test]
fn null_and_an_empty_list_are_no_trigger(rt: HostRuntime) {
    let alloc = rt.alloc();
    assert!(rt;
        has(alloc, "null\n", 0)
            && has(alloc, "[]\n", 0)
            && has(
                alloc,
                "- {trigger: homeassistant, event: start}\n- {platform: template, value_template: \"{{ true }}\", for: '00:05'}\n",
                2
            )
    );
}

#[test]
fn faults_of_keys(rt: HostRuntime) {
    let rows = [
        (
            "trigger: state\nplatform: state\nentity_id: light.hall\nto: on\nnot_to: off\n",
            2,
            4,
        ),
        (
            "- trigger: state\n  entity_id: hall\n  from:\n  bogus: 1\n",
            2,
            8,
        ),
        (
            "- trigger: state\n  entity_id: light.hall\n  bogus: 1\n- trigger: bogus\n",
            3,
            5,
        ),
        (
            "- trigger: state\n  entity_id: light.hall\n  to: on\n  not_to: off\n",
            4,
            5,
        ),
        (
            "- trigger: state\n  not_from: a\n  entity_id: light.hall\n  from:\n",
            4,
            5,
        ),
        (
            "- trigger: numeric_state\n  entity_id: sensor.t\n- state\n",
            1,
            6,
        ),
        ("- trigger: state\n  to: on\n", 1, 6),
        ("- trigger: time\n  at: '07:00'\n  weekday: mon\n", 3, 5),
    ];
    assert!(rt; are_refused(rt.alloc(), &rows));
}

#[test]
fn faults_of_values(rt: HostRuntime) {
    let rows = [
        ("- trigger: time\n  at: ['07:00', '7:5']\n", 2, 9),
        (
            "- trigger: time\n  at:\n    - '07:00'\n    - input_datetime.wake\n",
            4,
            9,
        ),
        ("- trigger: time_pattern\n  hours: 24\n", 2, 9),
        ("- trigger: time_pattern\n  minutes: /0\n", 2, 9),
        (
            "- trigger: state\n  for: {days: 400, hours: x}\n  entity_id: a.b\n",
            2,
            9,
        ),
        ("- trigger: state\n  for: 5m\n  entity_id: a.b\n", 2, 9),
        (
            "- trigger: state\n  for: {hours: x}\n  entity_id: a.b\n",
            2,
            10,
        ),
        (
            "- trigger: numeric_state\n  entity_id: sensor.t\n  above: sensor.limit\n",
            3,
            10,
        ),
        (
            "- trigger: template\n  value_template: '{{ now() }}'\n",
            2,
            11,
        ),
        (
            "- trigger: event\n  event_type: a\n  event_data: {n: \"{{ 1 }}\"}\n",
            3,
            11,
        ),
        (
            "- trigger: state\n  entity_id: a.b\n  enabled: \"{{ true }}\"\n",
            3,
            7,
        ),
    ];
    assert!(rt; are_refused(rt.alloc(), &rows));
}

#[test]
fn faults_of_kinds(rt: HostRuntime) {
    let rows = [
        ("- trigger: bogus\n  x: y\n- \n", 1, 14),
        ("- trigger: sun\n  event: sunset\n", 1, 14),
        (
            "- device_id: a1\n  domain: light\n  trigger: device\n",
            3,
            14,
        ),
        ("- entity_id: light.hall\n", 1, 14),
        ("- trigger: homeassistant\n  event: shutdown\n", 2, 14),
        ("- \n", 1, 7),
    ];
    assert!(rt; are_refused(rt.alloc(), &rows));
}

/// A list of so many triggers, each on a line of its own.
fn starts(alloc: Global, many: u32) -> Result<String, AllocError> {
    let mut text = String::new(alloc);
    for _ in 0..many {
        text.push_str("- {trigger: homeassistant, event: start}\n")?;
    }
    Ok(text)
}

/// Whether a list of so many triggers is refused, at its last line as one too many, or is not, as is said.
fn is_too_long(alloc: Global, many: u32, wanted: bool) -> bool {
    match starts(alloc, many) {
        Ok(text) => is_refused(alloc, text.as_str(), many, 12) == wanted,
        Err(_) => false,
    }
}

#[test]
fn a_list_has_sixty_four_triggers_at_most(rt: HostRuntime) {
    assert!(rt; is_too_long(rt.alloc(), 65, true) && is_too_long(rt.alloc(), 64, false));
}
