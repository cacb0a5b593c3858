//! Switches, and the texts that store them.
ghost use Rattle.std.specs.Prelude.{◌≡◌, true, IfOk, IsTrue, length};
ghost use Rattle.ha_value.specs.Ids.{is_name};
ghost use Rattle.ha_config.specs.Sound.{are_sound_automations, is_sound_automation};

use ha_clock::{Moment, read_moment};
use ha_config::{Automation, Config, Mode};
use ha_value::{Many, Word};
use std::alloc::{AllocError, Global};
use store_text::{StoreFault, read_store};
use switch_book::Switches;

/// An automation without triggers, conditions and actions.
fn automation(alloc: Global, name: &str, initial: Option<bool>) -> Result<Automation, AllocError>
    ensures name { IfOk result (λ a. a.name ≡ name.now) }
    ensures sound { IfOk result (λ a. is_name name.now ≡ true → is_sound_automation a ≡ true) }
{
    Ok(Automation {
        name: Word::from_str(alloc, name)?,
        triggers: Many::make(alloc),
        tests: Many::make(alloc),
        actions: Many::make(alloc),
        mode: Mode::Single,
        max: 10,
        initial,
    })
}

/// Automations `porch` and `attic`, of which the second may have an initial state.
fn house(alloc: Global, initial: Option<bool>) -> Result<Config, AllocError>
    ensures sound { IfOk result (λ c. IsTrue (are_sound_automations c.automations)) }
    ensures two { IfOk result (λ c. length c.automations ≡ 2) }
{
    let porch = automation(alloc, "porch", None)?;
    let attic = automation(alloc, "attic", initial)?;
    let mut automations = Many::make(alloc);
    automations.push(porch)?;
    automations.push(attic)?;
    Ok(Config {
        automations,
        scripts: Many::make(alloc),
        helpers: Many::make(alloc),
    })
}

/// Whether a text is refused with this code.
fn is_refused(alloc: Global, text: &[u8], code: u8) -> bool {
    match read_store(alloc, text) {
        Err(StoreFault::Refused(found)) => found == code,
        _ => false,
    }
}

/// Whether each of the texts is refused with this code.
fn are_refused(alloc: Global, texts: &[&str], code: u8) -> bool {
    for text in texts {
        if !is_refused(alloc, text.as_bytes(), code) {
            return false;
        }
    }
    true
}

/// Whether each of the texts holds the switch `a`, off, and no other.
fn are_read(alloc: Global, texts: &[&str]) -> bool {
    for text in texts {
        if !is_read(alloc, text) {
            return false;
        }
    }
    true
}

/// Whether a text holds the switch `a`, off, and no other, and no moment.
fn is_read(alloc: Global, text: &str) -> bool {
    match read_store(alloc, text.as_bytes()) {
        Ok(found) => {
            found.switches.len() == 1 && is_a_off(found.switches.get(0)) && found.last.is_empty()
        }
        Err(_) => false,
    }
}

/// Whether there is a switch, which is `a` and off.
fn is_a_off(switch: Option<&(Word, bool)>) -> bool {
    match switch {
        Some(switch) => switch.0.as_str() == "a" && !switch.1,
        None => false,
    }
}

/// Whether what was stored is stored again as this text.
fn is_stored_as(
    alloc: Global,
    text: &str,
    initial: Option<bool>,
    again: &str,
) -> Result<bool, AllocError> {
    let Ok(stored) = read_store(alloc, text.as_bytes()) else {
        return Ok(false);
    };
    let switches = Switches::restore(alloc, &house(alloc, initial)?, Some(&stored.switches))?;
    Ok(switches.store_text(alloc, &Many::make(alloc))?.as_str() == again)
}

#[test]
fn the_keys_of_a_store_come_in_any_order(rt: HostRuntime) {
    let texts = [
        "{\"switches\":{\"a\":false},\"version\":1}",
        "{\"version\":1,\"switches\":{\"a\":false}}",
        "{\"last\":{},\"switches\":{\"a\":false},\"version\":2}",
        "{\"version\":2,\"switches\":{\"a\":false},\"last\":{}}",
        " {\n\"version\" : 1 ,\t\"switches\" : { \"a\" : false } } ",
        "{\"\\u0073witches\":{\"\\u0061\":false},\"version\":1}",
    ];
    assert!(rt; are_read(rt.alloc(), &texts));
}

#[test]
fn of_a_key_that_stands_twice_the_last_counts(rt: HostRuntime) {
    let texts = [
        "{\"switches\":{\"a\":true,\"a\":false},\"version\":1}",
        "{\"switches\":{\"b\":true},\"switches\":{\"a\":false},\"version\":1}",
        "{\"version\":1,\"switches\":7,\"switches\":{\"a\":false}}",
        "{\"version\":2,\"switches\":{\"a\":false},\"version\":1}",
        "{\"version\":3,\"last\":7,\"switches\":{\"a\":false},\"last\":{},\"version\":2}",
    ];
    assert!(rt; are_read(rt.alloc(), &texts));
}

#[test]
fn no_json_is_s1(rt: HostRuntime) {
    let texts = [
        "{",
        "",
        "{\"switches\":{},\"version\":1}}",
        "{\"switches\":{},\"version\":1,}",
        "{\"version\":1e400}",
        "{'switches':{},'version':1}",
    ];
    let bytes = b"{\"switches\":{\"\xff\":true},\"version\":1}";
    assert!(rt; are_refused(rt.alloc(), &texts, 1) && is_refused(rt.alloc(), bytes.as_slice(), 1));
}

/// A text that opens so many lists.
fn deep(alloc: Global, count: u32) -> Result<Vec<u8>, AllocError> {
    let mut text = Vec::new(alloc);
    for _ in 0..count {
        text.push(b'[')?;
    }
    Ok(text)
}

fn is_deep_refused(alloc: Global, count: u32, code: u8) -> bool {
    match deep(alloc, count) {
        Ok(text) => is_refused(alloc, text.as_slice(), code),
        Err(_) => false,
    }
}

#[test]
fn a_text_a_million_deep_is_s1(rt: HostRuntime) {
    assert!(rt; is_deep_refused(rt.alloc(), 1_000_000, 1));
}

#[test]
fn other_kinds_are_s2(rt: HostRuntime) {
    let texts = [
        "[]",
        "null",
        "{\"version\":\"1\",\"switches\":{}}",
        "{\"version\":true,\"switches\":{}}",
        "{\"version\":1.0,\"switches\":{}}",
        "{\"version\":-0,\"switches\":{}}",
        "{\"version\":18446744073709551616,\"switches\":{}}",
        "{\"version\":1,\"switches\":[]}",
        "{\"version\":1,\"switches\":null}",
        "{\"version\":1,\"switches\":{\"a\":1}}",
        "{\"version\":1,\"switches\":{\"a\":\"on\"}}",
        "{\"version\":2,\"switches\":[],\"last\":{}}",
        "{\"version\":2,\"switches\":{},\"last\":[]}",
        "{\"version\":2,\"switches\":{},\"last\":{\"a\":1714593600000}}",
        "{\"version\":2,\"switches\":{},\"last\":{\"a\":\"2024-05-01\"}}",
        "{\"version\":2,\"switches\":{},\"last\":{\"a\":\"3000-01-01T00:00:00Z\"}}",
    ];
    assert!(rt; are_refused(rt.alloc(), &texts, 2));
}

#[test]
fn other_keys_are_s2(rt: HostRuntime) {
    let texts = [
        "{\"version\":1}",
        "{\"switches\":{\"a\":true}}",
        "{}",
        "{\"version\":1,\"switches\":{},\"last\":{}}",
        "{\"version\":1,\"switch\":{}}",
        "{\"version\":1,\"Switches\":{}}",
        "{\"version\":2}",
        "{\"version\":2,\"switches\":{}}",
        "{\"version\":2,\"last\":{}}",
        "{\"version\":2,\"switches\":{},\"last\":{},\"next\":{}}",
    ];
    assert!(rt; are_refused(rt.alloc(), &texts, 2));
}

#[test]
fn another_version_is_s3(rt: HostRuntime) {
    let texts = [
        "{\"version\":3}",
        "{\"version\":0,\"switches\":{}}",
        "{\"version\":-1}",
        "{\"version\":3,\"switches\":[],\"last\":{}}",
        "{\"version\":18446744073709551615}",
    ];
    assert!(rt; are_refused(rt.alloc(), &texts, 3));
}

#[test]
fn names_are_stored_in_byte_order(rt: HostRuntime) {
    let stored = "{\"switches\":{\"cellar\":true,\"porch\":false},\"version\":1}";
    let again = "{\"last\":{},\"switches\":{\"attic\":true,\"porch\":false},\"version\":2}";
    assert!(rt; is_stored_as(rt.alloc(), stored, None, again).unwrap_or(false));
}

#[test]
fn an_initial_state_stands_over_the_store(rt: HostRuntime) {
    let stored = "{\"switches\":{\"attic\":true},\"version\":1}";
    let again = "{\"last\":{},\"switches\":{\"attic\":false,\"porch\":true},\"version\":2}";
    assert!(rt; is_stored_as(rt.alloc(), stored, Some(false), again).unwrap_or(false));
}

/// Whether the porch and the attic are so, and there is no third switch.
fn are(switches: &Switches, porch: bool, attic: bool) -> bool {
    switches.is_on(0) == Some(porch)
        && switches.is_on(1) == Some(attic)
        && switches.is_on(2).is_none()
}

/// Sets a switch that there is, and says whether it changed.
fn turn(switches: &mut Switches, automation: u32, on: bool) -> bool {
    match switches.is_on(automation) {
        Some(_) => switches.set(automation, on),
        None => false,
    }
}

/// Whether the switches go as wanted: set, set as they are, and at a restart, where the attic has an initial state.
fn go(alloc: Global) -> Result<bool, AllocError> {
    let house = house(alloc, Some(false))?;
    let mut switches = Switches::restore(alloc, &house, None)?;
    let booted = are(&switches, true, false);
    let changed = turn(&mut switches, 0, false)
        && turn(&mut switches, 1, true)
        && !turn(&mut switches, 1, true);
    let set = are(&switches, false, true);
    switches.restart(&house);
    Ok(booted && changed && set && are(&switches, false, false))
}

#[test]
fn a_restart_sets_the_initial_states_alone(rt: HostRuntime) {
    assert!(rt; go(rt.alloc()).unwrap_or(false));
}

/// Automations `attic`, `porch` and `cellar`.
fn larger_house(alloc: Global) -> Result<Config, AllocError>
    ensures sound { IfOk result (λ c. IsTrue (are_sound_automations c.automations)) }
    ensures three { IfOk result (λ c. length c.automations ≡ 3) }
{
    let attic = automation(alloc, "attic", None)?;
    let porch = automation(alloc, "porch", None)?;
    let cellar = automation(alloc, "cellar", None)?;
    let mut automations = Many::make(alloc);
    automations.push(attic)?;
    automations.push(porch)?;
    automations.push(cellar)?;
    Ok(Config {
        automations,
        scripts: Many::make(alloc),
        helpers: Many::make(alloc),
    })
}

/// Whether the switches go on behind a reload: by the number that the attic keeps, by the name of the porch, which has another number
/// then, and the new cellar is on.
fn reload(alloc: Global) -> Result<bool, AllocError> {
    let mut switches = Switches::restore(alloc, &house(alloc, None)?, None)?;
    let turned = turn(&mut switches, 0, false) && turn(&mut switches, 1, false);
    let numbers = [1u32, 2, 3];
    let after = switches.reload(alloc, &larger_house(alloc)?, numbers.as_slice())?;
    Ok(
        turned
            && after.is_on(0).is_none()
            && after.is_on(1) == Some(false)
            && after.is_on(2) == Some(false)
            && after.is_on(3) == Some(true)
            && after.at(0) == Some(false),
    )
}

#[test]
fn switches_go_on_by_numbers_and_names(rt: HostRuntime) {
    assert!(rt; reload(rt.alloc()).unwrap_or(false));
}

/// Whether a text that is read has these moments, by name.
fn has_moments(alloc: Global, text: &str, wanted: &[(&str, &str)]) -> bool {
    match read_store(alloc, text.as_bytes()) {
        Ok(found) => found.last.len() == wanted.len() && are_moments(found.last.as_slice(), wanted),
        Err(_) => false,
    }
}

/// Whether these are the moments, by name, each as far as both go.
fn are_moments(last: &[(Word, Moment)], wanted: &[(&str, &str)]) -> bool {
    for (pair, want) in last.iter().zip(wanted) {
        if pair.0.as_str() != want.0 || Some(pair.1) != read_moment(want.1.as_bytes()) {
            return false;
        }
    }
    true
}

#[test]
fn moments_are_read_in_byte_order(rt: HostRuntime) {
    let text =
        "{\"last\":{\"b\":\"2024-05-01T20:00:00Z\",\"a\":\"1970-01-01T00:00:00.5Z\"},\"switches\":{},\"version\":2}";
    let wanted = [
        ("a", "1970-01-01T00:00:00.500Z"),
        ("b", "2024-05-01T20:00:00.000Z"),
    ];
    assert!(rt; has_moments(rt.alloc(), text, &wanted));
}
