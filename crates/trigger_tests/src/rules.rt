//! Triggers without `for`.
ghost use Rattle.std.specs.Prelude.{IfOk, IsTrue};
ghost use Rattle.ha_config.specs.Sound.{are_sound_triggers, is_sound_match};

use crate::home::Step::{Clock, Event, Gone, Has, Restart, Says};
use crate::home::{EIGHT, goes, goes_at_eight, row};
use crate::triggers::{add, event, event_two, one, over_twenty, plain, state, text};
use ha_config::{Match, Trigger, TriggerRule};
use ha_value::Many;
use std::alloc::{AllocError, Global};

/// Whether it fires where the lamp turns on, and then this where an attribute comes to it.
fn at_an_attribute(alloc: Global, to: Match, fire: &[u32]) -> Result<bool, AllocError>
    requires { IsTrue (is_sound_match to) }
{
    let triggers = one(alloc, state(alloc, &["light.x"], None, to)?)?;
    let rows = [
        row(Says("light.x", "on"), &[0]),
        row(Says("light.x", "on"), &[]),
        row(Has("light.x", "on", 1), fire),
        row(Has("light.x", "on", 1), &[]),
    ];
    goes_at_eight(alloc, &triggers, &rows)
}

#[test]
fn an_attribute_fires_a_bare_trigger_alone(rt: HostRuntime) {
    assert!(rt;
        at_an_attribute(rt.alloc(), Match::Absent, &[0]).unwrap_or(false)
            && at_an_attribute(rt.alloc(), Match::Any, &[]).unwrap_or(false)
    );
}

fn reads_again(alloc: Global) -> Result<bool, AllocError> {
    let triggers = one(alloc, state(alloc, &["sensor.t"], None, Match::Any)?)?;
    let rows = [
        row(Says("sensor.t", "5"), &[0]),
        row(Clock(10_000), &[]),
        row(Says("sensor.t", "5"), &[]),
        row(Clock(20_000), &[]),
        row(Has("sensor.t", "5", 1), &[]),
    ];
    goes_at_eight(alloc, &triggers, &rows)
}

#[test]
fn a_report_equal_to_the_state_fires_nothing(rt: HostRuntime) {
    assert!(rt; reads_again(rt.alloc()).unwrap_or(false));
}

/// A change of any kind, and one to `on`.
fn bare_and_on(alloc: Global) -> Result<Many<Trigger>, AllocError>
    ensures { IfOk result (λ ts. IsTrue (are_sound_triggers ts)) }
{
    let mut triggers = Many::make(alloc);
    let bare = state(alloc, &["light.x"], None, Match::Absent)?;
    add(&mut triggers, plain(alloc, "0", 0, bare))?;
    let on = state(alloc, &["light.x"], None, text(alloc, "on")?)?;
    add(&mut triggers, plain(alloc, "1", 1, on))?;
    Ok(triggers)
}

fn both_fire(alloc: Global) -> Result<bool, AllocError> {
    let triggers = bare_and_on(alloc)?;
    let rows = [
        row(Says("light.x", "on"), &[0, 1]),
        row(Says("light.x", "off"), &[0]),
    ];
    goes_at_eight(alloc, &triggers, &rows)
}

#[test]
fn two_triggers_fire_at_one_entry_in_their_order(rt: HostRuntime) {
    assert!(rt; both_fire(rt.alloc()).unwrap_or(false));
}

fn comes_into_bounds(alloc: Global) -> Result<bool, AllocError> {
    let triggers = one(alloc, over_twenty(alloc, "sensor.t")?)?;
    let rows = [
        row(Says("sensor.t", "20"), &[]),
        row(Says("sensor.t", "20.000001"), &[0]),
        row(Says("sensor.t", "21"), &[]),
        row(Says("sensor.t", "unavailable"), &[]),
        row(Says("sensor.t", "22"), &[]),
    ];
    goes_at_eight(alloc, &triggers, &rows)
}

/// The latest number outlives its entity, and ends with the restart.
fn goes_and_comes_back(alloc: Global) -> Result<bool, AllocError> {
    let triggers = one(alloc, over_twenty(alloc, "sensor.t")?)?;
    let rows = [
        row(Says("sensor.t", "21"), &[0]),
        row(Gone("sensor.t"), &[]),
        row(Says("sensor.t", "22"), &[]),
        row(Says("sensor.t", "19"), &[]),
        row(Says("sensor.t", "23"), &[0]),
        row(Restart("sensor.t"), &[]),
        row(Says("sensor.t", "24"), &[0]),
    ];
    goes_at_eight(alloc, &triggers, &rows)
}

#[test]
fn a_number_fires_once_inside_its_bounds(rt: HostRuntime) {
    assert!(rt;
        comes_into_bounds(rt.alloc()).unwrap_or(false)
            && goes_and_comes_back(rt.alloc()).unwrap_or(false)
    );
}

fn is_named_twice(alloc: Global) -> Result<bool, AllocError> {
    let rule = state(
        alloc,
        &["light.x", "light.y", "light.x"],
        None,
        Match::Absent,
    )?;
    let triggers = one(alloc, rule)?;
    let rows = [
        row(Says("light.x", "on"), &[0]),
        row(Says("light.z", "on"), &[]),
        row(Says("light.y", "on"), &[0]),
    ];
    goes_at_eight(alloc, &triggers, &rows)
}

#[test]
fn an_entity_that_is_named_twice_fires_once(rt: HostRuntime) {
    assert!(rt; is_named_twice(rt.alloc()).unwrap_or(false));
}

/// An event with any data, and one whose number is 2.
fn any_and_two(alloc: Global) -> Result<Many<Trigger>, AllocError>
    ensures { IfOk result (λ ts. IsTrue (are_sound_triggers ts)) }
{
    let mut triggers = Many::make(alloc);
    let any = event(alloc, "go")?;
    add(&mut triggers, plain(alloc, "0", 0, any))?;
    let two = event_two(alloc, "go")?;
    add(&mut triggers, plain(alloc, "1", 1, two))?;
    Ok(triggers)
}

fn comes_with_its_data(alloc: Global) -> Result<bool, AllocError> {
    let triggers = any_and_two(alloc)?;
    let rows = [
        row(Event("go", 1), &[0]),
        row(Event("stop", 2), &[]),
        row(Event("go", 2), &[0, 1]),
    ];
    goes_at_eight(alloc, &triggers, &rows)
}

#[test]
fn an_event_fires_by_its_type_and_its_data(rt: HostRuntime) {
    assert!(rt; comes_with_its_data(rt.alloc()).unwrap_or(false));
}

fn starts(alloc: Global) -> Result<bool, AllocError> {
    let triggers = one(alloc, TriggerRule::Start)?;
    let rows = [
        row(Says("light.x", "on"), &[]),
        row(Restart("light.x"), &[]),
        row(Clock(1_000), &[]),
    ];
    goes(alloc, "UTC", EIGHT, &triggers, &[0], &rows)
}

#[test]
fn a_start_trigger_fires_at_the_boot_alone(rt: HostRuntime) {
    assert!(rt; starts(rt.alloc()).unwrap_or(false));
}
