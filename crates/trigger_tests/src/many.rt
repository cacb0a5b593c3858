//! An owner with a trigger on many entities, beside triggers of other kinds.
ghost use Rattle.std.specs.Prelude.{IfOk, IsTrue};
ghost use Rattle.ha_config.specs.Sound.{are_sound_triggers, is_sound_rule, is_sound_trigger, may_hold};

use crate::home::Step::{Clock, Event, Gone, Has, Restart, Says};
use crate::home::{Expected, goes_at_eight, goes_until_detached, row};
use crate::templates::over_twenty as template_over_twenty;
use crate::triggers::{add, event, five_seconds, over_twenty, plain, state, text};
use ha_config::{Trigger, TriggerRule};
use ha_value::{Many, Word};
use std::alloc::{AllocError, Global};

/// The ids of twenty lights.
const LIGHTS: [&str; 20] = [
    "light.a", "light.b", "light.c", "light.d", "light.e", "light.f", "light.g", "light.h",
    "light.i", "light.j", "light.k", "light.l", "light.m", "light.n", "light.o", "light.p",
    "light.q", "light.r", "light.s", "light.t",
];

/// Three seconds past eight in the evening.
fn just_past_eight(alloc: Global) -> Result<TriggerRule, AllocError>
    ensures { IfOk result (λ rule. IsTrue (is_sound_rule rule)) }
{
    let mut seconds = Many::make(alloc);
    seconds.push(72_003)?;
    Ok(TriggerRule::Time(seconds))
}

/// The first of a list, with a `for` of five seconds.
fn first(alloc: Global, rule: TriggerRule) -> Trigger
    requires sound { IsTrue (is_sound_rule rule) }
    requires may { IsTrue (may_hold rule) }
    ensures { IsTrue (is_sound_trigger result) }
{
    let hold = five_seconds();
    Trigger {
        id: Word::short(alloc, "0"),
        idx: 0,
        rule,
        hold,
    }
}

/// One of the lights is on for five seconds (0), an event (1), a template on a number (2), a time (3), and the number itself (4).
fn mixed(alloc: Global) -> Result<Many<Trigger>, AllocError>
    ensures { IfOk result (λ ts. IsTrue (are_sound_triggers ts)) }
{
    let mut triggers = Many::make(alloc);
    let lights = state(alloc, &LIGHTS, None, text(alloc, "on")?)?;
    add(&mut triggers, first(alloc, lights))?;
    let tick = event(alloc, "tick")?;
    add(&mut triggers, plain(alloc, "0", 1, tick))?;
    let template = template_over_twenty(alloc, "sensor.t")?;
    add(&mut triggers, plain(alloc, "0", 2, template))?;
    let time = just_past_eight(alloc)?;
    add(&mut triggers, plain(alloc, "0", 3, time))?;
    let number = over_twenty(alloc, "sensor.t")?;
    add(&mut triggers, plain(alloc, "0", 4, number))?;
    Ok(triggers)
}

/// Whether they fire as wanted.
fn fire(alloc: Global, rows: &[Expected<'_>]) -> Result<bool, AllocError> {
    let triggers = mixed(alloc)?;
    goes_at_eight(alloc, &triggers, rows)
}

#[test]
fn each_light_has_a_hold_of_its_own(rt: HostRuntime) {
    let rows = [
        row(Says("light.c", "on"), &[]),
        row(Clock(1_000), &[]),
        row(Says("light.r", "on"), &[]),
        row(Says("light.c", "on"), &[]),
        row(Has("light.d", "off", 1), &[]),
        row(Clock(3_000), &[3]),
        row(Clock(5_000), &[0]),
        row(Says("light.r", "off"), &[]),
        row(Clock(6_000), &[]),
        row(Says("light.t", "on"), &[]),
        row(Says("light.a", "on"), &[]),
        row(Gone("light.c"), &[]),
        row(Clock(11_000), &[0, 0]),
        row(Clock(30_000), &[]),
    ];
    assert!(rt; fire(rt.alloc(), &rows).unwrap_or(false));
}

#[test]
fn the_other_kinds_fire_beside_the_lights(rt: HostRuntime) {
    let rows = [
        row(Says("light.b", "on"), &[]),
        row(Event("tick", 1), &[1]),
        row(Event("tock", 1), &[]),
        row(Says("sensor.t", "21"), &[2, 4]),
        row(Says("sensor.t", "22"), &[]),
        row(Says("sensor.u", "21"), &[]),
        row(Says("sensor.t", "19"), &[]),
        row(Says("sensor.t", "23"), &[2, 4]),
        row(Clock(5_000), &[0, 3]),
        row(Event("tick", 2), &[1]),
    ];
    assert!(rt; fire(rt.alloc(), &rows).unwrap_or(false));
}

#[test]
fn a_restart_ends_the_hold_of_a_light(rt: HostRuntime) {
    let rows = [
        row(Says("light.b", "on"), &[]),
        row(Clock(4_000), &[3]),
        row(Restart("light.b"), &[]),
        row(Clock(9_000), &[]),
        row(Says("light.s", "on"), &[]),
        row(Clock(14_000), &[0]),
    ];
    assert!(rt; fire(rt.alloc(), &rows).unwrap_or(false));
}

/// Whether nothing fires once they are detached.
fn ends_detached(alloc: Global) -> Result<bool, AllocError> {
    let triggers = mixed(alloc)?;
    let rows = [row(Says("light.b", "on"), &[]), row(Event("tick", 1), &[1])];
    let later = [
        row(Clock(5_000), &[]),
        row(Event("tick", 1), &[]),
        row(Says("sensor.t", "21"), &[]),
    ];
    goes_until_detached(alloc, &triggers, &rows, false, &later)
}

#[test]
fn what_is_detached_fires_for_no_light(rt: HostRuntime) {
    assert!(rt; ends_detached(rt.alloc()).unwrap_or(false));
}
