//! Triggers with `for`.
use crate::home::Step::{Clock, Gone, Has, Restart, Says};
use crate::home::{Expected, goes_at_eight, goes_until_detached, row};
use crate::triggers::{held, over_twenty, state, text};
use ha_config::Match;
use std::alloc::{AllocError, Global};

const DOOR: &str = "binary_sensor.d";

/// Whether a door that is to be on for five seconds fires as wanted.
fn door_fires(alloc: Global, rows: &[Expected<'_>]) -> Result<bool, AllocError> {
    let rule = state(alloc, &[DOOR], None, text(alloc, "on")?)?;
    let triggers = held(alloc, rule)?;
    goes_at_eight(alloc, &triggers, rows)
}

#[test]
fn a_change_cuts_a_hold(rt: HostRuntime) {
    let rows = [
        row(Says(DOOR, "on"), &[]),
        row(Clock(3_000), &[]),
        row(Says(DOOR, "off"), &[]),
        row(Says(DOOR, "on"), &[]),
        row(Clock(5_000), &[]),
        row(Clock(8_000), &[0]),
        row(Clock(20_000), &[]),
    ];
    assert!(rt; door_fires(rt.alloc(), &rows).unwrap_or(false));
}

#[test]
fn the_same_state_again_leaves_a_hold(rt: HostRuntime) {
    let rows = [
        row(Says(DOOR, "on"), &[]),
        row(Clock(4_000), &[]),
        row(Says(DOOR, "on"), &[]),
        row(Has(DOOR, "on", 1), &[]),
        row(Clock(5_000), &[0]),
        row(Clock(9_000), &[]),
    ];
    assert!(rt; door_fires(rt.alloc(), &rows).unwrap_or(false));
}

#[test]
fn what_goes_cuts_a_hold(rt: HostRuntime) {
    let rows = [
        row(Says(DOOR, "on"), &[]),
        row(Clock(1_000), &[]),
        row(Gone(DOOR), &[]),
        row(Clock(6_000), &[]),
    ];
    assert!(rt; door_fires(rt.alloc(), &rows).unwrap_or(false));
}

#[test]
fn a_restart_cuts_a_hold(rt: HostRuntime) {
    let rows = [
        row(Says(DOOR, "on"), &[]),
        row(Clock(1_000), &[]),
        row(Restart(DOOR), &[]),
        row(Clock(6_000), &[]),
        row(Says(DOOR, "on"), &[]),
        row(Clock(11_000), &[0]),
    ];
    assert!(rt; door_fires(rt.alloc(), &rows).unwrap_or(false));
}

/// Whether an attribute that is to be as it is for five seconds, whatever it is, fires as wanted.
fn attribute_fires(alloc: Global, rows: &[Expected<'_>]) -> Result<bool, AllocError> {
    let rule = state(alloc, &["light.x"], Some("b"), Match::Absent)?;
    let triggers = held(alloc, rule)?;
    goes_at_eight(alloc, &triggers, rows)
}

#[test]
fn an_absent_attribute_stays_absent_over_a_gone(rt: HostRuntime) {
    let rows = [
        row(Has("light.x", "on", 1), &[]),
        row(Clock(1_000), &[]),
        row(Says("light.x", "on"), &[]),
        row(Gone("light.x"), &[]),
        row(Clock(5_000), &[]),
        row(Clock(6_000), &[0]),
    ];
    assert!(rt; attribute_fires(rt.alloc(), &rows).unwrap_or(false));
}

#[test]
fn an_attribute_that_comes_cuts_the_hold_of_its_absence(rt: HostRuntime) {
    let rows = [
        row(Has("light.x", "on", 1), &[]),
        row(Says("light.x", "on"), &[]),
        row(Clock(4_000), &[]),
        row(Has("light.x", "on", 1), &[]),
        row(Clock(5_000), &[]),
        row(Clock(9_000), &[0]),
    ];
    assert!(rt; attribute_fires(rt.alloc(), &rows).unwrap_or(false));
}

fn both_end(alloc: Global) -> Result<bool, AllocError> {
    let rule = state(alloc, &[DOOR, "light.x"], None, Match::Absent)?;
    let triggers = held(alloc, rule)?;
    let rows = [
        row(Says(DOOR, "on"), &[]),
        row(Says("light.x", "on"), &[]),
        row(Clock(4_999), &[]),
        row(Clock(5_000), &[0, 0]),
        row(Clock(10_000), &[]),
    ];
    goes_at_eight(alloc, &triggers, &rows)
}

#[test]
fn holds_may_end_together(rt: HostRuntime) {
    assert!(rt; both_end(rt.alloc()).unwrap_or(false));
}

/// A number in its bounds leaves a hold, and so does a text that is no number.
fn number_holds(alloc: Global) -> Result<bool, AllocError> {
    let triggers = held(alloc, over_twenty(alloc, "sensor.t")?)?;
    let rows = [
        row(Says("sensor.t", "21"), &[]),
        row(Clock(3_000), &[]),
        row(Says("sensor.t", "22"), &[]),
        row(Says("sensor.t", "unavailable"), &[]),
        row(Clock(5_000), &[0]),
        row(Says("sensor.t", "23"), &[]),
        row(Clock(10_000), &[]),
    ];
    goes_at_eight(alloc, &triggers, &rows)
}

#[test]
fn a_number_that_stays_in_its_bounds_holds(rt: HostRuntime) {
    assert!(rt; number_holds(rt.alloc()).unwrap_or(false));
}

/// Whether a hold fires no more once its trigger is detached, alone or with all.
fn ends_detached(alloc: Global, all: bool) -> Result<bool, AllocError> {
    let rule = state(alloc, &[DOOR], None, text(alloc, "on")?)?;
    let triggers = held(alloc, rule)?;
    let rows = [
        row(Says(DOOR, "on"), &[]),
        row(Clock(5_000), &[0]),
        row(Says(DOOR, "off"), &[]),
        row(Says(DOOR, "on"), &[]),
    ];
    let later = [
        row(Clock(10_000), &[]),
        row(Says(DOOR, "off"), &[]),
        row(Says(DOOR, "on"), &[]),
        row(Clock(15_000), &[]),
    ];
    goes_until_detached(alloc, &triggers, &rows, all, &later)
}

#[test]
fn what_is_detached_fires_no_more(rt: HostRuntime) {
    assert!(rt;
        ends_detached(rt.alloc(), false).unwrap_or(false)
            && ends_detached(rt.alloc(), true).unwrap_or(false)
    );
}
