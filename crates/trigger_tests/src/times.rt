//! Times that pass.
ghost use Rattle.std.specs.Prelude.{◌&&◌, IsTrue};
ghost use Rattle.ha_config.specs.Sound.{is_sound_unit};

use crate::home::Step::Clock;
use crate::home::{EIGHT, Expected, goes, goes_at_eight, row};
use crate::triggers::one;
use ha_config::{TriggerRule, Unit};
use ha_value::Many;
use std::alloc::{AllocError, Global};

const BERLIN: &str = "CET-1CEST,M3.5.0,M10.5.0/3";

// 2024-03-31T00:50:00Z, ten minutes before the clocks of Berlin go from two to three
const SPRING: u64 = 1_711_846_200_000;

// 2024-10-27T00:00:00Z, an hour before they go from three to two
const AUTUMN: u64 = 1_729_987_200_000;

/// Whether a trigger at half past two fires at each of these moments as wanted.
fn fires_at_half_past_two(
    alloc: Global,
    zone: &str,
    start: u64,
    rows: &[Expected<'_>],
) -> Result<bool, AllocError> {
    let mut seconds = Many::make(alloc);
    seconds.push(9000)?;
    let triggers = one(alloc, TriggerRule::Time(seconds))?;
    goes(alloc, zone, start, &triggers, &[], rows)
}

#[test]
fn a_time_that_the_clock_skips_does_not_come(rt: HostRuntime) {
    // twenty minutes later it is ten past three there; a day later half past two has come
    let rows = [row(Clock(1_200_000), &[]), row(Clock(86_400_000), &[0])];
    assert!(rt; fires_at_half_past_two(rt.alloc(), BERLIN, SPRING, &rows).unwrap_or(false));
}

#[test]
fn a_time_that_comes_twice_fires_twice(rt: HostRuntime) {
    let rows = [row(Clock(2_700_000), &[0]), row(Clock(6_300_000), &[0])];
    assert!(rt; fires_at_half_past_two(rt.alloc(), BERLIN, AUTUMN, &rows).unwrap_or(false));
}

#[test]
fn a_second_is_passed_once(rt: HostRuntime) {
    // half past two there is midnight in UTC
    let rows = [
        row(Clock(14_399_999), &[]),
        row(Clock(14_400_000), &[0]),
        row(Clock(14_400_999), &[]),
        row(Clock(14_401_000), &[]),
    ];
    assert!(rt; fires_at_half_past_two(rt.alloc(), "+02:30", EIGHT, &rows).unwrap_or(false));
}

/// Whether a pattern fires as wanted where the clock goes on from eight at once.
fn passes(
    alloc: Global,
    hours: Unit,
    minutes: Unit,
    seconds: Unit,
    rows: &[Expected<'_>],
) -> Result<bool, AllocError>
    requires { IsTrue (is_sound_unit hours && is_sound_unit minutes && is_sound_unit seconds) }
{
    let rule = TriggerRule::Pattern {
        hours,
        minutes,
        seconds,
    };
    let triggers = one(alloc, rule)?;
    goes_at_eight(alloc, &triggers, rows)
}

#[test]
fn a_pattern_fires_once_for_many_seconds(rt: HostRuntime) {
    let two_days = [row(Clock(172_800_000), &[0])];
    assert!(rt;
        passes(
            rt.alloc(),
            Unit::Every,
            Unit::Each(5),
            Unit::Exact(0),
            &two_days
        )
        .unwrap_or(false)
    );
}

#[test]
fn a_pattern_fires_at_its_second(rt: HostRuntime) {
    // the second of the start, at which the pattern fits, is left and not passed
    let five_minutes = [row(Clock(299_999), &[]), row(Clock(300_000), &[0])];
    let three = [row(Clock(25_199_999), &[]), row(Clock(25_200_000), &[0])];
    assert!(rt;
        passes(
            rt.alloc(),
            Unit::Every,
            Unit::Each(5),
            Unit::Exact(0),
            &five_minutes
        )
        .unwrap_or(false)
            && passes(rt.alloc(), Unit::Exact(3), Unit::Every, Unit::Every, &three).unwrap_or(false)
    );
}
