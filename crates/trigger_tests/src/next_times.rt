//! The next time of rules behind a moment.
use crate::triggers::{add, one, plain};
use ha_clock::{Zone, read_moment};
use ha_config::{Trigger, TriggerRule, Unit};
use ha_value::Many;
use std::alloc::{AllocError, Global};
use time_next::{next_of, next_time};

const BERLIN: &str = "CET-1CEST,M3.5.0,M10.5.0/3";

/// A moment, and the next time behind it.
type Row<'a> = (&'a str, &'a str);

/// Whether the next time of the rule behind a moment is as wanted.
fn is_next(rule: &TriggerRule, zone: &Zone, after: &str, wanted: &str) -> bool {
    let Some(after) = read_moment(after.as_bytes()) else {
        return false;
    };
    read_moment(wanted.as_bytes()) == Some(next_time(rule, zone, after))
}

/// The same, behind each of these moments.
fn are_next(alloc: Global, rule: &TriggerRule, zone: &str, rows: &[Row<'_>]) -> bool {
    let Ok(zone) = Zone::read(alloc, zone.as_bytes()) else {
        return false;
    };
    for row in rows {
        if !is_next(rule, &zone, row.0, row.1) {
            return false;
        }
    }
    true
}

fn listed(alloc: Global, seconds: &[u32]) -> Result<Many<u32>, AllocError> {
    let mut listed = Many::make(alloc);
    for second in seconds {
        listed.push(*second)?;
    }
    Ok(listed)
}

/// The same, of a rule with these seconds of the day.
fn times(alloc: Global, zone: &str, seconds: &[u32], rows: &[Row<'_>]) -> Result<bool, AllocError> {
    let seconds = listed(alloc, seconds)?;
    Ok(are_next(alloc, &TriggerRule::Time(seconds), zone, rows))
}

/// The same, of a pattern, in UTC.
fn pattern(alloc: Global, hours: Unit, minutes: Unit, seconds: Unit, rows: &[Row<'_>]) -> bool {
    let rule = TriggerRule::Pattern {
        hours,
        minutes,
        seconds,
    };
    are_next(alloc, &rule, "UTC", rows)
}

#[test]
fn the_next_of_two_times_comes(rt: HostRuntime) {
    let rows = [
        ("2024-05-01T06:59:59.999Z", "2024-05-01T07:00:00Z"),
        ("2024-05-01T07:00:00Z", "2024-05-01T19:00:00Z"),
        ("2024-05-01T18:59:59Z", "2024-05-01T19:00:00Z"),
        ("2024-05-01T19:00:00Z", "2024-05-02T07:00:00Z"),
    ];
    assert!(rt; times(rt.alloc(), "UTC", &[68_400, 25_200], &rows).unwrap_or(false));
}

#[test]
fn midnight_comes_each_day(rt: HostRuntime) {
    let rows = [
        ("2024-02-28T23:59:59Z", "2024-02-29T00:00:00Z"),
        ("2024-02-29T00:00:00Z", "2024-03-01T00:00:00Z"),
        ("2999-12-30T12:00:00Z", "2999-12-31T00:00:00Z"),
    ];
    assert!(rt; times(rt.alloc(), "UTC", &[0], &rows).unwrap_or(false));
}

#[test]
fn a_time_is_that_of_the_zone(rt: HostRuntime) {
    // half past two, and half past six in the evening, are midnight in UTC
    let ahead = [
        ("2024-05-01T20:00:00Z", "2024-05-02T00:00:00Z"),
        ("2024-05-02T00:00:00Z", "2024-05-03T00:00:00Z"),
    ];
    let behind = [
        ("1970-01-01T00:00:00Z", "1970-01-02T00:00:00Z"),
        ("1970-01-01T23:59:59.999Z", "1970-01-02T00:00:00Z"),
    ];
    assert!(rt;
        times(rt.alloc(), "+02:30", &[9000], &ahead).unwrap_or(false)
            && times(rt.alloc(), "-05:30", &[66_600], &behind).unwrap_or(false)
    );
}

#[test]
fn a_pattern_comes_at_its_next_second(rt: HostRuntime) {
    let five_minutes = [
        ("2024-05-01T12:03:10Z", "2024-05-01T12:05:00Z"),
        ("2024-05-01T12:05:00Z", "2024-05-01T12:10:00Z"),
        ("2024-05-01T23:55:00Z", "2024-05-02T00:00:00Z"),
    ];
    let three = [
        ("2024-05-01T20:00:00Z", "2024-05-02T03:00:00Z"),
        ("2024-05-02T03:59:59Z", "2024-05-03T03:00:00Z"),
        ("2024-05-02T03:00:00Z", "2024-05-02T03:00:01Z"),
    ];
    assert!(rt;
        pattern(
            rt.alloc(),
            Unit::Every,
            Unit::Each(5),
            Unit::Exact(0),
            &five_minutes
        ) && pattern(rt.alloc(), Unit::Exact(3), Unit::Every, Unit::Every, &three)
    );
}

#[test]
fn one_asks_again_at_a_change_of_the_clock(rt: HostRuntime) {
    // half past two: in spring the clock skips it, in autumn it comes twice
    let rows = [
        ("2024-03-30T12:00:00Z", "2024-03-31T00:00:00Z"),
        ("2024-03-31T00:00:00Z", "2024-03-31T01:00:00Z"),
        ("2024-03-31T01:00:00Z", "2024-04-01T00:00:00Z"),
        ("2024-04-01T00:00:00Z", "2024-04-01T00:30:00Z"),
        ("2024-10-27T00:00:00Z", "2024-10-27T00:30:00Z"),
        ("2024-10-27T00:30:00Z", "2024-10-27T01:00:00Z"),
        ("2024-10-27T01:00:00Z", "2024-10-27T01:30:00Z"),
    ];
    assert!(rt; times(rt.alloc(), BERLIN, &[9000], &rows).unwrap_or(false));
}

#[test]
fn where_none_comes_one_asks_a_day_later(rt: HostRuntime) {
    let rows = [("2024-05-01T20:00:00.250Z", "2024-05-02T20:00:00Z")];
    assert!(rt; times(rt.alloc(), "UTC", &[], &rows).unwrap_or(false));
}

/// Whether the next time of the triggers in UTC, if there is one, is as wanted behind a moment.
fn is_earliest(triggers: &[Trigger], zone: &Zone, after: &str, wanted: &str) -> bool {
    let Some(after) = read_moment(after.as_bytes()) else {
        return false;
    };
    next_of(triggers, zone, after) == read_moment(wanted.as_bytes())
}

/// The same, behind each of these moments.
fn are_earliest(alloc: Global, triggers: &Many<Trigger>, rows: &[Row<'_>]) -> bool {
    let Ok(zone) = Zone::read(alloc, b"UTC") else {
        return false;
    };
    for row in rows {
        if !is_earliest(triggers.as_slice(), &zone, row.0, row.1) {
            return false;
        }
    }
    true
}

/// The start, a pattern in each hour, and a time at night.
fn several(alloc: Global) -> Result<Many<Trigger>, AllocError> {
    let mut triggers = Many::make(alloc);
    add(&mut triggers, plain(alloc, "0", 0, TriggerRule::Start))?;
    let at_fifty = TriggerRule::Pattern {
        hours: Unit::Every,
        minutes: Unit::Exact(50),
        seconds: Unit::Exact(0),
    };
    add(&mut triggers, plain(alloc, "0", 1, at_fifty))?;
    let at_three = TriggerRule::Pattern {
        hours: Unit::Exact(3),
        minutes: Unit::Exact(0),
        seconds: Unit::Exact(0),
    };
    add(&mut triggers, plain(alloc, "0", 2, at_three))?;
    Ok(triggers)
}

fn comes_of_several(alloc: Global, rows: &[Row<'_>]) -> Result<bool, AllocError> {
    let triggers = several(alloc)?;
    Ok(are_earliest(alloc, &triggers, rows))
}

fn comes_of_start(alloc: Global, rows: &[Row<'_>]) -> Result<bool, AllocError> {
    let triggers = one(alloc, TriggerRule::Start)?;
    Ok(are_earliest(alloc, &triggers, rows))
}

#[test]
fn the_earliest_of_several_triggers_comes(rt: HostRuntime) {
    let rows = [
        ("2024-05-01T12:50:00Z", "2024-05-01T13:50:00Z"),
        ("2024-05-02T02:50:00Z", "2024-05-02T03:00:00Z"),
        ("2024-05-02T03:00:00Z", "2024-05-02T03:50:00Z"),
    ];
    assert!(rt; comes_of_several(rt.alloc(), &rows).unwrap_or(false));
}

#[test]
fn a_start_has_no_next_time(rt: HostRuntime) {
    let rows = [("2024-05-01T12:50:00Z", "")];
    assert!(rt; comes_of_start(rt.alloc(), &rows).unwrap_or(false));
}
