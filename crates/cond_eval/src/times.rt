//! Conditions on the local time and on the weekday.
ghost use Rattle.std.specs.Prelude.{◌≡◌, ◌≤◌, ◌&&◌, nat_eq, true};
ghost use Rattle.std.specs.List.{list_any};
ghost use Rattle.std.specs.Option.{option_copied, option_map_or};
ghost use Rattle.ha_clock.specs.Local.{last_moment, second_of_day, weekday_at};
ghost use Rattle.ha_sight.specs.Conditions as conditions;

use ha_clock::laws::parts_are_in_range;
use ha_clock::{Moment, Zone};
use ha_value::Many;

/// The local second of the day.
fn second_of_day(zone: &Zone, at: Moment) -> u32
    requires { at ≤ last_moment }
    ensures { result ≡ second_of_day zone.now at }
{
    let local = zone.local(at);
    parts_are_in_range(at);
    u32::from(local.hour) * 3600 + u32::from(local.minute) * 60 + u32::from(local.second)
}

/// Whether a second of the day is in the window. Its end is left out; it goes round midnight where it does not begin before its end.
fn in_window(after: Option<u32>, before: Option<u32>, second: u32) -> bool
    ensures { result ≡ conditions.in_window after before second }
{
    match (after, before) {
        (None, None) => true,
        (Some(after), None) => after <= second,
        (None, Some(before)) => second < before,
        (Some(after), Some(before)) => {
            if after < before {
                after <= second && second < before
            } else {
                after <= second || second < before
            }
        }
    }
}

fn is_among(weekday: u8, weekdays: &[u8]) -> bool
    ensures { result ≡ list_any (nat_eq weekday) weekdays.now }
{
    weekdays.iter().any(|one| weekday == *one)
}

/// Whether the weekday is listed, where there is a list.
fn is_listed(weekdays: Option<&Many<u8>>, weekday: u8) -> bool
    ensures { result ≡ option_map_or (list_any (nat_eq weekday)) (option_copied weekdays.entry) true }
{
    match weekdays {
        Some(weekdays) => is_among(weekday, weekdays.as_slice()),
        None => true,
    }
}

/// Whether the local time is in the window, and on a listed weekday.
pub fn time_holds(
    zone: &Zone,
    at: Moment,
    after: Option<u32>,
    before: Option<u32>,
    weekdays: Option<&Many<u8>>,
) -> bool
    requires { at ≤ last_moment }
    ensures { result ≡ (conditions.in_window after before (second_of_day zone.now at) && option_map_or (list_any (nat_eq (weekday_at zone.now at))) (option_copied weekdays.entry) true) }
{
    in_window(after, before, second_of_day(zone, at)) && is_listed(weekdays, zone.local(at).weekday)
}
