//! The seconds that the clock passes: of a clock that is set forward and back each is looked at, and of a steady one the second of the day
//! decides.
ghost use Rattle.std.specs.Prelude.{◌≡◌, ◌≤◌, ◌<◌, ◌-◌, ◌*◌, ◌/◌, max};
ghost use Rattle.ha_clock.specs.Local.{last_moment, second_of_day};
ghost use Rattle.ha_clock.specs.Passed.{holds_in, passed_count};
ghost use Rattle.ha_sight.specs.Rules.{passed, second_fits};

use crate::day::has_time_back;
use crate::steady::is_steady;
use crate::times::{has_times, is_time_of};
use ha_clock::{Moment, Zone};
use ha_config::TriggerRule;

/// The local second of the day at a whole second, which is counted from 1970 on.
fn second_of_day(zone: &Zone, second: u64) -> u32
    requires { second * 1000 ≤ last_moment }
    ensures value { result ≡ second_of_day zone.now (second * 1000) }
    ensures of_a_day { result < 86_400 }
{
    let local = zone.local(Moment::at(second * 1000));
    local.hour as u32 * 3600 + local.minute as u32 * 60 + local.second as u32
}

/// How many whole seconds are passed, of which only the last 86,400 count.
fn passed_count(from: Moment, to: Moment) -> u64
    ensures { result ≡ passed_count from to }
{
    let first = to.millis().saturating_sub(86_400_000).max(from.millis());
    (to.millis() / 1000).saturating_sub(first / 1000)
}

/// Whether one of the `count` whole seconds that end with `last` is a time of the rule.
fn any_second(rule: &TriggerRule, zone: &Zone, count: u64, last: u64) -> bool
    requires { last * 1000 ≤ last_moment }
    ensures { result ≡ holds_in zone.now (second_fits rule.now) last count }
{
    let mut left = count;
    let mut second = last;
    while 0 < left {
        if is_time_of(rule, second_of_day(zone, second)) {
            return true;
        }
        left -= 1;
        second = second.saturating_sub(1);
    }
    false
}

/// Whether a time of the rule passes as Now goes from one moment to the other; false on rules that have no times.
pub fn passed(rule: &TriggerRule, zone: &Zone, from: Moment, to: Moment) -> bool
    requires { to ≤ last_moment }
    ensures { result ≡ passed rule.now zone.now from to }
{
    if !has_times(rule) {
        return false;
    }
    let count = passed_count(from, to);
    let last = to.millis() / 1000;
    if is_steady(zone) {
        has_time_back(rule, second_of_day(zone, last), count)
    } else {
        any_second(rule, zone, count, last)
    }
}
