//! Until when a zone's clock goes on evenly, as far ahead of UTC as at a second.
ghost use Rattle.std.specs.Prelude.{◌≡◌, ◌≤◌, ◌<◌, ◌<ℤ◌, ◌+◌, ◌*◌, ℕ, pos, true};
ghost use Rattle.ha_clock.specs.Local.{last_moment};
ghost use Rattle.ha_clock.specs.Rule.{rule_offset};
ghost use Rattle.ha_clock.specs.Zone.{zone_offset};
ghost use Rattle.jiff_tz.specs.PosixText.{tz_view};
ghost use Rattle.time_next.specs.Next.{is_steady};

use crate::steady::is_steady;
use ha_clock::Zone;
use jiff_core::Timestamp;
use jiff_tz::posix;

const DAY: u64 = 86_400;

/// The instant of a second, which is counted from 1970 on.
fn instant_of(second: u64) -> Timestamp
    requires { second * 1000 ≤ last_moment }
    ensures { result.nanosecond ≡ pos (second * 1_000_000_000) }
{
    Timestamp {
        nanosecond: second as i128 * 1_000_000_000,
    }
}

/// The second in which an instant lies; before 1970, the first.
fn second_of(instant: Timestamp) -> u64
    ensures { (s : ℕ) → s < result → pos (s * 1_000_000_000) <ℤ instant.nanosecond }
{
    let second = instant.floor_second();
    if second < 0 { 0 } else { second as u64 }
}

/// The second of a change, if it lies behind `first` and no later than the end of the day: else the next second, or that end.
fn bounded(first: u64, day_end: u64, change: u64) -> u64
    requires { first < day_end }
    ensures later { first < result }
    ensures within { result ≤ day_end }
    ensures before { (s : ℕ) → first < s → s < result → s < change }
{
    if change <= first {
        first + 1
    } else if change < day_end {
        change
    } else {
        day_end
    }
}

/// A second before which the clock of a rule is as far ahead of UTC as at `first`: that of the rule's next change, but no later than the end
/// of the day at UTC, since a rule may begin a year otherwise than it ended the one before.
fn change_behind(rule: &posix::TimeZone, first: u64) -> u64
    requires { first * 1000 ≤ last_moment }
    ensures later { first < result }
    ensures within { result ≤ first + 86_400 }
    ensures even { (k : ℕ) → first + k < result → rule_offset (tz_view rule.now) (pos ((first + k) * 1_000_000_000)) ≡ rule_offset (tz_view rule.now) (pos (first * 1_000_000_000)) }
{
    let day_end = (first / DAY + 1) * DAY;
    match rule.next_transition(instant_of(first)) {
        Some(change) => bounded(first, day_end, second_of(change.timestamp)),
        None => day_end,
    }
}

/// A second before which the zone's clock is as far ahead of UTC as at `first`: of `UTC` and offsets more than a day behind it.
pub(crate) fn even_end(zone: &Zone, first: u64) -> u64
    requires { first * 1000 ≤ last_moment }
    ensures later { first < result }
    ensures even { (k : ℕ) → first + k < result → zone_offset zone.now ((first + k) * 1000) ≡ zone_offset zone.now (first * 1000) }
    ensures steady { is_steady zone.now ≡ true → result ≡ first + 86_401 }
{
    if is_steady(zone) {
        return first + DAY + 1;
    }
    match posix::TimeZone::parse(zone.text()) {
        Ok(rule) => change_behind(&rule, first),
        Err(_) => unreachable!(),
    }
}
