//! Laws of the definitions that the contracts cite.
ghost use Rattle.std.specs.Prelude.{◌≡◌, ℕ, ℤ, Bool, List, ◌≤◌, ◌<◌, ◌+◌, ◌*◌, ◌/◌, ◌%◌, ◌↔◌, IsTrue, Some, codes};
ghost use Rattle.jiff_tz.specs.PosixRule.{offset_at};
ghost use Rattle.jiff_tz.specs.PosixText.{tz_view};
ghost use Rattle.ha_clock.specs.Local.{hour_at, last_moment, minute_at, second_at, second_of_day, weekday_at};
ghost use Rattle.ha_clock.specs.MomentText.{moment_of};
ghost use Rattle.ha_clock.specs.Passed.{PassesSecond, passes_second};
ghost use Rattle.ha_clock.specs.Print.{moment_text};
ghost use Rattle.ha_clock.specs.Rule.{rule_offset};

use crate::Moment;
use jiff_tz::posix;

/// What is printed of a moment is read as the same moment.
pub fn printed_moment_is_read(at: Moment)
    requires { at ≤ last_moment }
    ensures { moment_of (moment_text at) ≡ Some at }
{
    let _ = at;
}

/// At UTC the second of the day and the weekday are plain arithmetic.
pub fn utc_shows(at: Moment)
    ensures second { second_of_day (codes "UTC") at ≡ at / 1000 % 86_400 }
    ensures weekday { weekday_at (codes "UTC") at ≡ (at / 86_400_000 + 3) % 7 }
{
    let _ = at;
}

/// The parts of a local time are in their ranges, and together give the second of the day.
pub fn parts_are_in_range(at: Moment)
    ensures weekday { (zone : List ℕ) → weekday_at zone at < 7 }
    ensures hour { (zone : List ℕ) → hour_at zone at < 24 }
    ensures minute { (zone : List ℕ) → minute_at zone at < 60 }
    ensures second { (zone : List ℕ) → second_at zone at < 60 }
    ensures together { (zone : List ℕ) → hour_at zone at * 3600 + minute_at zone at * 60 + second_at zone at ≡ second_of_day zone at }
{
    let _ = at;
}

/// The search over the passed seconds tells whether one of them has such a local time.
pub fn passed_seconds_are_searched(from: Moment, to: Moment)
    ensures { (zone : List ℕ) (test : ℕ → Bool) → IsTrue (passes_second zone test from to) ↔ PassesSecond zone test from to }
{
    let _ = from;
    let _ = to;
}

/// The offset of a rule is the one that `jiff` gives for it.
pub fn rule_offset_is_jiffs(rule: &posix::TimeZone)
    ensures { (n : ℤ) → rule_offset (tz_view rule.now) n ≡ (offset_at rule.now n).seconds }
{
    let _ = rule;
}
