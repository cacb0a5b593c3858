//! The times of a rule among the seconds of a day, found without a look at each second.
ghost use Rattle.std.specs.Prelude.{◌≡◌, ◌≤◌, ◌<◌, ◌+◌, ◌/◌, ◌%◌, ◌&&◌, ◌↔◌, ℕ, IsTrue, false, nat_le, nat_lt};
ghost use Rattle.std.specs.List.{list_any};
ghost use Rattle.ha_config.specs.declared.config.TriggerRule.{TriggerRule};
ghost use Rattle.ha_sight.specs.Rules.{second_fits};
ghost use Rattle.time_match.specs.Times.{HasTime, HasTimeBack};

use crate::times::{fits_pattern, fits_unit};
use ha_config::{TriggerRule, Unit};

const DAY: u32 = 86_400;

fn is_between(second: u32, first: u32, end: u32) -> bool
    ensures { result ≡ (nat_le first second && nat_lt second end) }
{
    first <= second && second < end
}

/// Whether one of the seconds lies from `first` on, before `end`.
fn lists_between(seconds: &[u32], first: u32, end: u32) -> bool
    ensures { result ≡ list_any (λ s. nat_le first s && nat_lt s end) seconds.now }
{
    seconds.iter().any(|second| is_between(*second, first, end))
}

/// Behind a second that is no time of a pattern, the next one that may be: the next hour, minute or second.
fn next_after(hours: Unit, minutes: Unit, seconds: Unit, second: u32) -> u32
    requires within { second < 86_400 }
    requires none { second_fits (TriggerRule.Pattern hours minutes seconds) second ≡ false }
    ensures later { second < result }
    ensures skipped { (s : ℕ) → second ≤ s → s < result → second_fits (TriggerRule.Pattern hours minutes seconds) s ≡ false }
{
    if !fits_unit(hours, second / 3600) {
        (second / 3600 + 1) * 3600
    } else if !fits_unit(minutes, second / 60 % 60) {
        (second / 60 + 1) * 60
    } else {
        second + 1
    }
}

/// Whether one of the seconds from `first` on, before `end`, is a time of the pattern.
fn fits_between(hours: Unit, minutes: Unit, seconds: Unit, first: u32, end: u32) -> bool
    requires { end ≤ 86_400 }
    ensures { IsTrue result ↔ HasTime (TriggerRule.Pattern hours minutes seconds) first end }
{
    let mut second = first;
    while second < end {
        if fits_pattern(hours, minutes, seconds, second) {
            return true;
        }
        second = next_after(hours, minutes, seconds, second);
    }
    false
}

/// Whether one of the seconds of the day from `first` on, before `end`, is a time of the rule.
fn has_time(rule: &TriggerRule, first: u32, end: u32) -> bool
    requires { end ≤ 86_400 }
    ensures { IsTrue result ↔ HasTime rule.now first end }
{
    match rule {
        TriggerRule::Time(seconds) => lists_between(seconds.as_slice(), first, end),
        TriggerRule::Pattern {
            hours,
            minutes,
            seconds,
        } => fits_between(*hours, *minutes, *seconds, first, end),
        _ => false,
    }
}

/// Whether one of the `count` seconds that end with the second of the day `last` is a time of the rule; those before midnight are of the
/// day before.
pub(crate) fn has_time_back(rule: &TriggerRule, last: u32, count: u64) -> bool
    requires { last < 86_400 }
    ensures { IsTrue result ↔ HasTimeBack rule.now last count }
{
    if DAY as u64 <= count {
        return has_time(rule, 0, DAY);
    }
    let count = count as u32;
    if count <= last + 1 {
        return has_time(rule, last + 1 - count, last + 1);
    }
    has_time(rule, 0, last + 1) || has_time(rule, DAY + last + 1 - count, DAY)
}
