//! The times of a rule.
ghost use Rattle.std.specs.Prelude.{◌≡◌, ◌/◌, ◌%◌, ◌&&◌, nat_eq};
ghost use Rattle.std.specs.List.{list_any};
ghost use Rattle.ha_sight.specs.Rules.{fits_unit, second_fits, has_times};

use ha_config::{TriggerRule, Unit};

/// Whether the number fits; `/0` fits 0 alone.
pub(crate) fn fits_unit(unit: Unit, number: u32) -> bool
    ensures { result ≡ fits_unit unit number }
{
    match unit {
        Unit::Every => true,
        Unit::Exact(wanted) => number == wanted,
        Unit::Each(step) => {
            if step == 0 {
                number == 0
            } else {
                number % step == 0
            }
        }
    }
}

pub(crate) fn fits_pattern(hours: Unit, minutes: Unit, seconds: Unit, second: u32) -> bool
    ensures { result ≡ (fits_unit hours (second / 3600) && fits_unit minutes ((second / 60) % 60) && fits_unit seconds (second % 60)) }
{
    fits_unit(hours, second / 3600)
        && fits_unit(minutes, second / 60 % 60)
        && fits_unit(seconds, second % 60)
}

fn is_listed(seconds: &[u32], second: u32) -> bool
    ensures { result ≡ list_any (nat_eq second) seconds.now }
{
    seconds.iter().any(|listed| second == *listed)
}

/// Whether the rule is one of times or a pattern.
pub(crate) fn has_times(rule: &TriggerRule) -> bool
    ensures { result ≡ has_times rule.now }
{
    match rule {
        TriggerRule::Time(_) | TriggerRule::Pattern { .. } => true,
        _ => false,
    }
}

/// Whether the local second of the day is a time of the rule.
pub(crate) fn is_time_of(rule: &TriggerRule, second: u32) -> bool
    ensures { result ≡ second_fits rule.now second }
{
    match rule {
        TriggerRule::Time(seconds) => is_listed(seconds.as_slice(), second),
        TriggerRule::Pattern {
            hours,
            minutes,
            seconds,
        } => fits_pattern(*hours, *minutes, *seconds, second),
        _ => false,
    }
}
