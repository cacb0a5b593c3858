//! The next time of a rule on the clock: later on the day, else the day after.
ghost use Rattle.std.specs.Prelude.{◌≡◌, ◌≤◌, ◌<◌, ℕ, false, fold};
ghost use Rattle.ha_config.specs.declared.config.TriggerRule.{TriggerRule};
ghost use Rattle.ha_sight.specs.Rules.{second_fits};
ghost use Rattle.time_next.specs.Day.{IsAhead, IsFirst, nearer};

use crate::times::{fits_pattern, fits_unit};
use ha_config::{TriggerRule, Unit};

const DAY: u32 = 86_400;

/// The listed second in place of the one that was found, where it lies from `first` on and before that.
fn nearer(first: u32, found: u32, second: u32) -> u32
    ensures { result ≡ nearer first found second }
{
    if first <= second && second < found {
        second
    } else {
        found
    }
}

/// The first of the listed seconds from `first` on; 86,400 where none is.
fn first_listed(seconds: &[u32], first: u32) -> u32
    ensures { result ≡ fold (nearer first) 86_400 seconds.now }
{
    seconds
        .iter()
        .fold(DAY, |found, second| nearer(first, found, *second))
}

/// Behind a second that is no time of a pattern, the next one that may be: of the next hour, the next minute, or at once.
fn next_after(hours: Unit, minutes: Unit, seconds: Unit, second: u32) -> u32
    requires within { second < 86_400 }
    requires none { second_fits (TriggerRule.Pattern hours minutes seconds) second ≡ false }
    ensures later { second < result }
    ensures within { result ≤ 86_400 }
    ensures skipped { (s : ℕ) → second ≤ s → s < result → second_fits (TriggerRule.Pattern hours minutes seconds) s ≡ false }
{
    if !fits_unit(hours, second / 3600) {
        (second / 3600 + 1) * 3600
    } else if !fits_unit(minutes, second / 60 % 60) {
        (second / 60 + 1) * 60
    } else {
        second + 1
    }
}

/// The first second of the day from `first` on that is a time of the pattern; 86,400 where none is.
fn first_of_pattern(hours: Unit, minutes: Unit, seconds: Unit, first: u32) -> u32
    requires { first ≤ 86_400 }
    ensures { IsFirst (TriggerRule.Pattern hours minutes seconds) first result }
{
    let mut second = first;
    while second < DAY {
        if fits_pattern(hours, minutes, seconds, second) {
            return second;
        }
        second = next_after(hours, minutes, seconds, second);
    }
    DAY
}

/// The first second of the day from `first` on that is a time of the rule; 86,400 where none is.
fn first_from(rule: &TriggerRule, first: u32) -> u32
    requires { first ≤ 86_400 }
    ensures { IsFirst rule.now first result }
{
    match rule {
        TriggerRule::Time(seconds) => first_listed(seconds.as_slice(), first),
        TriggerRule::Pattern {
            hours,
            minutes,
            seconds,
        } => first_of_pattern(*hours, *minutes, *seconds, first),
        _ => DAY,
    }
}

/// How many seconds behind the second of the day that is shown the next time of the rule comes, perhaps on the day after; 86,400 where the
/// rule has none.
pub(crate) fn ahead(rule: &TriggerRule, shown: u32) -> u32
    requires { shown < 86_400 }
    ensures { IsAhead rule.now shown result }
{
    let today = first_from(rule, shown + 1);
    if today < DAY {
        return today - shown;
    }
    let tomorrow = first_from(rule, 0);
    if tomorrow <= shown {
        DAY - shown + tomorrow
    } else {
        DAY
    }
}
