//! The next time of a rule, in a zone.
ghost use Rattle.std.specs.Prelude.{◌≡◌, ◌≤◌, ◌<◌, ◌+◌, ◌*◌, ◌/◌, ℕ, false, true};
ghost use Rattle.ha_clock.specs.Local.{last_moment, second_of_day};
ghost use Rattle.time_next.specs.Next.{fits_at, is_steady};

use crate::day::ahead;
use crate::even::even_end;
use ha_clock::{Moment, Span, Zone};
use ha_config::TriggerRule;

/// The local second of the day at a whole second, which is counted from 1970 on.
fn second_of_day(zone: &Zone, second: u64) -> u32
    requires { second * 1000 ≤ last_moment }
    ensures value { result ≡ second_of_day zone.now (second * 1000) }
    ensures of_a_day { result < 86_400 }
{
    let local = zone.local(Moment::at(second * 1000));
    local.hour as u32 * 3600 + local.minute as u32 * 60 + local.second as u32
}

/// The first second behind `first` that may be a time of the rule.
fn next_second(rule: &TriggerRule, zone: &Zone, first: u64) -> u64
    requires { first * 1000 ≤ last_moment }
    ensures later { first < result }
    ensures soon { result ≤ first + 86_400 }
    ensures skipped { (s : ℕ) → first < s → s < result → fits_at rule.now zone.now s ≡ false }
    ensures found { is_steady zone.now ≡ true → (s : ℕ) → fits_at rule.now zone.now s ≡ true → fits_at rule.now zone.now result ≡ true }
{
    let shown = second_of_day(zone, first);
    let next = first + ahead(rule, shown) as u64;
    let end = even_end(zone, first);
    if next < end { next } else { end }
}

/// The moment of a second that lies at most a day behind `first`.
fn moment_of(first: u64, second: u64) -> Moment
    requires in_time { first * 1000 ≤ last_moment }
    requires later { first < second }
    requires soon { second ≤ first + 86_400 }
    ensures { result ≡ second * 1000 }
{
    match Span::of((second - first) * 1000) {
        Some(span) => Moment::at(first * 1000).plus(span),
        None => unreachable!(),
    }
}

/// A whole second behind the moment, at most a day, before which the clock passes no time of the rule. In `UTC` and the zones of an offset
/// it is the first that is one, if the rule has times; in a zone of a rule text it may come before that, at a change of the clock or at
/// midnight UTC. So one asks again behind it. Of a rule that has no times it tells nothing.
pub fn next_time(rule: &TriggerRule, zone: &Zone, after: Moment) -> Moment
    requires { after ≤ last_moment }
    ensures later { after < result }
    ensures soon { result ≤ after + 86_400_000 }
    ensures whole { result / 1000 * 1000 ≡ result }
    ensures skipped { (s : ℕ) → after < s * 1000 → s * 1000 < result → fits_at rule.now zone.now s ≡ false }
    ensures found { is_steady zone.now ≡ true → (s : ℕ) → fits_at rule.now zone.now s ≡ true → fits_at rule.now zone.now (result / 1000) ≡ true }
{
    let first = after.millis() / 1000;
    moment_of(first, next_second(rule, zone, first))
}
