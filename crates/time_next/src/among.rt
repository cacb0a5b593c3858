//! The next time of several triggers.
ghost use Rattle.std.specs.Prelude.{◌≡◌, ◌≤◌, ◌<◌, ℕ, IfSome, MatchOption, length, min, slice_get};
ghost use Rattle.ha_clock.specs.Local.{last_moment};
ghost use Rattle.ha_config.specs.declared.config.TriggerRule.{TriggerRule};
ghost use Rattle.ha_sight.specs.Rules.{has_times};
ghost use Rattle.time_next.specs.Next.{Sleeps};

use crate::next::next_time;
use ha_clock::{Moment, Zone};
use ha_config::{Trigger, TriggerRule};

/// Whether the rule is one of times or a pattern.
pub fn has_times(rule: &TriggerRule) -> bool
    ensures { result ≡ has_times rule.now }
{
    match rule {
        TriggerRule::Time(_) | TriggerRule::Pattern { .. } => true,
        _ => false,
    }
}

fn least(first: Moment, second: Moment) -> Moment
    ensures { result ≡ min first second }
{
    if first <= second { first } else { second }
}

/// The due, or the next time of the rule where that is earlier; a rule that has no times leaves the due.
fn earlier(due: Option<Moment>, rule: &TriggerRule, zone: &Zone, after: Moment) -> Option<Moment>
    requires { after ≤ last_moment }
    ensures own { Sleeps zone.now after result rule.now }
    ensures others { (r : TriggerRule) → Sleeps zone.now after due r → Sleeps zone.now after result r }
    ensures later { IfSome due (λ d. after < d) → IfSome result (λ d. after < d) }
{
    if !has_times(rule) {
        return due;
    }
    let next = next_time(rule, zone, after);
    match due {
        Some(due) => Some(least(due, next)),
        None => Some(next),
    }
}

/// The same, of the trigger at a place.
fn earlier_at(
    due: Option<Moment>,
    triggers: &[Trigger],
    place: usize,
    zone: &Zone,
    after: Moment,
) -> Option<Moment>
    requires in_time { after ≤ last_moment }
    requires within { place < length triggers.now }
    ensures own { MatchOption (slice_get triggers.now place) (Unit {0}) (λ t. Sleeps zone.now after result t.rule) }
    ensures others { (r : TriggerRule) → Sleeps zone.now after due r → Sleeps zone.now after result r }
    ensures later { IfSome due (λ d. after < d) → IfSome result (λ d. after < d) }
{
    earlier(due, &triggers[place].rule, zone, after)
}

/// A whole second behind the moment before which the clock passes no time of one of the triggers; none where no trigger has times.
pub fn next_of(triggers: &[Trigger], zone: &Zone, after: Moment) -> Option<Moment>
    requires { after ≤ last_moment }
    ensures asleep { (k : ℕ) → MatchOption (slice_get triggers.now k) (Unit {0}) (λ t. Sleeps zone.now after result t.rule) }
    ensures later { IfSome result (λ d. after < d) }
{
    let mut next = None;
    for place in 0..triggers.len() {
        next = earlier_at(next, triggers, place, zone, after);
    }
    next
}
