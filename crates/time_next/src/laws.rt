//! Laws of the definitions that the contracts cite.
ghost use Rattle.std.specs.Prelude.{◌≡◌, ◌≤◌, ◌<◌, ◌*◌, ◌/◌, ℕ, MatchOption, Option, Some, false, true};
ghost use Rattle.ha_config.specs.declared.config.TriggerRule.{TriggerRule};
ghost use Rattle.ha_config.specs.Words.{Text};
ghost use Rattle.ha_sight.specs.Rules.{passed};
ghost use Rattle.time_next.specs.Next.{Sleeps, fits_at};

use ha_clock::Moment;

/// As long as Now lies before the due of a rule that sleeps, the clock passes no time of the rule.
pub fn a_rule_that_sleeps_passes_no_time(from: Moment, to: Moment)
    ensures { (rule : TriggerRule) (zone : Text) (due : Option ℕ) → Sleeps zone from due rule → MatchOption due (Unit {0}) (λ d. to < d) → passed rule zone from to ≡ false }
{
    let _ = from;
    let _ = to;
}

/// A rule that sleeps does so as Now goes on, up to an earlier due too.
pub fn a_rule_sleeps_on(from: Moment, to: Moment)
    ensures { (rule : TriggerRule) (zone : Text) (due least : ℕ) → Sleeps zone from (Some due) rule → from ≤ to → least ≤ due → Sleeps zone to (Some least) rule }
{
    let _ = from;
    let _ = to;
}

/// Where a second is a time of the rule, the clock passes one as it comes there.
pub fn a_time_passes_at_its_second(from: Moment, to: Moment)
    ensures { (rule : TriggerRule) (zone : Text) → from < to → to / 1000 * 1000 ≡ to → fits_at rule zone (to / 1000) ≡ true → passed rule zone from to ≡ true }
{
    let _ = from;
    let _ = to;
}
