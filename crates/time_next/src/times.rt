//! The units of a pattern.
ghost use Rattle.std.specs.Prelude.{◌≡◌, ◌/◌, ◌%◌, ◌&&◌};
ghost use Rattle.ha_sight.specs.Rules.{fits_unit};

use ha_config::Unit;

/// Whether the number fits; `/0` fits 0 alone.
pub(crate) fn fits_unit(unit: Unit, number: u32) -> bool
    ensures { result ≡ fits_unit unit number }
{
    match unit {
        Unit::Every => true,
        Unit::Exact(wanted) => number == wanted,
        Unit::Each(step) => {
            if step == 0 {
                number == 0
            } else {
                number % step == 0
            }
        }
    }
}

/// Whether the second of the day is a time of the pattern.
pub(crate) fn fits_pattern(hours: Unit, minutes: Unit, seconds: Unit, second: u32) -> bool
    ensures { result ≡ (fits_unit hours (second / 3600) && fits_unit minutes ((second / 60) % 60) && fits_unit seconds (second % 60)) }
{
    fits_unit(hours, second / 3600)
        && fits_unit(minutes, second / 60 % 60)
        && fits_unit(seconds, second % 60)
}
