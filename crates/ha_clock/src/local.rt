//! What a clock shows, so many seconds ahead of UTC.
ghost use Rattle.std.specs.Prelude.{◌≡◌, ◌≤◌, ◌<◌, ◌/◌, ◌+ℤ◌, neg_ℤ, pos, unsigned_abs};
ghost use Rattle.std.specs.Int.{int_div_euclid, int_rem_euclid};
ghost use Rattle.jiff_core.specs.Calendar.{IsBetween};
ghost use Rattle.jiff_core.specs.Timestamp.{IsOffsetSeconds};
ghost use Rattle.ha_clock.specs.Local.{last_moment, weekday_of_day};

use crate::Moment;

/// What a clock shows.
#[derive(Clone, Copy, Debug, PartialEq, Eq, Drop)]
pub struct Local {
    /// From 0 for Monday to 6 for Sunday.
    pub weekday: u8,
    /// From 0 to 23.
    pub hour: u8,
    /// From 0 to 59.
    pub minute: u8,
    /// From 0 to 59.
    pub second: u8,
}

/// The seconds from 1970-01-01T00:00:00 that a clock at the offset shows.
pub(crate) fn shown_seconds(at: Moment, offset: i32) -> i64
    requires at_in { at ≤ last_moment }
    requires offset_in { IsOffsetSeconds offset }
    ensures value { result ≡ pos (at / 1000) +ℤ offset }
    ensures bound { IsBetween (neg_ℤ (pos 93_599)) (pos 99_999_999_999) result }
{
    (at.millis() / 1000) as i64 + offset as i64
}

/// The second of the day.
pub(crate) fn second_of(shown: i64) -> u32
    requires { IsBetween (neg_ℤ (pos 93_599)) (pos 99_999_999_999) shown }
    ensures value { result ≡ unsigned_abs (int_rem_euclid shown (pos 86_400)) }
    ensures bound { result < 86_400 }
{
    shown.rem_euclid(86_400) as u32
}

/// The weekday of the day on which a clock shows so many seconds.
pub(crate) fn weekday_of(shown: i64) -> u8
    requires { IsBetween (neg_ℤ (pos 93_599)) (pos 99_999_999_999) shown }
    ensures { result ≡ weekday_of_day (int_div_euclid shown (pos 86_400)) }
{
    weekday_of_day(shown.div_euclid(86_400))
}

/// The weekday of a day, by its number from 1970-01-01.
fn weekday_of_day(day: i64) -> u8
    requires { IsBetween (neg_ℤ (pos 10)) (pos 99_999_999) day }
    ensures { result ≡ weekday_of_day day }
{
    (day + 3).rem_euclid(7) as u8
}
