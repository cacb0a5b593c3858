//! Printing a moment.
ghost use Rattle.std.specs.Prelude.{◌≡◌, pos, ◌≤◌, IfErr, IfOk};
ghost use Rattle.jiff_core.specs.Date.{epoch_day};
ghost use Rattle.ha_clock.specs.Local.{last_moment};
ghost use Rattle.ha_clock.specs.Print.{civil_text, digit, moment_text};

use crate::{ClockFault, Moment};
use jiff_core::civil::Date;
use std::alloc::Global;

/// The date of a day, by its number from 1970-01-01.
fn date_of(day: u32) -> Date
    requires { day ≤ 376_199 }
    ensures { epoch_day result ≡ pos day }
{
    Date::from_days_since_min(day + 4_371_587)
}

/// The last digit of a number.
fn digit_of(number: u32) -> u8
    ensures { result ≡ digit number }
{
    b'0' + (number % 10) as u8
}

fn civil_bytes(year: u32, month: u32, day: u32, time: u32) -> [u8; 24]
    ensures { result ≡ civil_text year month day time }
{
    [
        digit_of(year / 1000),
        digit_of(year / 100),
        digit_of(year / 10),
        digit_of(year),
        b'-',
        digit_of(month / 10),
        digit_of(month),
        b'-',
        digit_of(day / 10),
        digit_of(day),
        b'T',
        digit_of(time / 36_000_000),
        digit_of(time / 3_600_000),
        b':',
        digit_of(time / 60_000 % 60 / 10),
        digit_of(time / 60_000 % 60),
        b':',
        digit_of(time / 1000 % 60 / 10),
        digit_of(time / 1000 % 60),
        b'.',
        digit_of(time / 100),
        digit_of(time / 10),
        digit_of(time),
        b'Z',
    ]
}

/// The bytes of a moment's text.
fn moment_bytes(at: Moment) -> [u8; 24]
    requires { at ≤ last_moment }
    ensures { result ≡ moment_text at }
{
    let millis = at.millis();
    let date = date_of((millis / 86_400_000) as u32);
    civil_bytes(
        date.year.unsigned_abs() as u32,
        date.month as u32,
        date.day as u32,
        (millis % 86_400_000) as u32,
    )
}

/// The text of a moment.
pub fn print_moment(alloc: Global, at: Moment) -> Result<Vec<u8>, ClockFault>
    requires { at ≤ last_moment }
    ensures text { IfOk result (λ v. v.items ≡ moment_text at) }
    ensures memory { IfErr result (λ e. e ≡ ClockFault.Memory) }
{
    match moment_bytes(at).as_slice().to_vec(alloc) {
        Ok(text) => Ok(text),
        Err(_) => Err(ClockFault::Memory),
    }
}
