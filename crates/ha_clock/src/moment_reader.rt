//! Reading the text of a moment.
ghost use Rattle.std.specs.Prelude.{◌≡◌, length, ◌≤◌, IsTrue, IfSome, Some};
ghost use Rattle.ha_clock.specs.Local.{last_moment};
ghost use Rattle.ha_clock.specs.MomentText.{day_of, fraction_of, has_tail, is_civil, is_civil_text, joined_moment, moment_of, second_of};

use crate::Moment;
use crate::digits::{digit, has_pair, pair};
use jiff_core::civil::{self, Date};

/// Whether the text begins as a civil date and time.
fn is_civil_text(text: &[u8]) -> bool
    requires { 20 ≤ length text.now }
    ensures { result ≡ is_civil_text text.now }
{
    has_pair(text, 0)
        && (has_pair(text, 2)
            && (text[4] == b'-'
                && (has_pair(text, 5)
                    && (text[7] == b'-'
                        && (has_pair(text, 8)
                            && (text[10] == b'T'
                                && (has_pair(text, 11)
                                    && (text[13] == b':'
                                        && (has_pair(text, 14)
                                            && (text[16] == b':' && has_pair(text, 17)))))))))))
}

/// Whether the date is one from 1970 to 2999.
fn is_civil(year: u32, month: u32, day: u32) -> bool
    ensures { result ≡ is_civil year month day }
{
    1970 <= year
        && (year <= 2999
            && (1 <= month
                && (month <= 12
                    && (1 <= day && day <= civil::days_in_month(year as i16, month as u8) as u32))))
}

/// The days from 1970-01-01 to the date.
fn day_number(year: u32, month: u32, day: u32) -> u32
    requires { IsTrue (is_civil year month day) }
    ensures value { day_of year month day ≡ Some result }
    ensures bound { result ≤ 376_199 }
{
    let date = Date {
        year: year as i16,
        month: month as u8,
        day: day as u8,
    };
    date.days_since_min() - 4_371_587
}

fn day_of(year: u32, month: u32, day: u32) -> Option<u32>
    ensures value { result ≡ day_of year month day }
    ensures bound { IfSome result (λ d. d ≤ 376_199) }
{
    if is_civil(year, month, day) {
        Some(day_number(year, month, day))
    } else {
        None
    }
}

fn second_of(hour: u32, minute: u32, second: u32) -> Option<u32>
    ensures value { result ≡ second_of hour minute second }
    ensures bound { IfSome result (λ s. s ≤ 86_399) }
{
    if hour <= 23 && (minute <= 59 && second <= 59) {
        Some(hour * 3600 + minute * 60 + second)
    } else {
        None
    }
}

fn has_tail(text: &[u8], len: usize) -> bool
    requires { 20 ≤ len }
    ensures { result ≡ has_tail text.now len }
{
    text.len() == len && (text[19] == b'.' && text[len - 1] == b'Z')
}

/// The milliseconds after the civil date and time.
fn fraction_of(text: &[u8]) -> Option<u32>
    requires { 20 ≤ length text.now }
    ensures value { result ≡ fraction_of text.now }
    ensures bound { IfSome result (λ f. f ≤ 999) }
{
    if text.len() == 20 && text[19] == b'Z' {
        Some(0)
    } else if has_tail(text, 22) && text[20].is_ascii_digit() {
        Some(digit(text[20]) * 100)
    } else if has_tail(text, 23) && has_pair(text, 20) {
        Some(pair(text, 20) * 10)
    } else if has_tail(text, 24) && (has_pair(text, 20) && text[22].is_ascii_digit()) {
        Some(pair(text, 20) * 10 + digit(text[22]))
    } else {
        None
    }
}

fn joined_moment(day: Option<u32>, second: Option<u32>, fraction: Option<u32>) -> Option<Moment>
    requires day_in { IfSome day (λ d. d ≤ 376_199) }
    requires second_in { IfSome second (λ s. s ≤ 86_399) }
    requires fraction_in { IfSome fraction (λ f. f ≤ 999) }
    ensures value { result ≡ joined_moment day second fraction }
    ensures bound { IfSome result (λ m. m ≤ last_moment) }
{
    match (day, second, fraction) {
        (Some(day), Some(second), Some(fraction)) => {
            let seconds = day as u64 * 86_400 + second as u64;
            Some(Moment::at(seconds * 1000 + fraction as u64))
        }
        _ => None,
    }
}

/// Reads the text of a moment.
pub fn read_moment(text: &[u8]) -> Option<Moment>
    ensures value { result ≡ moment_of text.now }
    ensures bound { IfSome result (λ m. m ≤ last_moment) }
{
    if text.len() < 20 || !is_civil_text(text) {
        return None;
    }
    let day = day_of(
        pair(text, 0) * 100 + pair(text, 2),
        pair(text, 5),
        pair(text, 8),
    );
    let second = second_of(pair(text, 11), pair(text, 14), pair(text, 17));
    joined_moment(day, second, fraction_of(text))
}
