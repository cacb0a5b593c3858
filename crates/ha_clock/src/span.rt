//! Spans of time and their text.
ghost use Rattle.std.specs.Prelude.{◌≡◌, ◌≤◌, ◌<◌, ◌↔◌, IsSome, IfSome, length, position};
ghost use Rattle.ha_clock.specs.Local.{last_span};
ghost use Rattle.ha_clock.specs.SpanText.{after_hours, bounded, clock_seconds, is_colon, number_of, span_of, within_bound};

use std::marker::Model;

/// The longest span, 366 days, in seconds.
const MOST_SECONDS: u32 = 31_622_400;

/// A length of time in whole milliseconds, at most 366 days.
#[derive(Clone, Copy, Debug, PartialEq, Eq, PartialOrd, Ord)]
pub struct Span {
    millis: u64,
}

impl Model for Span {
    ghost use Rattle.std.specs.Prelude.{ℕ, ◌≤◌};
    ghost use Rattle.ha_clock.specs.Local.{last_span};

    ghost Value = { ℕ };

    ghost view = { λ s. s.millis };

    ghost invariant = { λ s. s.millis ≤ last_span };

    ghost inverse = { λ n. record { millis = n } };
}

impl Span {
    /// The span of that many milliseconds, if it is not over the longest.
    pub fn of(millis: u64) -> Option<Span>
        ensures some { IsSome result ↔ (millis ≤ last_span) }
        ensures value { IfSome result (λ s. s ≡ millis) }
    {
        if millis <= MOST_SECONDS as u64 * 1000 {
            Some(Span { millis })
        } else {
            None
        }
    }

    /// Reads whole seconds, `HH:MM` or `HH:MM:SS`.
    ///
    /// Each part is one or more digits, without a sign. Minutes and seconds beside hours are under
    /// 60. Other texts, and spans over the longest, are none.
    pub fn read(text: &[u8]) -> Option<Span>
        ensures { result ≡ span_of text.now }
    {
        match colon(text) {
            None => seconds_span(number(text)),
            Some(colon) => after_hours(number(&text[..colon]), &text[colon + 1..]),
        }
    }

    /// The milliseconds.
    pub fn millis(self) -> u64
        ensures same { result ≡ self }
        ensures bound { result ≤ last_span }
    {
        self.millis
    }
}

/// The place of the first colon.
fn colon(text: &[u8]) -> Option<usize>
    ensures value { result ≡ position is_colon text.now }
    ensures within { IfSome result (λ i. i < length text.now) }
{
    text.iter().position(|byte| *byte == b':')
}

/// The number of one or more digits, if it is not over the seconds of the longest span.
fn number(text: &[u8]) -> Option<u32>
    ensures value { result ≡ within_bound (number_of text.now) }
    ensures bound { IfSome result (λ n. n ≤ 31_622_400) }
{
    if text.is_empty() {
        return None;
    }
    let mut number = 0;
    for byte in text {
        if !byte.is_ascii_digit() {
            return None;
        }
        number = number * 10 + (*byte - b'0') as u32;
        if number > MOST_SECONDS {
            return None;
        }
    }
    Some(number)
}

/// The span of what follows the hours and a colon.
fn after_hours(hours: Option<u32>, text: &[u8]) -> Option<Span>
    ensures { result ≡ bounded (after_hours hours text.now (position is_colon text.now)) }
{
    match colon(text) {
        None => clock_span(hours, number(text), Some(0)),
        Some(colon) => clock_span(hours, number(&text[..colon]), number(&text[colon + 1..])),
    }
}

/// The span of hours, minutes and seconds.
fn clock_span(hours: Option<u32>, minutes: Option<u32>, seconds: Option<u32>) -> Option<Span>
    ensures { result ≡ bounded (clock_seconds hours minutes seconds) }
{
    match (hours, minutes, seconds) {
        (Some(hours), Some(minutes), Some(seconds)) if minutes <= 59 && seconds <= 59 => {
            Span::of((hours as u64 * 3600 + minutes as u64 * 60 + seconds as u64) * 1000)
        }
        _ => None,
    }
}

/// The span of so many seconds.
fn seconds_span(seconds: Option<u32>) -> Option<Span>
    ensures { result ≡ bounded seconds }
{
    match seconds {
        Some(seconds) => Span::of(seconds as u64 * 1000),
        None => None,
    }
}
