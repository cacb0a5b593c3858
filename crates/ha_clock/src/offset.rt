//! Reading a fixed offset from UTC, as `+02:00`.
ghost use Rattle.std.specs.Prelude.{◌≡◌, ◌≤◌, option_map};
ghost use Rattle.ha_clock.specs.Zone.{is_offset, offset_of, offset_seconds};

use crate::digits::{has_pair, pair};
use jiff::tz::Offset;

/// Whether the text is an offset.
fn is_offset(text: &[u8]) -> bool
    ensures { result ≡ is_offset text.now }
{
    text.len() == 6
        && ((text[0] == b'+' || text[0] == b'-')
            && (text[3] == b':'
                && (has_pair(text, 1)
                    && (has_pair(text, 4) && (pair(text, 1) <= 23 && pair(text, 4) <= 59)))))
}

/// The offset of that many hours and minutes, ahead of UTC or behind.
fn offset_seconds(sign: u8, hours: u32, minutes: u32) -> Offset
    requires hours_in { hours ≤ 23 }
    requires minutes_in { minutes ≤ 59 }
    ensures { result.seconds ≡ offset_seconds sign hours minutes }
{
    let seconds = (hours * 3600 + minutes * 60) as i32;
    if sign == b'-' {
        Offset::from_plain(jiff_core::Offset { seconds: -seconds })
    } else {
        Offset::from_plain(jiff_core::Offset { seconds })
    }
}

/// The offset that a text names.
#[tactic(auto, unfolding(crate::specs::Zone::offset_of))]
pub(crate) fn offset_of(text: &[u8]) -> Option<Offset>
    ensures { option_map (λ o. o.seconds) result ≡ offset_of text.now }
{
    if is_offset(text) {
        Some(offset_seconds(text[0], pair(text, 1), pair(text, 4)))
    } else {
        None
    }
}
