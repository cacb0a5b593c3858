//! Zones whose clock is always as far ahead of UTC.
ghost use Rattle.std.specs.Prelude.{◌≡◌, IsTrue};
ghost use Rattle.ha_clock.specs.Digits as digits;
ghost use Rattle.ha_clock.specs.Zone.{is_offset};
ghost use Rattle.time_next.specs.Next.{is_steady};

use ha_clock::Zone;

fn are_digits(tens: u8, ones: u8) -> bool
    ensures { result ≡ digits.are_digits tens ones }
{
    tens.is_ascii_digit() && ones.is_ascii_digit()
}

/// The number of two digits.
fn two_digits(tens: u8, ones: u8) -> u8
    requires { IsTrue (digits.are_digits tens ones) }
    ensures { result ≡ digits.two_digits tens ones }
{
    (tens - b'0') * 10 + (ones - b'0')
}

/// Whether the text is an offset, as `+02:00`.
fn is_offset(text: &[u8]) -> bool
    ensures { result ≡ is_offset text.now }
{
    text.len() == 6
        && ((text[0] == b'+' || text[0] == b'-')
            && (text[3] == b':'
                && (are_digits(text[1], text[2])
                    && (are_digits(text[4], text[5])
                        && (two_digits(text[1], text[2]) <= 23
                            && two_digits(text[4], text[5]) <= 59)))))
}

/// Whether the zone's text is `UTC` or an offset.
pub(crate) fn is_steady(zone: &Zone) -> bool
    ensures { result ≡ is_steady zone.now }
{
    let text = zone.text();
    text == b"UTC".as_slice() || is_offset(text)
}
