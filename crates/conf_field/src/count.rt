//! Digits of a text.

ghost use Rattle.std.specs.Prelude.{◌≡◌, ◌≤◌, ◌<◌, ◌^◌, ◌+◌, ◌*◌, ◌-◌, min, IfSome, true};
ghost use Rattle.std.specs.Char.{is_ascii_digit};
ghost use Rattle.conf_field.specs.Kinds as kinds;

/// The number of one or more digits, counted no further than `most`.
pub fn digits(most: u64, text: &[u8]) -> Option<u64>
    requires { most < 2 ^ 59 }
    ensures value { result ≡ kinds.counted most text.now }
    ensures bound { IfSome result (λ n. n ≤ most) }
{
    if text.is_empty() {
        return None;
    }
    let mut number: u64 = 0;
    for byte in text {
        if !byte.is_ascii_digit() {
            return None;
        }
        number = next(most, number, *byte);
    }
    Some(number)
}

/// The number with one digit more, counted no further than `most`.
fn next(most: u64, number: u64, byte: u8) -> u64
    requires within { number ≤ most }
    requires most { most < 2 ^ 59 }
    requires digit { is_ascii_digit byte ≡ true }
    ensures value { result ≡ min most (number * 10 + (byte - 48)) }
    ensures bound { result ≤ most }
{
    let more = number * 10 + u64::from(byte - b'0');
    if more < most { more } else { most }
}
