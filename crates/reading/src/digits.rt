//! Digits.

ghost use Rattle.std.specs.Prelude.{◌≡◌, ◌≤◌, ◌<◌};
ghost use Rattle.std.specs.Option.{IfSome};
ghost use Rattle.reading.specs.Bytes.{hex};

/// The value of a hexadecimal digit.
pub fn hex(b: u8) -> Option<u8>
    ensures value { result ≡ hex b }
    ensures within { IfSome result (λ d. d < 16) }
{
    match b {
        b'0'..=b'9' => Some(b - b'0'),
        b'A'..=b'F' => Some(b - 55),
        b'a'..=b'f' => Some(b - 87),
        _ => None,
    }
}
