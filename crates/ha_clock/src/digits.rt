//! Digits of a text.
ghost use Rattle.std.specs.Prelude.{◌≡◌, ◌+◌, ◌≤◌, ◌<◌, IsTrue, length};
ghost use Rattle.std.specs.Char.{is_ascii_digit};
ghost use Rattle.ha_clock.specs.Digits.{are_digits, has_pair, pair, two_digits};

/// The number of a digit.
pub(crate) fn digit(byte: u8) -> u32
    requires { IsTrue (is_ascii_digit byte) }
    ensures value { result + 48 ≡ byte }
    ensures bound { result ≤ 9 }
{
    (byte - b'0') as u32
}

/// Whether both are digits.
pub(crate) fn are_digits(first: u8, second: u8) -> bool
    ensures { result ≡ are_digits first second }
{
    first.is_ascii_digit() && second.is_ascii_digit()
}

/// The number of two digits.
pub(crate) fn two_digits(first: u8, second: u8) -> u8
    requires { IsTrue (are_digits first second) }
    ensures value { result ≡ two_digits first second }
    ensures bound { result ≤ 99 }
{
    (first - b'0') * 10 + (second - b'0')
}

/// Whether two digits stand there.
pub(crate) fn has_pair(text: &[u8], at: usize) -> bool
    requires { at + 1 < length text.now }
    ensures { result ≡ has_pair text.now at }
{
    are_digits(text[at], text[at + 1])
}

/// The number of the two digits that stand there.
pub(crate) fn pair(text: &[u8], at: usize) -> u32
    requires at_in { at + 1 < length text.now }
    requires digits { IsTrue (has_pair text.now at) }
    ensures value { result ≡ pair text.now at }
    ensures bound { result ≤ 99 }
{
    two_digits(text[at], text[at + 1]) as u32
}
