//! Single bytes of the notation.

ghost use Rattle.std.specs.Prelude.{◌≡◌, ◌≤◌, ◌<◌, true};
ghost use Rattle.flow_line.specs.Bytes.{hex_value, is_in, is_plain, stands_as_is, unescaped};

use reading::hex;

/// Whether the byte is from `low` to `high`, both included.
pub fn is_in(low: u8, high: u8, b: u8) -> bool
    ensures { result ≡ is_in low high b }
{
    low <= b && b <= high
}

/// Whether a character that begins with this byte may stand in a string as it is.
pub fn stands_as_is(b: u8) -> bool
    ensures { result ≡ stands_as_is b }
{
    0x20 <= b && b != b'"' && b != b'\\'
}

/// An ASCII byte that stands for itself in a string.
pub fn is_plain(b: u8) -> bool
    ensures { result ≡ is_plain b }
{
    is_in(0x20, 0x7F, b) && b != b'"' && b != b'\\'
}

/// The value of a hexadecimal digit, and 16 for any other byte.
pub fn hex_value(b: u8) -> u8
    ensures { result ≡ hex_value b }
{
    hex(b).unwrap_or(16)
}

/// What a letter or sign behind a backslash stands for.
pub fn unescaped(b: u8) -> Option<char>
    ensures { result ≡ unescaped b }
{
    match b {
        b'"' => Some('"'),
        b'\\' => Some('\\'),
        b'/' => Some('/'),
        b'b' => Some('\u{8}'),
        b'f' => Some('\u{C}'),
        b'n' => Some('\n'),
        b'r' => Some('\r'),
        b't' => Some('\t'),
        _ => None,
    }
}
