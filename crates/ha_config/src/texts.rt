//! The characters of a text.
ghost use Rattle.std.specs.Prelude.{◌≡◌, ◌≤◌, length};
ghost use Rattle.ha_config.specs.Words.{characters, goes_on};

/// Whether a byte of UTF-8 goes on with a character.
fn goes_on(byte: u8) -> bool
    ensures { result ≡ goes_on byte }
{
    128 <= byte && byte < 192
}

/// How many characters a text has: the bytes of its UTF-8 that don't go on with one.
pub fn characters(text: &[u8]) -> usize
    ensures value { result ≡ characters text.now }
    ensures size { result ≤ length text.now }
{
    text.iter().filter(|byte| !goes_on(**byte)).count()
}
