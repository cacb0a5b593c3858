//! Numbers in decimal.

ghost use Rattle.std.specs.Prelude.{◌≡◌, ◌<◌, ◌^◌, ℕ, decimal, Some, IfSome};
ghost use Rattle.ha_config.specs.Words.{same};

use itoa::Buffer;

/// A number whose decimal digits the text may be.
fn candidate(text: &[u8]) -> Option<u64>
    ensures { (n : ℕ) → n < 2 ^ 64 → text.now ≡ decimal n → result ≡ Some n }
{
    match str::from_utf8(text) {
        Ok(shown) => shown.parse::<u64>().ok(),
        Err(_) => None,
    }
}

/// Whether the text is the number in decimal.
fn shows(number: u64, text: &[u8]) -> bool
    ensures { result ≡ same (decimal number) text.now }
{
    let mut room = Buffer::new();
    room.format(number).as_bytes() == text
}

/// The number whose decimal digits the text is, with no zero in front.
pub fn read_u64(text: &[u8]) -> Option<u64>
    ensures found { IfSome result (λ n. text.now ≡ decimal n) }
    ensures only { (n : ℕ) → n < 2 ^ 64 → text.now ≡ decimal n → result ≡ Some n }
{
    match candidate(text) {
        Some(number) if shows(number, text) => Some(number),
        _ => None,
    }
}

/// The same, of 32 bits.
pub fn read_u32(text: &[u8]) -> Option<u32>
    ensures found { IfSome result (λ n. text.now ≡ decimal n) }
    ensures only { (n : ℕ) → n < 2 ^ 32 → text.now ≡ decimal n → result ≡ Some n }
{
    match read_u64(text) {
        Some(number) if number <= u64::from(u32::MAX) => Some(number as u32),
        _ => None,
    }
}
