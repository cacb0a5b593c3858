//! Whose step a line of a trace is.
ghost use Rattle.std.specs.Prelude.{◌≡◌, ◌<◌, ◌++◌, ℕ, Some, IfSome, codes};
ghost use Rattle.ha_config.specs.Words.{Text};
ghost use Rattle.ha_replay.specs.Steps.{IsOf};
ghost use Rattle.ha_replay.specs.Digits.{digit_of, number_before_comma as number_lem};

/// What stands before the worker's number.
const WORKER: &[u8] = b"{\"worker\":";

/// What a digit counts.
fn digit(byte: u8) -> Option<u32>
    ensures { result ≡ digit_of byte }
{
    if byte.is_ascii_digit() {
        Some(u32::from(byte - b'0'))
    } else {
        None
    }
}

/// The number under 20 that stands before a comma.
fn number_before_comma(text: &[u8]) -> Option<u32>
    ensures { result ≡ number_lem text.now }
{
    if text.len() < 2 {
        return None;
    }
    if text[1] == b',' {
        return digit(text[0]);
    }
    if text.len() < 3 || text[0] != b'1' || text[2] != b',' {
        return None;
    }
    match digit(text[1]) {
        Some(ones) => Some(10 + ones),
        None => None,
    }
}

/// The worker that the line of a step names first, where it is one of the 16; of any other line none, or any number.
pub(crate) fn worker_of(line: &[u8]) -> Option<u32>
    ensures begins { IfSome result (λ k. (rest : Text) × (line.now ≡ codes "{\"worker\":" ++ rest)) }
    ensures found { (k : ℕ) → k < 16 → IsOf line.now k → result ≡ Some k }
{
    match line.strip_prefix(WORKER) {
        Some(text) => number_before_comma(text),
        None => None,
    }
}
