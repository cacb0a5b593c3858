//! How many lines `rehearse` is asked for.
ghost use Rattle.std.specs.Prelude.{◌≡◌, ◌≤◌, IfSome};
ghost use Rattle.std.specs.List.{list_all};
ghost use Rattle.std.specs.Char.{is_ascii_digit};
ghost use Rattle.ha_words.specs.Counts.{count_of, few_lines, is_plain_number, most_lines};

/// The lines that `rehearse` takes at most.
const MOST_LINES: u32 = 100_000;

fn are_digits(text: &[u8]) -> bool
    ensures { result ≡ list_all is_ascii_digit text.now }
{
    text.iter().all(|byte| byte.is_ascii_digit())
}

/// Whether the text is `0`, or digits that do not begin with it.
fn is_plain_number(text: &[u8]) -> bool
    ensures { result ≡ is_plain_number text.now }
{
    match text {
        [] => false,
        [digit] => digit.is_ascii_digit(),
        [first, ..] => *first != b'0' && are_digits(text),
    }
}

/// The number, where `rehearse` takes so many lines.
fn few_lines(number: u32) -> Option<u32>
    ensures value { result ≡ few_lines number }
    ensures most { IfSome result (λ n. n ≤ most_lines) }
{
    if number <= MOST_LINES {
        Some(number)
    } else {
        None
    }
}

/// The number of lines that a text asks for: from 0 to 100,000, in digits.
pub(crate) fn count_of(text: &str) -> Option<u32>
    ensures value { result ≡ count_of text.now }
    ensures most { IfSome result (λ n. n ≤ most_lines) }
{
    if !is_plain_number(text.as_bytes()) {
        return None;
    }
    match text.parse::<u32>() {
        Ok(number) => few_lines(number),
        Err(_) => None,
    }
}
