//! Cutting a text: at its first byte of a kind, and at its ends.
ghost use Rattle.std.specs.Prelude.{◌≡◌, ◌≤◌, length, Some, None, MatchOption};
ghost use Rattle.ha_value.specs.Lists.{after_first, after_front, before_end, before_first, trimmed, without_cr};
ghost use Rattle.ha_value.specs.Truth.{is_blank, is_blank_or_break};

/// What stands before the first such byte, and what follows that byte, where there is one.
#[tactic(auto, using(crate::proofs::CutLemmas::cuts))]
pub fn cut_at(text: &[u8], byte: u8) -> (&[u8], Option<&[u8]>)
    ensures before { result.0.now ≡ before_first byte text.now }
    ensures after { MatchOption result.1 (after_first byte text.now ≡ None) (λ rest. after_first byte text.now ≡ Some rest.now) }
{
    for i in 0..text.len() {
        if text[i] == byte {
            return (&text[..i], Some(&text[i + 1..]));
        }
    }
    (text, None)
}

/// Whether the byte is a space or a tab.
pub fn is_blank(byte: u8) -> bool
    ensures { result ≡ is_blank byte }
{
    byte == b' ' || byte == b'\t'
}

/// Whether the byte is a space, a tab or a line break (LF or CR).
pub fn is_blank_or_break(byte: u8) -> bool
    ensures { result ≡ is_blank_or_break byte }
{
    is_blank(byte) || (byte == b'\n' || byte == b'\r')
}

#[tactic(auto, using(crate::proofs::CutLemmas::cuts))]
fn without_blanks_before(text: &[u8]) -> &[u8]
    ensures { result.now ≡ after_front is_blank text.now }
{
    for i in 0..text.len() {
        if !is_blank(text[i]) {
            return &text[i..];
        }
    }
    &text[text.len()..]
}

#[tactic(auto, using(crate::proofs::CutLemmas::cuts))]
fn without_blanks_behind(text: &[u8]) -> &[u8]
    ensures { result.now ≡ before_end is_blank text.now }
{
    let mut end = text.len();
    while 0 < end && is_blank(text[end - 1]) {
        end -= 1;
    }
    &text[..end]
}

/// The text without spaces and tabs at its two ends.
pub fn trim_blanks(text: &[u8]) -> &[u8]
    ensures { result.now ≡ trimmed is_blank text.now }
{
    without_blanks_behind(without_blanks_before(text))
}

/// The line without a CR at its end.
pub fn without_cr(line: &[u8]) -> &[u8]
    ensures value { result.now ≡ without_cr line.now }
    ensures within { length result.now ≤ length line.now }
{
    let Some((last, front)) = line.split_last() else {
        return line;
    };
    if *last == b'\r' { front } else { line }
}
