//! What stands on one line.

ghost use Rattle.std.specs.Prelude.{◌≡◌, ◌≤◌, ◌<◌, ◌+◌, ◌++◌, ◌∷◌, ℕ, length, drop, OnOk, false};
ghost use Rattle.std.specs.Option.{IfSome};
ghost use Rattle.yaml_scan.specs.Words.{sees, nothing_left, breaks, comment_at, text_end, trimmed, colon_at, folded, times, without_blanks, only_blanks};
ghost use Rattle.yaml_scan.specs.Plain.{text_of};

use ha_value::is_blank;
use std::alloc::AllocError;

/// Whether the first byte is this one.
pub fn sees(b: u8, rest: &[u8]) -> bool
    ensures { result ≡ sees b rest.now }
{
    rest.first().copied() == Some(b)
}

/// How many blanks stand at the front.
#[tactic(auto, unfolding(crate::specs::Words::without_blanks))]
pub fn blanks(bytes: &[u8]) -> usize
    ensures value { drop result bytes.now ≡ without_blanks bytes.now }
    ensures within { result ≤ length bytes.now }
{
    let mut at = 0;
    'bytes: for b in bytes {
        if !is_blank(*b) {
            return at;
        }
        at += 1;
    }
    at
}

#[tactic(auto, unfolding(crate::specs::Words::only_blanks))]
pub(crate) fn only_blanks(bytes: &[u8]) -> bool
    ensures { result ≡ only_blanks bytes.now }
{
    'bytes: for b in bytes {
        if !is_blank(*b) {
            return false;
        }
    }
    true
}

/// Whether only blanks follow, or blanks and a comment.
#[tactic(auto, unfolding(crate::specs::Words::nothing_left))]
pub fn nothing_left(before: bool, bytes: &[u8]) -> bool
    ensures { result ≡ nothing_left before bytes.now }
{
    let mut spaced = before;
    'bytes: for b in bytes {
        if !is_blank(*b) {
            return *b == b'#' && spaced;
        }
        spaced = *b == b' ';
    }
    true
}

/// Whether a dash or a colon ends here: at a space, or where nothing is left.
pub fn breaks(rest: &[u8]) -> bool
    ensures { result ≡ breaks rest.now }
{
    rest.first().copied() == Some(b' ') || nothing_left(false, rest)
}

/// Where a comment begins, or the end.
#[tactic(auto, unfolding(crate::specs::Words::comment_at))]
pub(crate) fn comment_at(bytes: &[u8]) -> usize
    ensures value { result ≡ comment_at false 0 bytes.now }
    ensures within { result ≤ length bytes.now }
{
    let mut spaced = false;
    let mut at = 0;
    'bytes: for b in bytes {
        if *b == b'#' && spaced {
            return at;
        }
        spaced = *b == b' ';
        at += 1;
    }
    at
}

/// Where the blanks at the end begin.
#[tactic(auto, unfolding(crate::specs::Words::text_end))]
fn text_end(bytes: &[u8]) -> usize
    ensures value { result ≡ text_end 0 0 bytes.now }
    ensures within { result ≤ length bytes.now }
{
    let mut last = 0;
    let mut at = 0;
    'bytes: for b in bytes {
        at += 1;
        if !is_blank(*b) {
            last = at;
        }
    }
    last
}

/// Without the blanks at the end.
pub fn trimmed(bytes: &[u8]) -> &[u8]
    ensures { result.now ≡ trimmed bytes.now }
{
    &bytes[..text_end(bytes)]
}

/// The first colon before a comment that a space or nothing follows.
#[tactic(auto, unfolding(crate::specs::Words::colon_at))]
pub fn colon_at(bytes: &[u8]) -> Option<usize>
    ensures value { result ≡ colon_at false 0 bytes.now }
    ensures within { IfSome result (λ at. at < length bytes.now) }
{
    let mut spaced = false;
    let mut at = 0;
    'bytes: for b in bytes {
        if *b == b'#' && spaced {
            return None;
        }
        if *b == b':' && breaks(&bytes[at + 1..]) {
            return Some(at);
        }
        spaced = *b == b' ';
        at += 1;
    }
    None
}

/// The text of one line of a plain scalar.
pub(crate) fn text_of(bytes: &[u8]) -> &[u8]
    ensures { result.now ≡ text_of bytes.now }
{
    trimmed(&bytes[..comment_at(bytes)])
}

/// So many times this byte, at the end of a text.
#[tactic(auto, unfolding(crate::specs::Words::times))]
pub(crate) fn push_times(text: &mut Vec<u8>, count: usize, b: u8) -> Result<(), AllocError>
    ensures { OnOk result (text.new.items ≡ text.old.items ++ times count b) }
{
    'count: for i in 0..count {
        text.push(b)?;
    }
    Ok(())
}

/// A break with so many blank lines in it, at the end of a text.
#[tactic(auto, unfolding(crate::specs::Words::times))]
pub(crate) fn push_folded(text: &mut Vec<u8>, blanks: usize) -> Result<(), AllocError>
    ensures { OnOk result (text.new.items ≡ text.old.items ++ folded blanks) }
{
    if blanks == 0 {
        return text.push(b' ').map_err(|e| AllocError::from(e));
    }
    push_times(text, blanks, b'\n')
}
