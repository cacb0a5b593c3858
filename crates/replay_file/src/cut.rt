//! A text cut at its line feeds.
ghost use Rattle.std.specs.Prelude.{◌≡◌, ◌<◌, ◌∷◌, ◌+◌, None, IfSome, true, length, take, drop};
ghost use Rattle.trace_laws.specs.Lines.{Cuts, is_one_line};

use memchr::memchr;

/// The first line of a text without its LF, and what stands behind the LF.
#[derive(Clone, Copy)]
pub(crate) struct Cut<'a> {
    pub line: &'a [u8],
    pub behind: &'a [u8],
}

/// The place of the first LF.
fn end_of_line(text: &[u8]) -> Option<usize>
    ensures bound { IfSome result (λ at. at < length text.now) }
    ensures front { IfSome result (λ at. is_one_line (take at text.now) ≡ true) }
    ensures end { IfSome result (λ at. drop at text.now ≡ 10 ∷ drop (at + 1) text.now) }
    ensures none { result ≡ None → is_one_line text.now ≡ true }
{
    memchr(b'\n', text)
}

/// Cuts off the first line; none where there is no LF.
pub(crate) fn cut_line(text: &[u8]) -> Option<Cut<'_>>
    ensures found { IfSome result (λ c. Cuts text.now c.line.now c.behind.now) }
    ensures none { result ≡ None → is_one_line text.now ≡ true }
{
    match end_of_line(text) {
        Some(at) => Some(Cut {
            line: &text[..at],
            behind: &text[at + 1..],
        }),
        None => None,
    }
}
