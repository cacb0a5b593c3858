//! A line of a trace, cut into the texts of its values.

ghost use Rattle.std.specs.Prelude.{◌≡◌, Some, None, MatchOption};
ghost use Rattle.flow_printed.specs.Line.{before, behind, cut_at_comma, cut_line};

/// What stands behind a fixed front.
pub fn behind<'a>(front: &[u8], text: &'a [u8]) -> Option<&'a [u8]>
    ensures { MatchOption result (behind front.now text.now ≡ None) (λ rest. behind front.now text.now ≡ Some rest.now) }
{
    text.strip_prefix(front)
}

/// What stands before a fixed end.
pub fn before<'a>(last: &[u8], text: &'a [u8]) -> Option<&'a [u8]>
    ensures { MatchOption result (before last.now text.now ≡ None) (λ front. before last.now text.now ≡ Some front.now) }
{
    text.strip_suffix(last)
}

/// What stands before the first comma, and behind it.
#[tactic(auto, using(ha_value::proofs::CutLemmas::cuts))]
fn cut_at_comma<'a>(text: &'a [u8]) -> Option<(&'a [u8], &'a [u8])>
    ensures { MatchOption result (cut_at_comma text.now ≡ None) (λ parts. cut_at_comma text.now ≡ Some (parts.0.now, parts.1.now)) }
{
    for i in 0..text.len() {
        if text[i] == b',' {
            return Some((&text[..i], &text[i + 1..]));
        }
    }
    None
}

/// The texts of a line's source, number and command.
#[tactic(auto, unfolding(crate::specs::Line::cut_line))]
pub fn cut_line<'a>(text: &'a [u8]) -> Option<(&'a [u8], &'a [u8], &'a [u8])>
    ensures { MatchOption result (cut_line text.now ≡ None) (λ parts. cut_line text.now ≡ Some (parts.0.now, parts.1.now, parts.2.now)) }
{
    let first = behind(b"{\"source\":", text)?;
    let (source, rest) = cut_at_comma(first)?;
    let second = behind(b"\"number\":", rest)?;
    let (number, rest) = cut_at_comma(second)?;
    let third = behind(b"\"cmd\":", rest)?;
    let shown = before(b"}", third)?;
    Some((source, number, shown))
}
