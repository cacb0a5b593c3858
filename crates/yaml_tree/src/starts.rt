//! How a node begins.

ghost use Rattle.std.specs.Prelude.{◌≡◌};
ghost use Rattle.yaml_tree.specs.Starts.{left_out, no_plain, start, is_merge};

use yaml_scan::sees;

/// How a node begins that is no dash: in quotes, brackets or on the next lines; as what is left out, as what is refused, or
/// plain.
#[derive(Clone, Copy)]
pub enum Start {
    InQuotes,
    InBrackets,
    InLines,
    LeftOut,
    Refused,
    Plain,
}

/// What the profile leaves out: anchors, aliases, tags, directives, complex keys.
pub(crate) fn left_out(b: u8, rest: &[u8]) -> bool
    ensures { result ≡ left_out b rest.now }
{
    matches!(b, b'&' | b'*' | b'!' | b'%' | b'@' | b'`') || (b == b'?' && sees(b' ', rest))
}

pub(crate) fn no_plain(b: u8, rest: &[u8]) -> bool
    ensures { result ≡ no_plain b rest.now }
{
    matches!(
        b,
        b',' | b'[' | b']' | b'{' | b'}' | b'#' | b'|' | b'>' | b'\'' | b'"'
    ) || ((b == b'-' || b == b':') && sees(b' ', rest))
}

pub(crate) fn starts(b: u8, rest: &[u8]) -> Start
    ensures { result ≡ start b rest.now }
{
    if b == b'"' || b == b'\'' {
        Start::InQuotes
    } else if b == b'[' || b == b'{' {
        Start::InBrackets
    } else if b == b'|' || b == b'>' {
        Start::InLines
    } else if left_out(b, rest) {
        Start::LeftOut
    } else if no_plain(b, rest) {
        Start::Refused
    } else {
        Start::Plain
    }
}

/// The key `<<`, which merges maps.
pub(crate) fn is_merge(text: &[u8]) -> bool
    ensures { result ≡ is_merge text.now }
{
    text.len() == 2 && text[0] == b'<' && text[1] == b'<'
}
