//! A line compared with one that was printed.
ghost use Rattle.std.specs.Prelude.{◌≡◌, ◌↔◌, IsTrue};
ghost use Rattle.ha_config.specs.CheckText.{as_line};

/// Whether a line, without its LF, is this one.
pub(crate) fn is_same(shown: &[u8], line: &[u8]) -> bool
    ensures { IsTrue result ↔ (as_line line.now ≡ shown.now) }
{
    match shown.split_last() {
        Some((end, text)) => *end == b'\n' && text == line,
        None => false,
    }
}
