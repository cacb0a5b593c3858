//! Whether two spans that may be missing are the same.
ghost use Rattle.std.specs.Prelude.{◌≡◌, ◌↔◌, IsTrue};

use ha_clock::Span;

/// Whether two spans are the same.
pub fn same_hold(left: Option<Span>, right: Option<Span>) -> bool
    ensures { IsTrue result ↔ (left ≡ right) }
{
    match left {
        None => matches!(right, None),
        Some(a) => match right {
            Some(b) => a == b,
            None => false,
        },
    }
}
