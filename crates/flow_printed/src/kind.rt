//! The kinds of printed commands, by their first keys.

ghost use Rattle.std.specs.Prelude.{◌≡◌};
ghost use Rattle.flow_printed.specs.Map.{first_kind, kind_of};

use crate::fields::Pairs;

#[derive(Clone, Copy, Debug, PartialEq, Eq)]
pub enum Kind {
    Report,
    Gone,
    Event,
    Moment,
    Switch,
    Trigger,
    Restart,
    Reload,
    Refused,
    Lost,
    TooLong,
}

/// The kind that a key names.
fn kind_of(key: &[u8]) -> Option<Kind>
    ensures { result ≡ kind_of key.now }
{
    if key == b"report".as_slice() {
        Some(Kind::Report)
    } else if key == b"gone".as_slice() {
        Some(Kind::Gone)
    } else if key == b"event".as_slice() {
        Some(Kind::Event)
    } else if key == b"moment".as_slice() {
        Some(Kind::Moment)
    } else if key == b"switch".as_slice() {
        Some(Kind::Switch)
    } else if key == b"trigger".as_slice() {
        Some(Kind::Trigger)
    } else if key == b"restart".as_slice() {
        Some(Kind::Restart)
    } else if key == b"reload".as_slice() {
        Some(Kind::Reload)
    } else if key == b"refused".as_slice() {
        Some(Kind::Refused)
    } else if key == b"lost".as_slice() {
        Some(Kind::Lost)
    } else if key == b"too_long".as_slice() {
        Some(Kind::TooLong)
    } else {
        None
    }
}

/// The kind that the first key of a map names.
pub fn first_kind(pairs: &Pairs) -> Option<Kind>
    ensures { result ≡ first_kind pairs.now }
{
    match pairs.as_slice().first() {
        Some(pair) => kind_of(pair.0.bytes()),
        None => None,
    }
}
