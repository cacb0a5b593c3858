//! The services of helpers, and for which kind of helpers each is.
ghost use Rattle.std.specs.Prelude.{◌≡◌};
ghost use Rattle.ha_sight.specs.Services as services;

use ha_model::{HelperKind, HelperService};

/// The service of that name, if it is one of helpers.
pub fn service_named(name: &[u8]) -> Option<HelperService>
    ensures { result ≡ services.service_named name.now }
{
    if name == b"input_boolean.turn_on".as_slice() {
        Some(HelperService::TurnOn)
    } else if name == b"input_boolean.turn_off".as_slice() {
        Some(HelperService::TurnOff)
    } else if name == b"input_boolean.toggle".as_slice() {
        Some(HelperService::Toggle)
    } else if name == b"counter.increment".as_slice() {
        Some(HelperService::Increment)
    } else if name == b"counter.decrement".as_slice() {
        Some(HelperService::Decrement)
    } else if name == b"counter.reset".as_slice() {
        Some(HelperService::Reset)
    } else if name == b"counter.set_value".as_slice() {
        Some(HelperService::SetValue)
    } else if name == b"timer.start".as_slice() {
        Some(HelperService::Start)
    } else if name == b"timer.pause".as_slice() {
        Some(HelperService::Pause)
    } else if name == b"timer.cancel".as_slice() {
        Some(HelperService::Cancel)
    } else if name == b"timer.finish".as_slice() {
        Some(HelperService::Finish)
    } else {
        None
    }
}

/// Whether the service is for helpers of this kind.
pub fn is_for(service: HelperService, kind: &HelperKind) -> bool
    ensures { result ≡ services.is_for service kind.now }
{
    match service {
        HelperService::TurnOn | HelperService::TurnOff | HelperService::Toggle => {
            matches!(kind, HelperKind::Flag { .. })
        }
        HelperService::Increment
        | HelperService::Decrement
        | HelperService::Reset
        | HelperService::SetValue => matches!(kind, HelperKind::Counter { .. }),
        HelperService::Start
        | HelperService::Pause
        | HelperService::Cancel
        | HelperService::Finish => matches!(kind, HelperKind::Timer { .. }),
    }
}
