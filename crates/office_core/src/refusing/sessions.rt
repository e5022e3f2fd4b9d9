//! Finds the reason to refuse a device event.
ghost use Rattle.std.specs.Prelude.{◌≡◌, IfSome};
ghost use Rattle.office_core.specs.Refusing.Asking.{IsOfSession};
ghost use Rattle.office_core.specs.Refusing.Reasons.{session_refusal};

use crate::refusing::arrivals::Arrival;
use office_events::Refusal;

/// Returns the first reason to refuse a device event, or `None` if no reason applies.
///
/// `is_busy` is true if a connected device connects again, or if another event comes from a device
/// that is not connected.
pub fn refusal_of_session(arrival: &Arrival, is_unknown: bool, is_busy: bool) -> Option<Refusal>
    ensures value { result ≡ session_refusal arrival.now is_unknown is_busy }
    ensures reason { IfSome result IsOfSession }
{
    if is_unknown {
        return Some(Refusal::NotFound);
    }
    if arrival.is_back {
        return Some(Refusal::ClockBack);
    }
    if is_busy {
        return Some(Refusal::Busy);
    }
    if arrival.is_beyond {
        return Some(Refusal::Limit);
    }
    None
}
