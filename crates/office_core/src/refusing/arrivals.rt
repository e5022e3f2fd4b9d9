//! The timestamp of a command, checked against the latest event and the limit of timestamps.
ghost use Rattle.std.specs.Prelude.{◌≡◌};
ghost use Rattle.office_core.specs.Refusing.Reasons as reasons;

use office_events::{Asked, MAX_REQUEST};
use poll_core::LAST_MOMENT;

/// The timestamp of a command, with the results of its checks.
///
/// `moment` is in seconds since 1970-01-01 UTC. `is_back` is true if `moment` is before the latest
/// accepted event. `is_beyond` is true if `moment` exceeds the limit, or if the idempotency key is
/// invalid.
#[derive(Clone, Copy)]
pub struct Arrival {
    pub moment: u64,
    pub is_back: bool,
    pub is_beyond: bool,
}

impl Arrival {
    /// Returns the timestamp `moment` of an event with the results of two checks. They say whether
    /// `moment` is before `latest`, the timestamp of the latest accepted event, and whether
    /// `moment` is above the greatest allowed timestamp.
    pub fn new(latest: u64, moment: u64) -> Arrival
        ensures { result ≡ reasons.arrival_of latest moment }
    {
        Arrival {
            moment,
            is_back: moment < latest,
            is_beyond: LAST_MOMENT < moment,
        }
    }

    /// Returns the timestamp `moment` of a request, with the results of two checks. It must not be
    /// before the latest timestamp, and it must be in range. An invalid caller or request number
    /// counts as out of range.
    pub fn of_request(latest: u64, moment: u64, asked: &Asked) -> Arrival
        ensures { result ≡ reasons.request_arrival latest moment asked.now }
    {
        let arrival = Arrival::new(latest, moment);
        Arrival {
            moment,
            is_back: arrival.is_back,
            is_beyond: arrival.is_beyond || asked.caller.is_none() || MAX_REQUEST < asked.number,
        }
    }
}
