//! The state of a slot for HTTP connections: free, idle, or waiting for a response.

/// The state of a slot for HTTP connections. Times are seconds since 1970-01-01 UTC.
#[derive(Clone, Copy, PartialEq, Eq)]
pub enum Place {
    /// The slot has no HTTP connection.
    Free,
    /// The slot's HTTP connection is idle: its client has sent no request yet, or got its response.
    /// The value is the deadline.
    Silent(u64),
    /// The slot's client sent a request and waits for the response. The value is the deadline.
    Asked(u64),
}

impl Place {
    ghost use Rattle.std.specs.Prelude.{◌≡◌};
    ghost use Rattle.run_schedule.specs.HttpClients.Places as places;

    /// Returns whether this slot (one of the places for HTTP connections) has no connection.
    pub fn is_free(self) -> bool
        ensures { result ≡ places.is_free self }
    {
        match self {
            Place::Free => true,
            Place::Silent(_) => false,
            Place::Asked(_) => false,
        }
    }

    /// Returns whether the deadline of the slot's HTTP connection has passed.
    pub fn is_over(self, now: u64) -> bool
        ensures { result ≡ places.is_over now self }
    {
        match self {
            Place::Free => false,
            Place::Silent(until) => until <= now,
            Place::Asked(until) => until <= now,
        }
    }

    /// Returns the state of the slot after the client of its idle HTTP connection sent a request.
    pub fn asked(self) -> Place
        ensures { result ≡ places.asked self }
    {
        match self {
            Place::Free => Place::Free,
            Place::Silent(until) => Place::Asked(until),
            Place::Asked(until) => Place::Asked(until),
        }
    }

    /// Returns the deadline of the slot's HTTP connection if the connection is idle, otherwise
    /// `None`.
    pub fn silent_until(self) -> Option<u64>
        ensures { result ≡ places.silent_until self }
    {
        match self {
            Place::Free => None,
            Place::Silent(until) => Some(until),
            Place::Asked(_) => None,
        }
    }
}
