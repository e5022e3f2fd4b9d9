//! The time limits of connection attempts, client connections and polling rounds, in seconds.
ghost use Rattle.std.specs.Prelude.{◌≡◌, ◌-◌, ◌+◌, ◌^◌, min, max};

/// The maximum number of seconds for connecting to a device.
pub const CONNECT_SECONDS: u64 = 5;

/// The maximum number of seconds from accepting a client's connection to sending the last byte of
/// the response.
pub const CLIENT_SECONDS: u64 = 10;

/// The shortest time limit of a polling round, in seconds.
pub const LEAST_ROUND: u64 = 60;

/// The longest polling interval of a device, in seconds.
pub const MOST_EVERY: u64 = 86_400;

/// Returns `now` plus `seconds`, or 2^64 - 1 if the sum is greater.
pub fn until(now: u64, seconds: u64) -> u64
    ensures { result ≡ min (now + seconds) (2 ^ 64 - 1) }
{
    now.saturating_add(seconds)
}

/// Returns the deadline of a polling round that begins at `now`: `every` seconds later, or 60
/// seconds later if `every` is less.
pub fn round_until(every: u64, now: u64) -> u64
    ensures { result ≡ min (now + max every 60) (2 ^ 64 - 1) }
{
    until(now, every.max(LEAST_ROUND))
}
