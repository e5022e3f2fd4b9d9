//! The time at which an HTTP request is served: for timeouts, and for the store's records.

/// The time at which a request is served, as the time of the run's own clock and as a timestamp.
#[derive(Clone, Copy)]
pub struct Now {
    /// The time of the run's own clock in seconds since 1970-01-01 UTC, which measures timeouts.
    pub time: u64,
    /// The timestamp for the store's records, in seconds since 1970-01-01 UTC.
    pub moment: u64,
}

/// Reads the monotonic clock, in milliseconds. Returns 0 if the clock cannot be read.
pub fn even_milliseconds<R: std::rt::Clock>(rt: &R) -> u64 {
    match rt.monotonic() {
        Ok(since) => since
            .as_secs()
            .saturating_mul(1000)
            .saturating_add(u64::from(since.subsec_millis())),
        Err(_) => 0,
    }
}
