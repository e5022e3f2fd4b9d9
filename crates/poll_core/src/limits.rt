//! The limits of a polling session: times, timeouts and the number of pending polls.

/// The latest time that a polling session accepts, in seconds since 1970-01-01 UTC: the beginning
/// of 2100.
pub const LAST_MOMENT: u64 = 4_102_444_800;

/// The longest timeout of a poll, in seconds.
pub const MAX_TIMEOUT: u64 = 60;

/// The greatest window: the number of polls of one device that may be pending at the same time.
pub const MAX_WINDOW: usize = 16;
