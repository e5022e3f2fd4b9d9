//! Bounds of the indices and timestamps in the tables of the store.
use poll_core::LAST_MOMENT;

/// The greatest index of a row in a table of the store, and the greatest number of a poll: 2^62.
pub const GREATEST_PLACE: u64 = 4_611_686_018_427_387_904;

/// The latest timestamp that the store accepts, in seconds since 1970-01-01 UTC.
pub const LATEST_MOMENT: u64 = LAST_MOMENT;
