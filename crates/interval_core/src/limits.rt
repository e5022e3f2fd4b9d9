//! The limits of timestamps, of the time between two readings, and of the texts of time zones.

use energy_core::{INTERVAL_SECONDS, MAX_INTERVALS};

/// The last timestamp that has a civil day, in seconds since 1970-01-01 UTC: the beginning of 2100.
pub const LAST_MOMENT: u64 = 4_102_444_800;

/// The greatest length of a step (the time between two consecutive readings), in seconds.
pub const MAX_STEP_SECONDS: u64 = MAX_INTERVALS * INTERVAL_SECONDS;

/// The greatest length of the text of a time zone, in bytes.
pub const MAX_ZONE_TEXT: usize = 64;
