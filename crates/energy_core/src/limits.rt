//! The limits of a meter's counts, scale factors, power and energy.

/// The smallest permitted range of a counter: the least number of values that a counter may have
/// before it rolls over.
pub const MIN_RANGE: u64 = 65_536;

/// The greatest range of a counter, in counts: the range of a 32-bit counter.
pub const MAX_RANGE: u64 = 4_294_967_296;

/// The greatest count that a counter can show: the greatest 32-bit number.
pub const MAX_SHOWN: u64 = 4_294_967_295;

/// The least scale factor of a counter, at which a count is 1 mWh.
pub const MIN_SCALE: i16 = -3;

/// The greatest scale factor of a counter, at which a count is 1,000,000 mWh (1 kWh).
pub const MAX_SCALE: i16 = 3;

/// The greatest energy of one count, in mWh, which is the energy at the greatest scale factor.
pub const MAX_UNIT: u64 = 1_000_000;

/// The greatest ceiling (limit of a meter's power) that a meter may have, in W.
pub const MAX_CEILING: u64 = 1_000_000_000;

/// The greatest total energy of an installed meter, in mWh.
pub const MAX_TOTAL: u64 = 4_000_000_000_000_000_000;

/// The length of a quarter-hour interval, in seconds. Each interval begins at a multiple of this
/// length.
pub const INTERVAL_SECONDS: u64 = 900;

/// The greatest number of quarter-hour intervals that the time between two entries of a meter may
/// touch.
pub const MAX_INTERVALS: u64 = 3000;
