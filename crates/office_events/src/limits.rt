//! Limits of the program: how many devices, meters and polls it allows, and the maximum values of
//! numbers in commands.

/// The maximum length of a name, in bytes.
pub const MAX_NAME: usize = 16;

/// The maximum number of devices in one store.
pub const MAX_DEVICES: usize = 64;

/// The maximum number of accounting registers (named energy counters) of a device.
pub const MAX_REGISTERS: usize = 32;

/// The maximum number of meters in one store, closed meters included.
pub const MAX_INSTALLATIONS: usize = 4096;

/// The maximum number of polls in one store, and the greatest poll number: 2^62.
pub const MAX_POLLS: u64 = 4_611_686_018_427_387_904;

/// The greatest number in an idempotency key: 2^63 - 1.
pub const MAX_REQUEST: u64 = 9_223_372_036_854_775_807;

/// The greatest Modbus unit identifier.
pub const LAST_UNIT: u64 = 255;

/// The last Modbus register address of a device.
pub const LAST_ADDRESS: u64 = 65535;

/// The last address of the high word of a counter. The low word follows at the next address.
pub const LAST_COUNTER: u64 = 65534;

/// The maximum number of rollovers of a meter's counter between two consecutive entries of the
/// meter.
pub const MAX_ROLLS: u64 = 255;
