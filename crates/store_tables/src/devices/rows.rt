//! Devices, points and accounting registers (named counters of devices), as the tables `devices`,
//! `points` and `registers` store them.

use mb_wire::ReadFunction;

/// A Modbus device without its name, as the table `devices` stores it: its index, its unit
/// identifier, and the settings of its polls.
#[derive(Clone, Copy, PartialEq, Eq)]
pub struct DeviceRow {
    /// The index of the device, from 1.
    pub place: u64,
    /// The Modbus unit identifier.
    pub unit: u8,
    /// The timeout of a poll in seconds, 1 to 60.
    pub timeout: u8,
    /// How many polls of the device may wait for their responses at once, 1 to 16.
    pub window: u8,
}

/// A Modbus device with its name, as the table `devices` stores it.
#[derive(Drop)]
pub struct Device {
    pub name: String,
    pub row: DeviceRow,
}

/// A SunSpec point that a device is polled for, as the table `points` stores it, without its name,
/// its type and its scale.
#[derive(Clone, Copy, PartialEq, Eq)]
pub struct PointRow {
    /// The index of the point in its point list, from 1.
    pub place: u64,
    pub function: ReadFunction,
    pub area: u8,
    /// The address of the point's first Modbus register.
    pub address: u16,
}

/// A point of a device's point list. The point's type and scale are texts, as in the CSV file of a
/// point list.
#[derive(Drop)]
pub struct Point {
    pub name: String,
    pub kind: String,
    pub scale: String,
    pub row: PointRow,
}

/// The source of the scale factor of an accounting register (a named counter): a fixed number, or a
/// Modbus register.
#[derive(Clone, Copy, PartialEq, Eq)]
pub enum RegisterScale {
    /// A fixed scale factor, -3 to 3.
    Fixed(i16),
    /// The address of the Modbus register that has the scale factor.
    At(u16),
}

/// An accounting register (a named counter of a device) as the table `registers` stores it, without
/// its name and the name of its device.
#[derive(Clone, Copy, PartialEq, Eq)]
pub struct RegisterRow {
    /// The index of the accounting register (a named counter), from 1.
    pub place: u64,
    pub function: ReadFunction,
    /// The address of the counter's high word, 0 to 65534.
    pub address: u16,
    pub scale: RegisterScale,
}

/// An accounting register: a named counter of a device, at which meters are installed.
#[derive(Drop)]
pub struct Register {
    pub name: String,
    pub device: String,
    pub row: RegisterRow,
}
