//! The types of the lines that set up a simulated device. The numbers in these lines are at most
//! 2^63 - 1, and may be outside the ranges that Modbus allows.
use mb_device::{Kind, Trick};

/// A range in the address map of a simulated Modbus device: `count` addresses of one kind, from
/// `start` on.
#[derive(Clone, Copy)]
pub struct GivenArea {
    pub kind: Kind,
    pub start: u64,
    pub count: u64,
}

/// The value at a Modbus address of a simulated device.
#[derive(Clone, Copy)]
pub struct GivenCell {
    pub kind: Kind,
    pub address: u64,
    pub value: u64,
}

/// A line that sets up a simulated device.
#[derive(Clone, Copy)]
pub enum BankLine {
    Area(GivenArea),
    Set(GivenCell),
    /// A fault to inject into the response to one Modbus frame. Frames are numbered from 1.
    Trick { frame: u64, trick: Trick },
}
