//! The records that the program writes to its store.
use crate::answers::CommandKind;
use crate::events::Piece;
use crate::names::Name;
use crate::terms::{Timeout, Window};
use energy_core::{Cause, Entry};
use mb_wire::{ReadFunction, ReadSpan};
use meter_journal::EntryKind;
use poll_core::Outcome;
use read_plan::PlannedList;

/// A device that the program polls: its name, its Modbus unit identifier, its timeout, and the
/// maximum number of polls that wait for a response.
#[derive(Clone, Copy, PartialEq, Eq)]
pub struct Device {
    pub name: Name,
    /// The Modbus unit identifier.
    pub unit: u8,
    pub timeout: Timeout,
    pub window: Window,
}

/// The point list of a device (the Modbus registers to read), with the reads that cover its points.
#[derive(Clone, Drop)]
pub struct DeviceList {
    pub device: Name,
    pub list: PlannedList,
}

/// The source of an accounting register's scale factor (an exponent of
/// ten).
#[derive(Clone, Copy, PartialEq, Eq)]
pub enum ScaleSource {
    /// A fixed scale factor: an exponent of ten, -3 to 3.
    Fixed(i16),
    /// The address of the Modbus register in which the device has the scale factor.
    Register(u16),
}

/// An accounting register: an energy counter in two consecutive Modbus registers of a device, the
/// high word first.
#[derive(Clone, Copy, PartialEq, Eq)]
pub struct Register {
    pub name: Name,
    pub device: Name,
    pub function: ReadFunction,
    pub address: u16,
    pub scale: ScaleSource,
}

/// The opening of a meter (its first entry): its installation at an accounting register, with the
/// counter value at the installation.
#[derive(Clone, Copy, PartialEq, Eq)]
pub struct Opening {
    pub meter: Name,
    pub register: Name,
    /// The greatest power that can flow through the meter, in W.
    pub ceiling: u64,
    /// The number of counts after which the meter's counter rolls over.
    pub range: u64,
    /// The time of the installation, in seconds since 1970-01-01 UTC.
    pub at: u64,
    pub raw: u32,
    pub sf: i16,
}

/// A poll: one Modbus read that was sent to a device.
#[derive(Clone, Copy, PartialEq, Eq)]
pub struct Poll {
    /// The number of the poll, from 1.
    pub number: u64,
    pub device: Name,
    pub unit: u8,
    /// The time of the poll's start, in seconds since 1970-01-01 UTC.
    pub at: u64,
    /// The Modbus TCP transaction identifier of the poll's frame.
    pub id: u16,
    pub span: ReadSpan,
}

/// The end of a poll: its time and its outcome.
#[derive(Clone, Copy, PartialEq, Eq)]
pub struct EndedPoll {
    pub poll: u64,
    /// The time of the poll's end, in seconds since 1970-01-01 UTC.
    pub at: u64,
    pub outcome: Outcome,
}

/// An entry of a meter (a reading, reset, closing or similar) other than its opening (the first
/// entry).
#[derive(Clone, Copy, PartialEq, Eq)]
pub struct BookedEntry {
    pub meter: Name,
    pub kind: EntryKind,
    pub entry: Entry,
}

/// A rejected reading with the cause of its rejection. A rejected reading does not change the state
/// or the energy of its meter.
#[derive(Clone, Copy, PartialEq, Eq)]
pub struct HeldReading {
    pub meter: Name,
    pub poll: u64,
    /// The time of the reading, in seconds since 1970-01-01 UTC.
    pub at: u64,
    pub raw: u32,
    pub sf: i16,
    pub cause: Cause,
}

/// A void: the record that an entry of a meter (such as a reading) was wrong and is cancelled.
#[derive(Clone, Copy, PartialEq, Eq)]
pub struct VoidedEntry {
    pub meter: Name,
    pub place: u64,
    /// The time of the void, in seconds since 1970-01-01 UTC.
    pub at: u64,
}

/// The stored answer to a command with an idempotency key. The store never deletes this answer.
#[derive(Clone, Drop)]
pub struct Reply {
    pub caller: Name,
    pub number: u64,
    pub request: Piece,
    pub kind: CommandKind,
    /// The time at which the program answered the request, in seconds since 1970-01-01 UTC.
    pub at: u64,
}

/// A record that the program writes to its store, such as a new device, a started poll or a meter
/// entry.
#[derive(Drop)]
pub enum Fact {
    Device(Device),
    List(DeviceList),
    Register(Register),
    Opening(Opening),
    Entry(BookedEntry),
    Hold(HeldReading),
    Void(VoidedEntry),
    Poll(Poll),
    Outcome(EndedPoll),
    Reply(Reply),
}
