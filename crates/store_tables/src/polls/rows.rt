//! The rows of polls, outcomes, rejected readings and stored requests, as their tables store them.
ghost use Rattle.std.specs.Prelude.{◌≡◌};

use energy_core::Cause;
use mb_wire::ReadFunction;
use office_events::CommandKind;
use poll_core::Outcome;

/// A poll (a Modbus read that was started) without the name of its device.
#[derive(Clone, Copy, PartialEq, Eq)]
pub struct PollRow {
    /// The number of the poll, from 1.
    pub number: u64,
    /// The Modbus unit identifier of the request.
    pub unit: u8,
    /// The time at which the poll started, in seconds since 1970-01-01 UTC.
    pub started: u64,
    /// The Modbus TCP transaction identifier of the request.
    pub id: u16,
    pub function: ReadFunction,
    /// The address of the first Modbus register that the poll reads.
    pub address: u16,
    /// How many Modbus registers the poll reads: 1 to 125, and none past address 65535.
    pub count: u16,
}

/// A poll of a device, as a row of the table `polls`. A poll is one Modbus read that was started.
#[derive(Drop)]
pub struct Poll {
    pub device: String,
    pub row: PollRow,
}

/// The outcome of a poll: how the poll ended.
#[derive(Clone, Copy)]
pub struct OutcomeRow {
    /// The number of the poll that ended.
    pub poll: u64,
    /// The time at which the poll ended, in seconds since 1970-01-01 UTC.
    pub moment: u64,
    pub outcome: Outcome,
}

/// A rejected reading of a meter, without the name of the meter.
#[derive(Clone, Copy)]
pub struct RejectedRow {
    /// The index of the rejected reading, from 1.
    pub place: u64,
    /// The number of the poll that read the counter's rejected value.
    pub poll: u64,
    /// The time of the rejected reading, in seconds since 1970-01-01 UTC.
    pub moment: u64,
    /// The counter's value in the rejected reading.
    pub raw: u32,
    /// The scale factor of the counter's value: the exponent of a power of ten.
    pub sf: i16,
    pub cause: Cause,
}

/// How a request compares with the request that is stored under its idempotency key.
#[derive(Clone, Copy, PartialEq, Eq)]
pub enum Repeat {
    /// The request has the same bytes as the request that is stored under its idempotency key, so
    /// it is a retry. The variant has the kind of the request's command.
    Same(CommandKind),
    /// The request that is stored under the same idempotency key has other bytes than the new
    /// request.
    Other,
}
