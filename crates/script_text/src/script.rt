//! The types of a script's lines: events, commands and queries.
ghost use Rattle.std.specs.Prelude.{◌≡◌, ◌↔◌, IfSome, IsSome};

use mb_wire::ReadSpan;
use office_events::{Event, Name, Piece};

/// The script line that starts a Modbus read. The fields are the numbers as written in the line,
/// which may be outside the ranges that Modbus allows.
#[derive(Clone, Copy)]
pub struct GivenStart {
    /// The name of the device. `None` if the name in the script line is not valid (1 to 16 ASCII
    /// letters, digits, `_` or `-`, with a letter first).
    pub device: Option<Name>,
    pub function: u64,
    pub address: u64,
    pub count: u64,
}

impl GivenStart {
    ghost use Rattle.mb_wire.specs.Spans.{IsSpan, code_of};

    /// Returns the Modbus registers to read, or `None` if one read request cannot cover them.
    pub fn span(&self) -> Option<ReadSpan>
        ensures lawful { IsSome result ↔ IsSpan self.now.function self.now.address self.now.count }
        ensures function { IfSome result (λ span. code_of span.function ≡ self.now.function) }
        ensures address { IfSome result (λ span. span.address ≡ self.now.address) }
        ensures count { IfSome result (λ span. span.count ≡ self.now.count) }
    {
        let function = u8::try_from(self.function).ok()?;
        let address = u16::try_from(self.address).ok()?;
        let count = u16::try_from(self.count).ok()?;
        ReadSpan::new(function, address, count)
    }
}

/// The script line with a device's point list as CSV text, which the parser does not check.
#[derive(Drop)]
pub struct GivenList {
    /// The name of the device. `None` if the name in the script line is not valid (1 to 16 ASCII
    /// letters, digits, `_` or `-`, with a letter first).
    pub device: Option<Name>,
    pub text: Piece,
}

/// A line of a script: an event, a command or a query. Timestamps are seconds since 1970-01-01 UTC.
/// Numbers may be out of range, and a name is `None` if the word is not a valid name.
#[derive(Drop)]
pub enum ScriptLine {
    /// A script line with an event or a command, and the line's timestamp.
    Event { at: u64, event: Event },
    /// A script line that stores a new point list for a device.
    List { at: u64, list: GivenList },
    /// A script line that starts a Modbus read.
    Start { at: u64, start: GivenStart },
    /// A script line that queries the last count and the total energy of a meter.
    Meter { name: Option<Name> },
    /// A script line that queries the energy of a meter in each quarter hour.
    Intervals { name: Option<Name> },
    /// A script line that queries the energy of an accounting register (a named counter) on each
    /// day.
    Days { name: Option<Name> },
    /// A script line that queries the outcome of a poll (a Modbus read).
    Poll { number: u64 },
}
