//! Commands that change the records in the program's store: devices, accounting registers (named
//! energy counters), meters and meter entries. The program checks the ranges of all numbers in a
//! command. A name is `None` if the caller's text is not a valid name.
use crate::names::Name;
use mb_wire::ReadSpan;
use read_plan::PlannedList;

/// The command to add a device.
#[derive(Clone, Copy, PartialEq, Eq)]
pub struct AddDevice {
    pub name: Option<Name>,
    /// The Modbus unit identifier, 0 to 255.
    pub unit: u64,
    /// The time limit for the device's response to a poll, 1 to 60 seconds.
    pub timeout: u64,
    /// The maximum number of the device's polls that wait for a response at the same time, 1 to 16.
    pub window: u64,
}

/// The command to set or replace the point list of a device (the Modbus registers to read).
#[derive(Drop)]
pub struct PutList {
    pub device: Option<Name>,
    pub list: PlannedList,
}

/// The source of an accounting register's scale factor: a fixed exponent,
/// or a Modbus address. The program has not yet checked that the exponent or the address is in its
/// range.
#[derive(Clone, Copy, PartialEq, Eq)]
pub enum GivenScale {
    /// A fixed scale factor: an exponent of ten, -3 to 3.
    Fixed(i64),
    /// The address (0 to 65535) of the Modbus register from which the program reads the counter's
    /// scale factor.
    Register(u64),
}

/// The command to add an accounting register: an energy counter in two consecutive Modbus registers
/// of a device.
#[derive(Clone, Copy, PartialEq, Eq)]
pub struct AddRegister {
    pub name: Option<Name>,
    pub device: Option<Name>,
    /// The Modbus function code of the read, 3 or 4.
    pub function: u64,
    /// The Modbus address of the counter's high word, 0 to 65534.
    pub address: u64,
    pub scale: GivenScale,
}

/// The command to install a meter at an accounting register (a named energy counter of a device).
#[derive(Clone, Copy, PartialEq, Eq)]
pub struct Install {
    pub register: Option<Name>,
    pub meter: Option<Name>,
    /// The meter's counter value at its installation, at least 0 and below `range`.
    pub raw: u64,
    /// The scale factor of the meter's counts: an exponent of ten, -3 to 3.
    pub sf: i64,
    /// The greatest power that can flow through the meter, 1 to 1,000,000,000 W.
    pub ceiling: u64,
    /// The number of counts after which the meter's counter rolls over, 65,536 to 4,294,967,296.
    pub range: u64,
}

/// The command to close the meter that is installed at an accounting register (a named energy
/// counter), and to install another meter at this register.
#[derive(Clone, Copy, PartialEq, Eq)]
pub struct Exchange {
    pub register: Option<Name>,
    /// The last counter value of the meter that is closed.
    pub last: u64,
    /// The number of rollovers since the old meter's last entry, 0 to 255.
    pub rolls: u64,
    pub meter: Option<Name>,
    pub raw: u64,
    pub sf: i64,
    pub ceiling: u64,
    pub range: u64,
}

/// The command to record a counter reset: the counter of an accounting register (a named energy
/// counter) had reached `before` and was set to `after`.
#[derive(Clone, Copy, PartialEq, Eq)]
pub struct Reset {
    pub register: Option<Name>,
    pub before: u64,
    pub after: u64,
}

/// The command to record a change of scale: the counter had reached `before`, and was set to
/// `after` at another scale factor.
#[derive(Clone, Copy, PartialEq, Eq)]
pub struct Rescale {
    pub register: Option<Name>,
    pub before: u64,
    pub after: u64,
    pub sf: i64,
}

/// The command to enter a manual reading of a meter.
#[derive(Clone, Copy, PartialEq, Eq)]
pub struct Manual {
    pub register: Option<Name>,
    pub raw: u64,
    /// The number of rollovers since the meter's last entry, 0 to 255.
    pub rolls: u64,
    /// The time of the reading in seconds since 1970-01-01 UTC, or `None` for the time of the
    /// command.
    pub at: Option<u64>,
}

/// The command to close the meter that is installed at an accounting register (a named energy
/// counter), with the meter's last counter value.
#[derive(Clone, Copy, PartialEq, Eq)]
pub struct Close {
    pub register: Option<Name>,
    pub raw: u64,
    pub rolls: u64,
}

/// The command to send one Modbus read to a device.
#[derive(Clone, Copy, PartialEq, Eq)]
pub struct StartPoll {
    pub device: Option<Name>,
    pub span: ReadSpan,
}

/// The command to send the reads that cover a device's point list. `from` is the index of the first
/// read to send, counted from 0.
#[derive(Clone, Copy, PartialEq, Eq)]
pub struct StartRound {
    pub device: Option<Name>,
    pub from: u64,
}

/// The command to void (cancel) a meter entry. `place` is the entry's sequence number among the
/// meter's entries, where the first entry (the opening) has number 1.
#[derive(Clone, Copy, PartialEq, Eq)]
pub struct VoidEntry {
    pub meter: Option<Name>,
    pub place: u64,
}

/// A command that the program executes or refuses.
#[derive(Drop)]
pub enum Command {
    AddDevice(AddDevice),
    PutList(PutList),
    AddRegister(AddRegister),
    Install(Install),
    Exchange(Exchange),
    Reset(Reset),
    Rescale(Rescale),
    Manual(Manual),
    Close(Close),
    Void(VoidEntry),
    StartPoll(StartPoll),
    StartRound(StartRound),
}
