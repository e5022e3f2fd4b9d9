//! A reason why a text is not a valid list of devices.
use crate::values::devices::{MOST_DEVICES, MOST_PORT};
use std::alloc::{AllocError, AllocFailed};
use std::error::Error;
use std::fmt;
use std::fmt::{Display, Formatter};

/// A reason why a part of a device list is invalid.
#[derive(Clone, Copy, Debug, Drop)]
pub enum DeviceFault {
    /// Fault of a part of a device list: the part is not `NAME=HOST:PORT`, or its port is out of
    /// range.
    Malformed,
    /// Fault of a part of a device list: another part has the same device name.
    Repeated,
    /// Fault of a part of a device list: it is the 65th part of the list, which may have at most 64
    /// parts.
    TooMany,
}

/// A reason why a text is not a valid list of devices.
#[derive(Clone, Copy, Debug, Drop)]
pub enum ListFault<'a> {
    /// The part `part` of the device list is not a valid device.
    Part { part: &'a str, fault: DeviceFault },
    Memory,
}

impl<'a> From<AllocError> for ListFault<'a> {
    ghost use Rattle.std.specs.Prelude.{◌≡◌};
    ghost use Rattle.command_words.specs.declared.values.list_fault.ListFault.TheVariants.{Memory};

    ghost from_gives = { λ _ fault. fault ≡ Memory };

    fn from(_: AllocError) -> ListFault<'a> {
        ListFault::Memory
    }
}

impl<'a, T: Drop> From<AllocFailed<T>> for ListFault<'a> {
    ghost use Rattle.std.specs.Prelude.{◌≡◌};
    ghost use Rattle.command_words.specs.declared.values.list_fault.ListFault.TheVariants.{Memory};

    ghost from_gives = { λ _ fault. fault ≡ Memory };

    fn from(_: AllocFailed<T>) -> ListFault<'a> {
        ListFault::Memory
    }
}

impl Display for DeviceFault {
    fn fmt<W: fmt::Write>(&self, f: &mut Formatter<W>) -> fmt::Result {
        match self {
            DeviceFault::Malformed => {
                write!(f, "not NAME=HOST:PORT with a PORT from 1 to {MOST_PORT}")
            }
            DeviceFault::Repeated => write!(f, "its NAME is used twice"),
            DeviceFault::TooMany => write!(f, "more than {MOST_DEVICES} devices"),
        }
    }
}

impl Error for DeviceFault {}

impl<'a> Display for ListFault<'a> {
    fn fmt<W: fmt::Write>(&self, f: &mut Formatter<W>) -> fmt::Result {
        match self {
            ListFault::Part { part, fault } => write!(f, "invalid device '{part}': {fault}"),
            ListFault::Memory => write!(f, "out of memory"),
        }
    }
}

impl<'a> Error for ListFault<'a> {}
