//! Faults that end a scan of a device (the search for its SunSpec models), or the read of a
//! counter, early.
use std::error::Error;
use std::fmt;
use std::fmt::{Display, Formatter};

/// The reason why a scan of a device, or the read of a counter, ended early.
#[derive(Clone, Copy, Debug, PartialEq, Eq)]
pub enum ScanFault {
    /// The device closed the connection.
    Gone,
    /// A read or a write of the link to the device failed, or a write accepted no bytes.
    Failed,
    /// A length field in the bytes from the device is out of range.
    Garbled,
    Memory,
}

impl Display for ScanFault {
    fn fmt<W: fmt::Write>(&self, f: &mut Formatter<W>) -> fmt::Result {
        f.write_str(match self {
            ScanFault::Gone => "the device closed the connection",
            ScanFault::Failed => "the connection failed",
            ScanFault::Garbled => "the device sent bytes that are not Modbus",
            ScanFault::Memory => "memory ran out",
        })
    }
}

impl Error for ScanFault {}
