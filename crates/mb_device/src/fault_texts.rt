//! Writes each fault of a simulated device as English text.
use crate::kinds::BankFault;
use crate::server::ServeFault;
use std::error::Error;
use std::fmt;
use std::fmt::{Display, Formatter};

impl Display for BankFault {
    fn fmt<W: fmt::Write>(&self, f: &mut Formatter<W>) -> fmt::Result {
        f.write_str(match self {
            BankFault::AreasOverlap => "two areas of one kind share an address",
            BankFault::OutOfRange => "an area is empty, or reaches past address 65535",
            BankFault::Memory => "memory ran out",
        })
    }
}

impl Error for BankFault {}

impl Display for ServeFault {
    fn fmt<W: fmt::Write>(&self, f: &mut Formatter<W>) -> fmt::Result {
        f.write_str(match self {
            ServeFault::Read => "a read of the connection failed",
            ServeFault::Write => "a write to the connection failed, or took nothing",
            ServeFault::Garbled =>
                "a frame's length field is not 2 to 254, or the server had failed before",
            ServeFault::TurnsUsed => "the input had not ended after the last turn",
        })
    }
}

impl Error for ServeFault {}
