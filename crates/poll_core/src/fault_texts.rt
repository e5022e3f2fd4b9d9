//! Writes each fault of a polling session, and each cause of a lost poll, as English text.
use crate::answers::{ClockBack, StartFault};
use crate::outcome::{LostCause, Malformation};
use std::error::Error;
use std::fmt;
use std::fmt::{Display, Formatter};

impl Display for ClockBack {
    fn fmt<W: fmt::Write>(&self, f: &mut Formatter<W>) -> fmt::Result {
        f.write_str("the moment is before the latest one")
    }
}

impl Error for ClockBack {}

impl Display for StartFault {
    fn fmt<W: fmt::Write>(&self, f: &mut Formatter<W>) -> fmt::Result {
        f.write_str(match self {
            StartFault::WindowFull => "as many polls wait as the device's window holds",
            StartFault::IdBusy => "a poll that waits has the next transaction identifier",
            StartFault::ClockBack => "the moment is before the latest one",
            StartFault::Closed => "the session was closed, or its stream is garbled",
        })
    }
}

impl Error for StartFault {}

impl Display for Malformation {
    fn fmt<W: fmt::Write>(&self, f: &mut Formatter<W>) -> fmt::Result {
        f.write_str(match self {
            Malformation::WrongFunction => "the reply's function code is not the request's",
            Malformation::WrongLength =>
                "the reply is empty, or not as long as its function and byte count say",
            Malformation::WrongByteCount =>
                "the reply's byte count is not what the request asked for",
            Malformation::WrongEcho => "the reply to a write does not repeat the request",
            Malformation::WrongUnit => "the reply comes from another unit",
        })
    }
}

impl Error for Malformation {}

impl Display for LostCause {
    fn fmt<W: fmt::Write>(&self, f: &mut Formatter<W>) -> fmt::Result {
        f.write_str(match self {
            LostCause::Gone => "the device closed the connection",
            LostCause::Garbled => "a frame's length field is not 2 to 254",
            LostCause::Failed => "a read or a write of the connection failed",
            LostCause::Restart => "the program was started again",
        })
    }
}

impl Error for LostCause {}
