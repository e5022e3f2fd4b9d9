//! Writes each fault of a request, a response or a link as English text.
use crate::link::LinkFailed;
use crate::replies::ReplyFault;
use crate::requests::RequestFault;
use std::error::Error;
use std::fmt;
use std::fmt::{Display, Formatter};

impl Display for RequestFault {
    fn fmt<W: fmt::Write>(&self, f: &mut Formatter<W>) -> fmt::Result {
        f.write_str(match self {
            RequestFault::UnknownFunction =>
                "the request's function code is none of 1 to 6, 15 and 16",
            RequestFault::WrongLength =>
                "the request is empty, or not as long as its function and byte count say",
            RequestFault::WrongQuantity =>
                "the request's quantity is not one that its function allows",
            RequestFault::WrongByteCount =>
                "the request's byte count is not what its quantity needs",
            RequestFault::WrongCoilValue =>
                "the request sets a coil to another value than 0x0000 and 0xFF00",
        })
    }
}

impl Error for RequestFault {}

impl Display for ReplyFault {
    fn fmt<W: fmt::Write>(&self, f: &mut Formatter<W>) -> fmt::Result {
        f.write_str(match self {
            ReplyFault::WrongFunction => "the reply's function code is not the request's",
            ReplyFault::WrongLength =>
                "the reply is empty, or not as long as its function and byte count say",
            ReplyFault::WrongByteCount =>
                "the reply's byte count is not what the request asked for",
            ReplyFault::WrongEcho => "the reply to a write does not repeat the request",
        })
    }
}

impl Error for ReplyFault {}

impl Display for LinkFailed {
    fn fmt<W: fmt::Write>(&self, f: &mut Formatter<W>) -> fmt::Result {
        f.write_str("a read or a write of the connection failed")
    }
}

impl Error for LinkFailed {}
