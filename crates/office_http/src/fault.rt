//! The reasons why a request was not served.
ghost use Rattle.std.specs.Prelude.{◌≡◌};

use crate::messages::TakeFault;
use std::error::Error;
use std::fmt;
use std::fmt::{Display, Formatter};

/// The reason why a request was not served.
#[derive(Clone, Copy, Debug, PartialEq, Eq)]
pub enum HandleFault {
    /// A read from the client's connection failed.
    Read,
    /// A write to the client's connection failed.
    Write,
    /// The client's input ended before the request was complete.
    Short,
    /// The request was still incomplete after 100,000 reads from the client's connection.
    TurnsUsed,
    /// The store of metering records failed after the first row of the response, so the response is
    /// cut off.
    Cut,
}

impl HandleFault {
    ghost use Rattle.office_http.specs.Exchange.{fault_number};

    /// Returns the numeric code of the reason why a request was not served. No output of the
    /// program contains this code.
    pub fn number(self) -> u8
        ensures { result ≡ fault_number self }
    {
        match self {
            HandleFault::Read => 1,
            HandleFault::Write => 2,
            HandleFault::Short => 3,
            HandleFault::TurnsUsed => 4,
            HandleFault::Cut => 5,
        }
    }
}

impl From<TakeFault> for HandleFault {
    ghost use Rattle.std.specs.Prelude.{◌≡◌};
    ghost use Rattle.office_http.specs.Exchange.{as_fault};

    ghost from_gives = { λ fault reported. reported ≡ as_fault fault };

    fn from(fault: TakeFault) -> HandleFault {
        match fault {
            TakeFault::Read => HandleFault::Read,
            TakeFault::Short => HandleFault::Short,
            TakeFault::TurnsUsed => HandleFault::TurnsUsed,
        }
    }
}

impl Display for HandleFault {
    fn fmt<W: fmt::Write>(&self, f: &mut Formatter<W>) -> fmt::Result {
        match self {
            HandleFault::Read => write!(f, "{}", TakeFault::Read),
            HandleFault::Write => write!(f, "a write to the connection failed"),
            HandleFault::Short => write!(f, "{}", TakeFault::Short),
            HandleFault::TurnsUsed => write!(f, "{}", TakeFault::TurnsUsed),
            HandleFault::Cut => write!(
                f,
                "the books failed while rows were written, so the reply is cut off"
            ),
        }
    }
}

impl Error for HandleFault {}
