//! The reasons why the body of a request contains no valid command.
use crate::messages::commands::json::BodyFault;
use point_list::FaultyRows;
use std::error::Error;
use std::fmt;
use std::fmt::{Display, Formatter};

/// The reason why the body of a request contains no valid command.
#[derive(Debug, Drop)]
pub enum CommandFault {
    /// The body is not a JSON object, or a required member is missing or has the wrong type.
    Malformed,
    /// All required members exist, but a number that must not be negative is negative.
    Negative,
    /// The body is a point list (CSV rows with the registers to poll), and the given rows of it are
    /// faulty.
    Faulty(FaultyRows),
    /// Out of memory.
    Memory,
}

impl From<BodyFault> for CommandFault {
    ghost use Rattle.std.specs.Prelude.{◌≡◌};
    ghost use Rattle.office_http.specs.Messages.Commands.Given.{fault_reported};

    ghost from_gives = { λ fault reported. reported ≡ fault_reported fault };

    fn from(fault: BodyFault) -> CommandFault {
        match fault {
            BodyFault::Malformed => CommandFault::Malformed,
            BodyFault::Negative => CommandFault::Negative,
            BodyFault::Memory => CommandFault::Memory,
        }
    }
}

impl Display for CommandFault {
    fn fmt<W: fmt::Write>(&self, f: &mut Formatter<W>) -> fmt::Result {
        match self {
            CommandFault::Malformed => write!(
                f,
                "the body is no JSON object, or a member that is wanted is missing or of another kind"
            ),
            CommandFault::Negative => write!(f, "a number of the body is negative"),
            CommandFault::Faulty(rows) => write!(f, "{rows}"),
            CommandFault::Memory => write!(f, "memory ran out"),
        }
    }
}

impl Error for CommandFault {}
