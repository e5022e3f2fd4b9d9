//! The reasons why the polling round of a device ends early.
ghost use Rattle.std.specs.Prelude.{◌≡◌};
ghost use Rattle.office_program.specs.Faults.{fault_number};

use crate::round::MOST_TAKES;
use office_events::Refusal;
use std::error::Error;
use std::fmt;
use std::fmt::{Display, Formatter};

/// The reason why the polling round of a device ended early.
#[derive(Clone, Copy, Debug, PartialEq, Eq)]
pub enum RoundFault {
    /// The office (the event engine) refused an event that the polling round fed.
    Refused(Refusal),
    /// A read or a write of the link to the device failed, or a write accepted no bytes.
    Link,
    /// The event engine's report of an event could not be printed.
    Output,
    /// The polling round used all of its 100,000 reads of the link (the connection to the device).
    TurnsUsed,
}

impl RoundFault {
    /// Returns the numeric code of this fault, which ended a polling round. The codes begin at 1.
    /// No output of the program shows them.
    pub fn number(self) -> u8
        ensures { result ≡ fault_number self }
    {
        match self {
            RoundFault::Refused(_) => 1,
            RoundFault::Link => 2,
            RoundFault::Output => 3,
            RoundFault::TurnsUsed => 4,
        }
    }
}

impl Display for RoundFault {
    fn fmt<W: fmt::Write>(&self, f: &mut Formatter<W>) -> fmt::Result {
        match self {
            RoundFault::Refused(refusal) => write!(
                f,
                "the office refused an event of the round: {refusal}"
            ),
            RoundFault::Link => write!(f, "a read or a write of the connection failed"),
            RoundFault::Output => write!(f, "what the office told could not be printed"),
            RoundFault::TurnsUsed => write!(f, "the round was not over after {MOST_TAKES} reads"),
        }
    }
}

impl Error for RoundFault {}
