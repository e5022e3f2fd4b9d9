//! The outcomes of a poll, and the reasons for them.

use mb_wire::ReplyFault;

/// The kind of a call that may have several outcomes to report. Each call reports one, and the
/// polling session stores the kind until the caller has repeated the call for all outcomes.
#[derive(Clone, Copy, PartialEq, Eq)]
pub enum Call {
    Piece,
    Tick,
    Close(Closing),
}

/// The outcome of a poll.
#[derive(Clone, Copy, PartialEq, Eq)]
pub enum Outcome {
    /// The device sent the requested registers.
    Answered,
    /// The device responded with this exception code (Modbus Application Protocol V1.1b3, section
    /// 7).
    Exception(u8),
    /// The poll timed out: no response arrived before the deadline.
    Silent,
    /// A frame with the poll's transaction identifier is not a valid response to its request.
    Malformed(Malformation),
    /// The polling session ended before the poll was completed.
    Lost(LostCause),
}

/// The reason why a frame is not a valid response to the poll with its transaction identifier.
#[derive(Clone, Copy, Debug, PartialEq, Eq)]
pub enum Malformation {
    WrongFunction,
    WrongLength,
    WrongByteCount,
    WrongEcho,
    /// The frame has another unit identifier than the request. The unit identifier is checked
    /// first.
    WrongUnit,
}

/// The reason why a pending poll was lost.
#[derive(Clone, Copy, Debug, PartialEq, Eq)]
pub enum LostCause {
    /// The device closed the connection.
    Gone,
    /// A length field of the received stream is out of range.
    Garbled,
    /// A read from the connection or a write to it failed.
    Failed,
    /// The program was restarted while the poll had no outcome. A polling session never returns
    /// this cause of a lost poll.
    Restart,
}

/// The way in which a connection ended.
#[derive(Clone, Copy, PartialEq, Eq)]
pub enum Closing {
    /// The device closed the connection.
    Gone,
    /// A read from the connection or a write to it failed.
    Failed,
}

impl Outcome {
    ghost use Rattle.std.specs.Prelude.{◌≡◌};
    ghost use Rattle.poll_core.specs.Outcomes.{outcome_number, outcome_code};

    /// Returns the numeric code of the kind of a poll's outcome, 1 to 5.
    pub fn number(self) -> u8
        ensures { result ≡ outcome_number self }
    {
        match self {
            Outcome::Answered => 1,
            Outcome::Exception(_) => 2,
            Outcome::Silent => 3,
            Outcome::Malformed(_) => 4,
            Outcome::Lost(_) => 5,
        }
    }

    /// Returns the second numeric code of a poll's outcome: the exception code, or the code of the
    /// malformation or of the cause of the loss. Returns 0 for other outcomes.
    pub fn code(self) -> u8
        ensures { result ≡ outcome_code self }
    {
        match self {
            Outcome::Exception(code) => code,
            Outcome::Malformed(malformation) => malformation.number(),
            Outcome::Lost(cause) => cause.number(),
            Outcome::Answered | Outcome::Silent => 0,
        }
    }
}

impl Malformation {
    ghost use Rattle.std.specs.Prelude.{◌≡◌};
    ghost use Rattle.poll_core.specs.Outcomes.{malformation_number};

    /// Returns the numeric code of a response's malformation, 1 to 5.
    pub fn number(self) -> u8
        ensures { result ≡ malformation_number self }
    {
        match self {
            Malformation::WrongFunction => 1,
            Malformation::WrongLength => 2,
            Malformation::WrongByteCount => 3,
            Malformation::WrongEcho => 4,
            Malformation::WrongUnit => 5,
        }
    }
}

impl From<ReplyFault> for Malformation {
    ghost use Rattle.std.specs.Prelude.{◌≡◌};
    ghost use Rattle.poll_core.specs.Outcomes.{malformation_by};

    ghost from_gives = { λ fault malformation. malformation ≡ malformation_by fault };

    fn from(fault: ReplyFault) -> Malformation {
        match fault {
            ReplyFault::WrongFunction => Malformation::WrongFunction,
            ReplyFault::WrongLength => Malformation::WrongLength,
            ReplyFault::WrongByteCount => Malformation::WrongByteCount,
            ReplyFault::WrongEcho => Malformation::WrongEcho,
        }
    }
}

impl LostCause {
    ghost use Rattle.std.specs.Prelude.{◌≡◌};
    ghost use Rattle.poll_core.specs.Outcomes.{cause_number};

    /// Returns the numeric code of the cause by which a poll was lost, 1 to 4.
    pub fn number(self) -> u8
        ensures { result ≡ cause_number self }
    {
        match self {
            LostCause::Gone => 1,
            LostCause::Garbled => 2,
            LostCause::Failed => 3,
            LostCause::Restart => 4,
        }
    }
}

impl From<Closing> for LostCause {
    ghost use Rattle.std.specs.Prelude.{◌≡◌};
    ghost use Rattle.poll_core.specs.Outcomes.{cause_of};

    ghost from_gives = { λ closing cause. cause ≡ cause_of closing };

    fn from(closing: Closing) -> LostCause {
        match closing {
            Closing::Gone => LostCause::Gone,
            Closing::Failed => LostCause::Failed,
        }
    }
}
