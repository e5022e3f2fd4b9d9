//! The types of the results that the functions of a polling session return, such as a completed
//! poll with its outcome.
use crate::outcome::Outcome;
use mb_wire::Reply;

/// A completed poll, with the poll number that the caller passed to `start`.
#[derive(Clone, Copy)]
pub struct Settled<'a> {
    pub poll: u64,
    pub outcome: Outcome,
    /// The response, borrowed from the polling session. It is present exactly if the outcome is
    /// `Answered`.
    pub reply: Option<Reply<'a>>,
}

/// The result of `next`, which processes received bytes: the number of bytes that the call
/// consumed, and the completed poll, if any.
#[derive(Drop)]
pub struct Turn<'a> {
    pub taken: usize,
    pub settled: Option<Settled<'a>>,
}

/// The next transaction identifier, and the number of consecutive starts of polls that would
/// succeed, at times not before the polling session's latest time.
#[derive(Clone, Copy, PartialEq, Eq)]
pub struct Ready {
    pub id: u16,
    pub count: usize,
}

/// The error of a call with a time before the latest time of the polling session.
#[derive(Clone, Copy, Debug, PartialEq, Eq)]
pub struct ClockBack;

/// The reason why a polling session refused to start a poll.
#[derive(Clone, Copy, Debug, PartialEq, Eq)]
pub enum StartFault {
    /// The number of pending polls has reached the greatest number allowed (the window).
    WindowFull,
    /// A pending poll uses the next transaction identifier.
    IdBusy,
    /// The time of the call is before the latest time of the polling session.
    ClockBack,
    /// The polling session was closed, or received an invalid length field.
    Closed,
}

impl StartFault {
    ghost use Rattle.std.specs.Prelude.{◌≡◌};
    ghost use Rattle.poll_core.specs.Starting.{start_fault_number};

    /// Returns the numeric code, 1 to 4, of the fault for which the start of a poll is refused. If
    /// several faults apply, the fault with the lowest code is reported.
    pub fn number(self) -> u8
        ensures { result ≡ start_fault_number self }
    {
        match self {
            StartFault::WindowFull => 1,
            StartFault::IdBusy => 2,
            StartFault::ClockBack => 3,
            StartFault::Closed => 4,
        }
    }
}
