//! Types for the polls of a device that have no outcome yet, and for completed polls with the kind
//! of event that completed them.
use crate::outcome::LostCause;
use mb_wire::{ReadFunction, ReadSpan, Request};
use std::marker::Model;

/// A poll that was started and is not completed yet.
#[derive(Drop)]
pub struct PendingPoll {
    number: u64,
    id: u16,
    unit: u8,
    span: ReadSpan,
    deadline: u64,
}

impl Model for PendingPoll {
    ghost use Rattle.mb_wire.specs.Spans.{span_view};
    ghost use Rattle.poll_core.specs.Polls as polls;

    ghost Value = { polls.Poll };

    ghost view = { λ p. polls.poll_of p.number p.id p.unit (span_view p.span) p.deadline };
}

impl PendingPoll {
    ghost use Rattle.std.specs.Prelude.{◌≡◌};
    ghost use Rattle.mb_wire.specs.Spans.{span_view};
    ghost use Rattle.mb_wire.specs.Spans.{request_of};
    ghost use Rattle.poll_core.specs.Polls.{due, has_id, poll_of};

    pub fn new(number: u64, id: u16, unit: u8, span: ReadSpan, deadline: u64) -> Self
        ensures { result ≡ poll_of number id unit (span_view span) deadline }
    {
        PendingPoll {
            number,
            id,
            unit,
            span,
            deadline,
        }
    }

    pub fn number(&self) -> u64
        ensures { result ≡ self.now.number }
    {
        self.number
    }

    pub fn unit(&self) -> u8
        ensures { result ≡ self.now.unit }
    {
        self.unit
    }

    /// Returns the Modbus request of the poll.
    pub fn request(&self) -> Request
        ensures { result ≡ request_of self.now.span }
    {
        self.span.request()
    }

    /// Returns whether the poll's deadline is at or before the time `moment`.
    pub fn is_due(&self, moment: u64) -> bool
        ensures { result ≡ due moment self.now }
    {
        self.deadline <= moment
    }

    pub fn has_id(&self, id: u16) -> bool
        ensures { result ≡ has_id id self.now }
    {
        id == self.id
    }
}

impl Default for PendingPoll {
    fn default() -> Self {
        let span = ReadSpan {
            function: ReadFunction::HoldingRegisters,
            address: 0,
            count: 1,
        };
        PendingPoll::new(0, 0, 0, span, 0)
    }
}

/// The kind of event that completed a poll: a timeout, a frame, or the end of the polling session.
#[derive(Clone, Copy, PartialEq, Eq)]
pub enum SettledBy {
    Silence,
    Frame,
    End(LostCause),
}

/// A completed poll, and the kind of event that completed it.
#[derive(Drop)]
pub struct SettledPoll {
    pub poll: PendingPoll,
    pub by: SettledBy,
}
