//! Decides when to connect to a device, and when a connection attempt or a polling round has timed
//! out.
use crate::timing::grid::next_due;
use crate::timing::limits::{CONNECT_SECONDS, round_until, until};
use crate::timing::pauses::{next_pause, retry_at};

/// The state of the connection to a device.
#[derive(Clone, Copy, PartialEq, Eq)]
pub enum Phase {
    /// The device has no connection.
    Resting,
    /// A connection attempt is in progress.
    Connecting,
    /// The device is connected and being polled.
    Polling,
}

/// The state of the connection to a device, with the time of the next connection attempt or the
/// current deadline.
#[derive(Clone, Copy, PartialEq, Eq)]
pub struct Timing {
    pub phase: Phase,
    /// The time of the next connection attempt while the device has no connection. Otherwise the
    /// deadline of the connection attempt or the polling round.
    pub at: u64,
    /// The pause in seconds after the latest failed connection attempt, or 0 after a successful
    /// one.
    pub pause: u64,
}

impl Timing {
    ghost use Rattle.std.specs.Prelude.{◌≡◌, ◌≤◌, ◌<◌, ◌+◌, ◌^◌};
    ghost use Rattle.run_schedule.specs.Timing.Timings as timings;
    ghost use Rattle.run_schedule.specs.Timing.Timings.{IsDue, IsRetried};

    /// Makes the state of a device without a connection. The device's first connection attempt is
    /// due at the first multiple of the polling interval `every` after `now`.
    pub fn new(every: u64, now: u64) -> Timing
        requires some { 0 < every }
        requires fits { now + every < 2 ^ 64 }
        ensures rests { result.phase ≡ Phase.Resting }
        ensures due { IsDue every now result.at }
        ensures pause { result.pause ≡ 0 }
    {
        Timing {
            phase: Phase::Resting,
            at: next_due(every, now),
            pause: 0,
        }
    }

    /// Returns whether the time to connect to the device has come.
    pub fn is_due(&self, now: u64) -> bool
        ensures { result ≡ timings.is_due now self.now }
    {
        match self.phase {
            Phase::Resting => self.at <= now,
            Phase::Connecting => false,
            Phase::Polling => false,
        }
    }

    /// Returns whether the connection attempt or the polling round has passed its deadline.
    pub fn is_over(&self, now: u64) -> bool
        ensures { result ≡ timings.is_over now self.now }
    {
        match self.phase {
            Phase::Resting => false,
            Phase::Connecting => self.at <= now,
            Phase::Polling => self.at <= now,
        }
    }

    /// Records that a connection attempt to the device begins.
    pub fn begin(&mut self, now: u64)
        ensures { self.new ≡ timings.begun now self.old }
    {
        self.phase = Phase::Connecting;
        self.at = until(now, CONNECT_SECONDS);
    }

    /// Records that the connection attempt succeeded, so that the polling round begins.
    pub fn begin_round(&mut self, every: u64, now: u64)
        ensures { self.new ≡ timings.stands every now }
    {
        self.phase = Phase::Polling;
        self.at = round_until(every, now);
        self.pause = 0;
    }

    /// Records that the connection attempt failed. The next attempt follows after a growing pause,
    /// but no later than at the next multiple of the polling interval `every`.
    pub fn fail(&mut self, every: u64, now: u64)
        requires some { 0 < every }
        requires fits { now + every < 2 ^ 64 }
        ensures rests { self.new.phase ≡ Phase.Resting }
        ensures pause { self.new.pause ≡ timings.pause_after self.old.pause }
        ensures again { IsRetried every now self.new.pause self.new.at }
    {
        self.phase = Phase::Resting;
        self.pause = next_pause(self.pause);
        self.at = retry_at(now, self.pause, next_due(every, now));
    }

    /// Records that the connection has ended. The next connection attempt is due at the first
    /// multiple of the polling interval `every` after `now`.
    pub fn rest(&mut self, every: u64, now: u64)
        requires some { 0 < every }
        requires fits { now + every < 2 ^ 64 }
        ensures rests { self.new.phase ≡ Phase.Resting }
        ensures due { IsDue every now self.new.at }
        ensures pause { self.new.pause ≡ 0 }
    {
        *self = Timing::new(every, now);
    }
}
