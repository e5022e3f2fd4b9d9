//! A connection whose reads and writes fail after a deadline.
use crate::sockets::clock::Clock;
use crate::sockets::counts::Counts;
use crate::{LastTake, Link, LinkFailed, Took};

/// A connection whose reads and writes fail once the clock's time is after a deadline. Tests, not
/// proofs, show that each read and write looks at the clock.
#[derive(Drop)]
pub struct DeadlineLink<'l, L: Link, C: Clock> {
    link: &'l mut L,
    clock: &'l mut C,
    until: u64,
    counts: Counts,
}

impl<'l, L: Link, C: Clock> DeadlineLink<'l, L, C> {
    ghost use Rattle.std.specs.Prelude.{◌≡◌, IfSome};
    ghost use Rattle.mb_wire.specs.Sockets.Beginnings.{IsFreshHaste, until_of};
    ghost use Rattle.mb_wire.specs.Sockets.Clocks.{ReportsLate};

    /// Creates a connection that works until the clock's time is after `until`, in seconds.
    pub fn new(link: &'l mut L, clock: &'l mut C, until: u64) -> DeadlineLink<'l, L, C>
        ensures until { until_of result ≡ until }
        ensures fresh { IsFreshHaste result }
    {
        DeadlineLink {
            link,
            clock,
            until,
            counts: Counts::new(),
        }
    }

    // Returns whether the clock's current time is after the deadline.
    fn is_late(&mut self) -> bool
        ensures late { IfSome (C.moments self.old.clock.now) (ReportsLate self.old.until result) }
        ensures link { self.new.link.now ≡ self.old.link.now }
        ensures counts { self.new.counts ≡ self.old.counts }
    {
        self.clock.now() > self.until
    }
}

impl<L: Link, C: Clock> Link for DeadlineLink<'_, L, C> {
    ghost remaining = { λ link. L.remaining link.link.now };

    ghost given = { λ link. L.given link.link.now };

    ghost failed = { λ link. link.counts.failures };

    ghost taken = { λ link. link.counts.takes };

    ghost ended = { λ link. link.counts.ends };

    ghost last = { λ link. link.counts.last };

    fn take(&mut self, piece: &mut [u8]) -> Result<Took, LinkFailed> {
        let answer = if self.is_late() {
            Err(LinkFailed)
        } else {
            self.link.take(piece)
        };
        self.counts.count_read(piece.len(), answer);
        answer
    }

    fn give(&mut self, bytes: &[u8]) -> Result<usize, LinkFailed> {
        let answer = if self.is_late() {
            Err(LinkFailed)
        } else {
            self.link.give(bytes)
        };
        self.counts.count_write(bytes, answer);
        answer
    }

    fn failures(&self) -> u64 {
        self.counts.failures
    }

    fn takes(&self) -> u64 {
        self.counts.takes
    }

    fn last_take(&self) -> Option<LastTake> {
        self.counts.last
    }
}
