//! A clock's time that does not go back between successive runs of the polling loop.

/// A clock's time that does not go back between successive runs of the polling loop in one process.
/// No run of that loop begins before a timestamp of its previous run, even if the clock was set
/// back in between.
#[derive(Clone, Copy)]
pub struct OnwardTime {
    /// The earliest time that the clock reports, in seconds.
    pub least: u64,
    /// The latest time that the clock has reported, in seconds.
    pub latest: u64,
}

impl OnwardTime {
    ghost use Rattle.std.specs.Prelude.{◌≡◌, max};

    /// Makes an `OnwardTime` (a time that follows the clock, but is never earlier than a lower
    /// bound) with the lower bound 0.
    pub fn new() -> OnwardTime
        ensures { result ≡ record { least = 0; latest = 0 } }
    {
        OnwardTime {
            least: 0,
            latest: 0,
        }
    }

    /// Returns the time when the clock reads `now`: `now` or the lower bound `least`, whichever is
    /// later.
    pub fn read(&mut self, now: u64) -> u64
        ensures reported { result ≡ max now self.old.least }
        ensures least { self.new.least ≡ self.old.least }
        ensures latest { self.new.latest ≡ max self.old.latest result }
    {
        let moment = now.max(self.least);
        self.latest = self.latest.max(moment);
        moment
    }

    /// Raises the lower bound for the times of the next run of the polling loop to the latest time
    /// that was reported.
    pub fn advance_least(&mut self)
        ensures { self.new ≡ record { least = self.old.latest; latest = self.old.latest } }
    {
        self.least = self.latest;
    }
}
