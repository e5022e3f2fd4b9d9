//! Clocks that return the current time or a fixed list of times.
use std::time::{SystemTime, UNIX_EPOCH};

/// A clock that returns whole seconds since 1970-01-01 UTC.
pub trait Clock {
    ghost use Rattle.std.specs.Prelude.{ℕ, List, Option, None};
    ghost use Rattle.mb_wire.specs.Sockets.Clocks.{ReportsMoment};

    // The times that the clock will return, or `None` if they are not known in advance, as for the
    // operating system's clock.
    ghost moments: { Self → Option (List ℕ) } = { λ _. None };

    /// Returns the current time in seconds since 1970-01-01 UTC, or 0 if the clock cannot be read.
    fn now(&mut self) -> u64
        ensures { ReportsMoment (moments self.old) (moments self.new) result };
}

/// The operating system's clock. Its time may be set back while the program runs.
#[derive(Drop)]
pub struct SystemClock<R: std::rt::Clock + Drop> {
    rt: R,
}

impl<R: std::rt::Clock + Drop> SystemClock<R> {
    pub fn new(rt: R) -> SystemClock<R> {
        SystemClock { rt }
    }
}

impl<R: std::rt::Clock + Drop> Clock for SystemClock<R> {
    fn now(&mut self) -> u64 {
        let Ok(now) = SystemTime::now(&self.rt) else {
            return 0;
        };
        match now.duration_since(UNIX_EPOCH) {
            Ok(since) => since.as_secs(),
            Err(_) => 0,
        }
    }
}

/// A clock that returns the times of a list in order and then repeats the last time. If the list is
/// empty, it returns 0.
#[derive(Drop)]
pub struct FixedClock<'a> {
    moments: &'a [u64],
}

impl<'a> FixedClock<'a> {
    ghost use Rattle.std.specs.Prelude.{◌≡◌};
    ghost use Rattle.mb_wire.specs.Sockets.Clocks.{moments_in};

    pub fn new(moments: &'a [u64]) -> FixedClock<'a>
        ensures { moments_in result ≡ moments.entry.now }
    {
        FixedClock { moments }
    }
}

impl Clock for FixedClock<'_> {
    ghost use Rattle.std.specs.Prelude.{Some};

    ghost moments = { λ clock. Some clock.moments.now };

    fn now(&mut self) -> u64 {
        match self.moments {
            [] => 0,
            [last] => *last,
            [next, later @ ..] => {
                self.moments = later;
                *next
            }
        }
    }
}
