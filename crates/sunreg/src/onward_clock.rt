//! The clock for the timestamps of records. When `run --carry` changes to a new file, the new file
//! gets no earlier timestamps than the old file, even if the system clock was set back.
use mb_wire::sockets::Clock;
use run_schedule::OnwardTime;

/// A clock that returns no time before its lower bound.
#[derive(Drop)]
pub(crate) struct OnwardClock<C: Clock + Drop> {
    clock: C,
    time: OnwardTime,
}

impl<C: Clock + Drop> OnwardClock<C> {
    pub(crate) fn new(clock: C) -> OnwardClock<C> {
        OnwardClock {
            clock,
            time: OnwardTime::new(),
        }
    }

    /// Raises the lower bound of the clock to the latest time that the clock has returned.
    pub(crate) fn advance_least(&mut self) {
        self.time.advance_least();
    }
}

impl<C: Clock + Drop> Clock for OnwardClock<C> {
    fn now(&mut self) -> u64 {
        let reported = self.clock.now();
        self.time.read(reported)
    }
}
