//! The monotonic clock, which measures the deadlines of connections.
use mb_wire::sockets::Clock;
use std::io::{self, ErrorKind};
use std::time::Duration;

/// The monotonic clock in seconds. If the clock cannot be read, every deadline counts as passed.
#[derive(Drop)]
pub(crate) struct Even<'r, R: std::rt::Clock> {
    rt: &'r R,
}

impl<'r, R: std::rt::Clock> Even<'r, R> {
    pub(crate) fn new(rt: &'r R) -> Even<'r, R> {
        Even { rt }
    }
}

impl<R: std::rt::Clock> Clock for Even<'_, R> {
    fn now(&mut self) -> u64 {
        match self.rt.monotonic() {
            Ok(since) => since.as_secs(),
            Err(_) => u64::MAX,
        }
    }
}

/// A clock on which no time passes, for connections without a deadline.
#[derive(Clone, Copy)]
pub(crate) struct StoppedClock;

impl std::rt::Clock for StoppedClock {
    fn monotonic(&self) -> io::Result<Duration> {
        Ok(Duration::from_secs(0))
    }

    fn since_1970(&self) -> io::Result<Duration> {
        Err(io::Error::from(ErrorKind::Unsupported))
    }
}
