//! Reads the two clocks of a run of `sunreg run`: the monotonic clock for waiting, and the system
//! clock for the timestamps of events.
ghost use Rattle.std.specs.Prelude.{◌≡◌};
ghost use Rattle.office_running.specs.Runs.{ReadsClock};

use crate::http::even_milliseconds;
use crate::voice::Voice;
use mb_wire::sockets::Clock;
use run_schedule::{RunTime, SteadyClock};
use std::time::{SystemTime, UNIX_EPOCH};

// Returns the milliseconds since the present second of the system clock began; 0 if the clock
// cannot be read.
fn part_of_second<R: std::rt::Clock>(rt: &R) -> u64 {
    let Ok(now) = SystemTime::now(rt) else {
        return 0;
    };
    match now.duration_since(UNIX_EPOCH) {
        Ok(since) => u64::from(since.subsec_millis()),
        Err(_) => 0,
    }
}

/// Starts the run's own time, which measures timeouts and follows the monotonic clock. `moment` is
/// the present timestamp.
///
/// The run's time is one millisecond late, since both clocks return whole milliseconds. Each second
/// of the run therefore begins after the system clock returns that second's timestamp. Otherwise an
/// event at the beginning of a second would have almost no time until its timeout.
pub(crate) fn time_from<R: std::rt::Clock>(rt: &R, moment: u64) -> RunTime {
    let base = moment
        .saturating_mul(1000)
        .saturating_add(part_of_second(rt))
        .saturating_sub(1);
    RunTime::new(base, even_milliseconds(rt))
}

/// Returns the milliseconds until the next second of the run's own time, which follows the
/// monotonic clock, begins.
pub(crate) fn to_next_second<R: std::rt::Clock>(rt: &R, time: &mut RunTime) -> u64 {
    time.read(even_milliseconds(rt));
    time.to_next_second()
}

/// Returns the timestamp for the next events. It is the time of the system clock, or the run's
/// latest timestamp if the clock shows an earlier time. Timestamps therefore never decrease.
///
/// Reports, once for each occurrence, that the clock was set back, or that it jumped ahead by more
/// than a minute.
pub(crate) fn read_clock<C: Clock>(
    steady: &mut SteadyClock,
    clock: &mut C,
    voice: &mut Voice,
) -> u64
    ensures reads { ReadsClock steady.old.latest steady.new.latest
        (C.moments clock.old) (C.moments clock.new) }
    ensures moment { result ≡ steady.new.latest }
{
    let reported = clock.now();
    let reading = steady.read(reported);
    if let Some(seconds) = reading.set_back {
        voice.report_set_back(reading.moment, seconds);
    }
    if let Some(before) = reading.ahead_from {
        voice.report_ahead(before, reading.moment);
    }
    reading.moment
}

/// Returns the run's own time, in seconds since 1970-01-01 UTC. It follows the monotonic clock.
pub(crate) fn read_time<R: std::rt::Clock>(rt: &R, time: &mut RunTime) -> u64 {
    time.read(even_milliseconds(rt));
    time.seconds()
}
