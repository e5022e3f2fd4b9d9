//! A clock whose timestamps never go back.
ghost use Rattle.std.specs.Prelude.{◌≡◌, ◌≤◌, false};
ghost use Rattle.run_schedule.specs.Timing.SteadyClocks.{ahead_by, read_by, clock_after};

/// The maximum number of seconds that the clock may advance between two readings without a message
/// to the operator.
const MOST_AHEAD: u64 = 60;

/// A timestamp that never goes back, and what to report about the clock that it comes from.
#[derive(Clone, Copy)]
pub struct ClockReading {
    /// The timestamp of an event that arrives now: the clock's time, or the latest earlier
    /// timestamp if that is later.
    pub moment: u64,
    /// The number of seconds by which the clock is before the latest timestamp. `None` except at
    /// the first reading after the clock was set back.
    pub set_back: Option<u64>,
    /// The previous timestamp, if the clock advanced by more than a minute since then.
    pub ahead_from: Option<u64>,
}

// Returns the latest timestamp, if the clock has jumped to more than a minute after it, otherwise
// `None`.
fn ahead_from(latest: u64, now: u64) -> Option<u64>
    ensures { result ≡ ahead_by latest now }
{
    if now.saturating_sub(latest) > MOST_AHEAD {
        Some(latest)
    } else {
        None
    }
}

/// The state of a clock that may be set back.
#[derive(Clone, Copy)]
pub struct SteadyClock {
    /// The latest timestamp that this clock has returned or started with, in seconds since
    /// 1970-01-01 UTC.
    pub latest: u64,
    /// Whether the clock was before the latest timestamp at the previous reading.
    pub is_back: bool,
}

impl SteadyClock {
    /// Makes a clock that never returns a timestamp before `latest`.
    pub fn new(latest: u64) -> SteadyClock
        ensures latest { result.latest ≡ latest }
        ensures back { result.is_back ≡ false }
    {
        SteadyClock {
            latest,
            is_back: false,
        }
    }

    /// Returns the timestamp of an event that arrives when the clock reads `now`.
    pub fn read(&mut self, now: u64) -> ClockReading
        ensures reads { result ≡ read_by self.old now }
        ensures after { self.new ≡ clock_after self.old now }
        ensures on { self.old.latest ≤ result.moment }
    {
        let latest = self.latest;
        let was_back = self.is_back;
        self.is_back = now < latest;
        if latest <= now {
            self.latest = now;
            return ClockReading {
                moment: now,
                set_back: None,
                ahead_from: ahead_from(latest, now),
            };
        }
        ClockReading {
            moment: latest,
            set_back: if was_back { None } else { Some(latest - now) },
            ahead_from: None,
        }
    }
}
