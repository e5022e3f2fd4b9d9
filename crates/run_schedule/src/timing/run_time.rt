//! The time by which the program measures timeouts and waits.
ghost use Rattle.std.specs.Prelude.{◌≡◌, ◌≤◌, ◌-◌, ◌/◌, ◌%◌};
ghost use Rattle.run_schedule.specs.Timing.RunTimes.{time_by};

/// The program's own time in milliseconds. It begins at a timestamp and advances with the monotonic
/// clock, so setting the system's clock changes no timeout.
#[derive(Clone, Copy)]
pub struct RunTime {
    /// The program's time (which follows the monotonic clock) at the program's start, in
    /// milliseconds since 1970-01-01 UTC.
    pub base: u64,
    /// The reading of the monotonic clock at the program's start, in milliseconds.
    pub began: u64,
    /// The program's time at the latest reading of the monotonic clock, in milliseconds since
    /// 1970-01-01 UTC.
    pub latest: u64,
}

impl RunTime {
    /// Starts the program's time at `base` milliseconds, while the monotonic clock reads `even`
    /// milliseconds.
    pub fn new(base: u64, even: u64) -> RunTime
        ensures { result ≡ record { base = base; began = even; latest = base } }
    {
        RunTime {
            base,
            began: even,
            latest: base,
        }
    }

    /// Advances the program's time to a new reading `even` of the monotonic clock, in milliseconds.
    pub fn read(&mut self, even: u64)
        ensures time { self.new ≡ record self.old { latest = time_by self.old even } }
        ensures on { self.old.latest ≤ self.new.latest }
    {
        let passed = even.saturating_sub(self.began);
        self.latest = self.latest.max(self.base.saturating_add(passed));
    }

    /// Returns the program's time in whole seconds since 1970-01-01 UTC.
    pub fn seconds(&self) -> u64
        ensures { result ≡ self.now.latest / 1000 }
    {
        self.latest / 1000
    }

    /// Returns the milliseconds to the next full second, 1 to 1,000.
    pub fn to_next_second(&self) -> u64
        ensures left { result ≡ 1000 - self.now.latest % 1000 }
        ensures some { 1 ≤ result }
    {
        1000 - self.latest % 1000
    }
}
