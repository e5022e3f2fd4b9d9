//! The pauses between attempts to connect to a device that fails.
ghost use Rattle.std.specs.Prelude.{◌≡◌, ◌+◌, ◌-◌, ◌^◌, min};
ghost use Rattle.run_schedule.specs.Timing.Pauses.{pause_after};

/// The longest pause between connection attempts, in seconds.
pub const MOST_PAUSE: u64 = 60;

/// Returns the pause after one more failed connection attempt: 1 second at first, then twice the
/// previous pause, at most 60 seconds. `before` is the previous pause, or 0 after a successful
/// attempt.
pub fn next_pause(before: u64) -> u64
    ensures { result ≡ pause_after before }
{
    if before == 0 {
        return 1;
    }
    before.saturating_mul(2).min(MOST_PAUSE)
}

/// Returns when to reconnect to a device whose connection failed at `now`: after `pause` seconds,
/// but no later than at `due`, the time of the device's next poll.
pub fn retry_at(now: u64, pause: u64, due: u64) -> u64
    ensures { result ≡ min (min (now + pause) (2 ^ 64 - 1)) due }
{
    now.saturating_add(pause).min(due)
}
