//! The grid of times at which devices are polled: the multiples of the polling interval.
ghost use Rattle.std.specs.Prelude.{◌≡◌, ◌≤◌, ◌<◌, ◌+◌, ◌*◌, ◌^◌, ℕ};

/// Returns the first multiple of the polling interval `every` after `now`. Missed polling rounds
/// are skipped.
pub fn next_due(every: u64, now: u64) -> u64
    requires some { 0 < every }
    requires fits { now + every < 2 ^ 64 }
    ensures later { now < result }
    ensures soon { result ≤ now + every }
    ensures grid { (k : ℕ) × (result ≡ k * every) }
    ensures first { (k : ℕ) → now < k * every → result ≤ k * every }
{
    (now / every + 1) * every
}
