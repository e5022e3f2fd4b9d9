//! The energy of one count of a counter, and the check that the time between two entries touches at
//! most 3,000 quarter hours.
ghost use Rattle.std.specs.Prelude.{◌≡◌, ◌≤◌, ◌<◌, ◌↔◌, ◌≤ℤ◌, IsTrue};
ghost use Rattle.energy_core.specs.Value.{unit_of};
ghost use Rattle.energy_core.specs.Account.{intervals_touched};

use crate::limits::{INTERVAL_SECONDS, MAX_INTERVALS, MAX_SCALE, MAX_UNIT, MIN_SCALE};

/// Returns the energy in mWh of one count at the scale factor `sf`.
#[tactic(auto, unfolding(crate::specs::Value::unit_of))]
pub(crate) fn unit(sf: i16) -> u64
    requires low { MIN_SCALE ≤ℤ sf }
    requires high { sf ≤ℤ MAX_SCALE }
    ensures value { result ≡ unit_of sf }
    ensures some { 1 ≤ result }
    ensures small { result ≤ MAX_UNIT }
{
    match sf {
        -3 => 1,
        -2 => 10,
        -1 => 100,
        0 => 1000,
        1 => 10000,
        2 => 100000,
        _ => 1000000,
    }
}

/// Returns whether the time from `from` to `till` touches more than `MAX_INTERVALS` (3,000)
/// quarter-hour intervals.
pub(crate) fn is_long_span(from: u64, till: u64) -> bool
    requires { from < till }
    ensures { IsTrue result ↔ (MAX_INTERVALS < intervals_touched from till) }
{
    (till - 1) / INTERVAL_SECONDS - from / INTERVAL_SECONDS >= MAX_INTERVALS
}
