//! The energy between two counts of a counter.
ghost use Rattle.std.specs.Prelude.{◌≡◌, ◌≤◌, ◌-◌, ◌*◌, ◌^◌, ◌≤ℤ◌};
ghost use Rattle.energy_core.specs.Value.{unit_of, value_of};

use crate::entries::Last;
use crate::limits::{MAX_SCALE, MAX_UNIT, MIN_SCALE};
use crate::measures::unit;

/// Returns the energy in mWh from the counter's last entry to the count `reached`, which includes
/// the full turns since that entry. Returns 0 if `reached` is less than the last entry's count.
/// This crate computes all energy with this function.
pub fn energy_up_to(last: &Last, reached: u128) -> u128
    requires reached { reached ≤ 2 ^ 97 }
    requires scale_low { MIN_SCALE ≤ℤ last.now.sf }
    requires scale_high { last.now.sf ≤ℤ MAX_SCALE }
    ensures value { result ≡ reached * unit_of last.now.sf - value_of last.now }
    ensures small { result ≤ reached * MAX_UNIT }
{
    let unit = u128::from(unit(last.sf));
    (reached * unit).saturating_sub(u128::from(last.raw) * unit)
}
