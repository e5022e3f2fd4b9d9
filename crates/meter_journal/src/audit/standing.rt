//! Compares a meter's row of the table `installations` with the values computed from the meter's
//! entries.
ghost use Rattle.std.specs.Prelude.{◌≡◌, ◌↔◌, IsTrue, IsNone, IfSome};

use crate::audit::checks::Check;
use energy_core::Last;

/// The values in a meter's row of the table `installations`: the last valid (not voided) entry, the
/// total energy in mWh, and whether the meter was closed.
#[derive(Clone, Copy, PartialEq, Eq)]
pub struct Standing {
    pub last: Last,
    pub total: u64,
    pub is_ended: bool,
}

/// The values that an audit computed from a meter's entries and that differ from the meter's row of
/// `installations`. A field is `None` if the row has the computed value.
#[derive(Clone, Copy)]
pub struct StandingFaults {
    pub last: Option<Last>,
    pub total: Option<u64>,
    pub is_ended: Option<bool>,
}

/// Returns whether two states of a counter are equal.
fn is_same(last: &Last, other: &Last) -> bool
    ensures { IsTrue result ↔ (last.now ≡ other.now) }
{
    last.at == other.at && last.raw == other.raw && last.sf == other.sf
}

/// Returns the differences between a meter's row of `installations` and the state that the check of
/// the meter's entries computed from all entries.
pub fn standing_faults(check: &Check, standing: &Standing) -> StandingFaults
    ensures last { IsNone result.last ↔ (standing.now.last ≡ check.now.last) }
    ensures total { IsNone result.total ↔ (standing.now.total ≡ check.now.total) }
    ensures ended { IsNone result.is_ended ↔ (standing.now.is_ended ≡ check.now.is_ended) }
    ensures wanted_last { IfSome result.last (λ wanted. wanted ≡ check.now.last) }
    ensures wanted_total { IfSome result.total (λ wanted. wanted ≡ check.now.total) }
    ensures wanted_ended { IfSome result.is_ended (λ wanted. wanted ≡ check.now.is_ended) }
{
    let is_same_total = standing.total == check.total;
    let is_same_end = standing.is_ended == check.is_ended;
    StandingFaults {
        last: if is_same(&standing.last, &check.last) {
            None
        } else {
            Some(check.last)
        },
        total: if is_same_total {
            None
        } else {
            Some(check.total)
        },
        is_ended: if is_same_end {
            None
        } else {
            Some(check.is_ended)
        },
    }
}
